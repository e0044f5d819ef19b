//! Lines that report how a connection ended.
use crate::events::{has_to_be_logged, log_account};
use log::{Log, warn};
use relay_accounts::{ConnectionEnd, Counts, Outcome};
use std::net::SocketAddr;

/// The source that lines are logged with.
const TARGET: &str = "relay_server::server";

/// Logs a warning if a connection ended by a fault, a failed read or write, silence, or because there was no memory or no thread.
pub fn tell_end<R: Log>(rt: &R, peer: SocketAddr, conn: u64, outcome: &Outcome) {
    let Outcome { end, part, .. } = outcome;
    if *end == ConnectionEnd::Done {
        return;
    }
    match part {
        Some(part) => warn!(rt; target: TARGET, "{peer}: {part}: {end} (connection {conn})"),
        None => warn!(rt; target: TARGET, "{peer}: {end} (connection {conn})"),
    }
}

/// Logs the account of a connection's last session, if it isn't logged yet: if packets were lost or refused or waited for players, if
/// the connection failed and left some unsent, or if each account is to be logged.
pub fn tell_last_account<R: Log>(rt: &R, peer: SocketAddr, outcome: &Outcome, is_verbose: bool) {
    let Outcome { end, counts, .. } = outcome;
    let has_failed = *end != ConnectionEnd::Done && counts.unsent > 0;
    let is_asked = is_verbose && (outcome.has_account || *counts != Counts::new());
    if !has_failed && !is_asked && !has_to_be_logged(counts) {
        return;
    }
    let part = if outcome.has_account {
        outcome.part.as_ref()
    } else {
        None
    };
    log_account(rt, peer, part, counts);
}
