//! Lines that report what a connection's packets came to.
ghost use Rattle.std.specs.Prelude.{◌↔◌, IsTrue};
ghost use Rattle.relay_log.specs.Accounts.{HasToBeLogged};

use crate::events::Events;
use log::{Log, info};
use relay_accounts::{Counts, Part};
use std::net::SocketAddr;
use std::sync::Wait;
use std::time::Clock;

/// The source that lines are logged with.
const TARGET: &str = "relay_server::events";

impl<R: Wait + Clock> Events<R> {
    /// A session of the connection has ended, which had this part in its mount: its account. One of more than ten in a second is
    /// counted instead, unless each is to be logged.
    pub fn account(&mut self, rt: &R, part: Option<&Part>, counts: &Counts) {
        let Some(teller) = &self.teller else {
            return;
        };
        let is_verbose = teller.is_verbose;
        if !is_verbose && !has_to_be_logged(counts) {
            return;
        }
        if is_verbose || teller.refusing.may_report_account(rt, &mut self.accounts) {
            log_account(&*teller.lines, teller.peer, part, counts);
        }
    }
}

/// Returns whether an account is logged without `--verbose`: packets were lost or refused, were missing from the publisher's
/// sequence, or waited for players.
pub(crate) fn has_to_be_logged(counts: &Counts) -> bool
    ensures { IsTrue result ↔ HasToBeLogged counts.now }
{
    counts.has_losses() || counts.missing > 0 || counts.slowed > 0
}

/// A line with a connection's part in a mount and what its packets came to there.
pub(crate) fn log_account<R: Log>(rt: &R, peer: SocketAddr, part: Option<&Part>, counts: &Counts) {
    match part {
        Some(part) => info!(rt; target: TARGET, "{peer}: {part}: {counts}"),
        None => info!(rt; target: TARGET, "{peer}: {counts}"),
    }
}
