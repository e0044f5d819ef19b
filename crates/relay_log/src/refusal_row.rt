//! The lines that report refusals once in a while.
use crate::refused_line::RefusedLine;
use log::{Log, warn};
use server_counts::Refusal;

/// The source that lines are logged with.
const TARGET: &str = "relay_server::refusing";

/// How often something was refused or left out since that was last logged.
#[derive(Drop)]
pub enum RefusalRow {
    /// Peers that weren't served for this reason.
    Peers(Refusal, u64),
    /// Requests about one subject that were refused with one status.
    Requests(RefusedLine),
    /// Ends of this kind that weren't logged.
    Ends(&'static str, u64),
    /// Accounts that weren't logged.
    Accounts(u64),
}

impl RefusalRow {
    /// Writes the line.
    pub fn write(&self, lines: &impl Log) {
        match self {
            RefusalRow::Peers(why, count) => warn!(lines; target: TARGET, "{count} {why}"),
            RefusalRow::Requests(line) => warn!(lines; target: TARGET, "{line}"),
            RefusalRow::Ends(kind, count) => {
                warn!(lines; target: TARGET, "{count} ends weren't logged, of addresses with more than ten a second: {kind}")
            }
            RefusalRow::Accounts(count) => {
                warn!(lines; target: TARGET, "{count} accounts weren't logged, of connections with more than ten a second")
            }
        }
    }
}
