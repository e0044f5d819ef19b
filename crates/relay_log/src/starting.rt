//! The line that reports that a server couldn't start its threads.
use log::{Log, warn};

/// The source that lines are logged with.
const TARGET: &str = "relay_server::helpers";

/// Logs that a thread that all connections share couldn't be started.
pub fn tell_not_started(rt: &impl Log) {
    warn!(rt; target: TARGET, "no thread or no memory for what all connections share");
}
