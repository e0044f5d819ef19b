//! The one thread that wakes players.
use crate::mount::recording_mounts::RecordingMounts;
use crate::wake::wake_signal::WakeSignal;
use std::sync::Wait;
use std::time::{Clock, Duration};

/// Wakes the players of mounts that packets came to, until it is stopped. Packets gather before that, so that a burst
/// is one wake-up and few writes for each player. If a full batch has gathered, they gather no longer than the rest of
/// their burst takes.
///
/// Runs on a thread of its own, and takes only the lock of the recording mounts.
pub fn wake_players<R: Wait + Clock>(
    rt: &R,
    wake_signal: &WakeSignal,
    recording: &RecordingMounts,
    gather: Duration,
) {
    for _ in rt.forever() {
        wake_signal.wait(rt);
        wake_signal.gather(rt, gather);
        let cleared = wake_signal.clear();
        let asked = recording.ask(rt, cleared);
        if wake_signal.is_stopped(asked.raise(wake_signal)) {
            return;
        }
    }
}
