//! How a connection is closed after a fixed text.
use crate::hang_up::HangUp;
use interleaved::Source;

/// Closes the writing side, and reads what the peer still sends: at most `reads` reads, each for at most `wait` milliseconds.
/// So the peer sees no reset before it has read what was written last.
pub fn close_behind_text<S: Source, H: HangUp>(
    shutdown: &H,
    source: &mut S,
    reads: u32,
    wait: u64,
) {
    shutdown.limit_waits(wait);
    shutdown.close_writes();
    let mut buf = [0; 16_384];
    for _ in 0..reads {
        match source.read(&mut buf) {
            Ok(count) if count > 0 => {}
            _ => return,
        }
    }
}
