//! Parts of devices in memory: what was written, how often something happened, and waiting for it.
use sockets::HangUp;
use std::alloc::{AllocError, Global};
use std::sync::atomic::{AtomicBool, AtomicU64, Ordering};
use std::sync::{Arc, Mutex, Wait};
use std::thread;
use std::time::{Clock, Duration};

/// An RTP packet with number 7 and timestamp 9,000, as a frame on channel 0.
pub const FRAME: &[u8] = b"\x24\x00\x00\x0c\x80\x60\x00\x07\x00\x00\x23\x28\x00\x00\x00\x00";

/// The packet of `FRAME`.
pub const PACKET: &[u8] = b"\x80\x60\x00\x07\x00\x00\x23\x28\x00\x00\x00\x00";

/// Bytes that are written, shared with the thread that reads them.
pub type Bytes = Arc<Mutex<Vec<u8>>, Global>;

/// A number that is counted up.
pub type Count = Arc<AtomicU64, Global>;

/// A number that is 0.
pub fn count(alloc: Global) -> Result<Count, AllocError> {
    Ok(Arc::new(alloc, AtomicU64::new(0))?)
}

/// A connection that needs no hanging up.
#[derive(Clone, Copy, Drop)]
pub struct Open;

impl HangUp for Open {
    fn hang_up(&self) {}

    fn close_writes(&self) {}

    fn limit_waits(&self, _wait: u64) {}
}

/// A connection that counts how often it is hung up.
#[derive(Drop)]
pub struct HangUps(pub Count);

impl HangUp for HangUps {
    fn hang_up(&self) {
        self.0.fetch_add(1, Ordering::SeqCst);
    }

    fn close_writes(&self) {}

    fn limit_waits(&self, _wait: u64) {}
}

/// Waits until at least `least` bytes were written and `end` is the end of them, for at most 10,000 turns of a
/// millisecond.
pub fn has_come<R: Wait + Clock>(rt: &R, bytes: &Bytes, least: usize, end: &[u8]) -> bool {
    for _ in 0..10_000u32 {
        let written = bytes.lock(rt);
        if written.len() >= least && written.as_slice().ends_with(end) {
            return true;
        }
        drop(written);
        thread::sleep(rt, Duration::from_millis(1));
    }
    false
}

/// Waits until a word is set, for at most ten seconds. Returns whether it is.
pub fn wait_for<R: Clock>(rt: &R, word: &AtomicBool) -> bool {
    for _ in 0..10_000u32 {
        if word.load(Ordering::SeqCst) {
            return true;
        }
        thread::sleep(rt, Duration::from_millis(1));
    }
    false
}
