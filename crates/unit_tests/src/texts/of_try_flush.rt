//! A sink that gathers, over one that may take little or nothing at once.
ghost use Rattle.std.specs.Prelude.{◌≤◌, Some, length};

use interleaved::{Failed, Gathering, ListSink, Sink, TrySink, write_all};
use std::test::Fail;

/// Three frames of two bytes on channel 4.
const FRAMES: [u8; 18] = [
    0x24, 4, 0, 2, 1, 2, 0x24, 4, 0, 2, 3, 4, 0x24, 4, 0, 2, 5, 6,
];

const REPLY: &[u8] = b"RTSP/1.0 200 OK\r\n\r\n";

/// How much a sink takes at once if it doesn't take all.
#[derive(Clone, Copy, Debug)]
enum Short {
    None,
    One,
    AllButOne,
}

/// A sink in memory that takes all at once, except at one of its tries. A write that may wait takes all.
#[derive(Drop)]
struct ShortOnce {
    sink: ListSink,
    short: Short,
    /// Which of its tries that is.
    place: usize,
    tries: usize,
}

impl Sink for ShortOnce {
    ghost written = { λ s. Some s.sink.written };

    ghost failed = { λ s. s.sink.failed };

    fn write(&mut self, bytes: &[u8]) -> Result<usize, Failed> {
        self.sink.write(bytes)
    }

    fn has_failed(&self) -> bool {
        self.sink.has_failed()
    }
}

impl TrySink for ShortOnce {
    ghost takes = { λ _ bytes n _. n ≤ length bytes };

    fn try_write(&mut self, bytes: &[u8]) -> Result<usize, Failed> {
        if self.sink.has_failed() {
            return Err(Failed);
        }
        let is_short = self.tries == self.place;
        self.tries = self.tries.saturating_add(1);
        let most = match self.short {
            _ if !is_short => bytes.len(),
            Short::None => 0,
            Short::One => 1,
            Short::AllButOne => bytes.len().saturating_sub(1),
        };
        let front = bytes.len().min(most);
        self.sink.write(&bytes[..front])
    }
}

/// Each frame is gathered and tried at once, and a reply follows it, which is written with waiting.
fn are_written(sink: &mut Gathering<ShortOnce>) -> bool {
    for frame in FRAMES.chunks_exact(6) {
        let is_written = write_all(sink, frame).is_ok()
            && sink.try_flush().is_ok()
            && write_all(sink, REPLY).is_ok()
            && sink.flush().is_ok();
        if !is_written {
            return false;
        }
    }
    true
}

/// Wherever the sink is short, frames and replies come whole and in order.
#[test]
fn frames_and_replies_come_whole_and_in_order(rt: HostRuntime) -> Result<(), Fail> {
    let alloc = rt.alloc();
    let mut all = Vec::new(alloc);
    for frame in FRAMES.chunks_exact(6) {
        all.extend_from_slice(frame)?;
        all.extend_from_slice(REPLY)?;
    }
    for short in [Short::None, Short::One, Short::AllButOne] {
        for place in 0..3usize {
            let inner = ShortOnce {
                sink: ListSink::new(alloc, 128)?,
                short,
                place,
                tries: 0,
            };
            let mut sink = Gathering::new(inner, vec![in alloc; 0; 32]?);
            assert!(rt; are_written(&mut sink), "{short:?} {place}");
            let inner = sink.into_inner();
            assert_eq!(rt; inner.sink.bytes(), all.as_slice(), "{short:?} {place}");
        }
    }
    Ok(())
}
