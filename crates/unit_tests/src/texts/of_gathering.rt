//! How often a sink is written to, by a whole write and by a sink that gathers.
ghost use Rattle.std.specs.Prelude.{Some};

use interleaved::{Failed, Gathering, ListSink, Sink, write_all};
use std::test::Fail;

/// A frame of two bytes on channel 4.
const FRAME: [u8; 6] = [0x24, 4, 0, 2, 0xaa, 0xbb];

/// A sink in memory that counts the writes that it takes.
#[derive(Drop)]
struct Counting {
    sink: ListSink,
    writes: u32,
}

impl Sink for Counting {
    ghost written = { λ c. Some c.sink.written };

    ghost failed = { λ c. c.sink.failed };

    fn write(&mut self, bytes: &[u8]) -> Result<usize, Failed> {
        let taken = self.sink.write(bytes)?;
        self.writes = self.writes.wrapping_add(1);
        Ok(taken)
    }

    fn has_failed(&self) -> bool {
        self.sink.has_failed()
    }
}

#[test]
fn a_whole_write_is_one_write(rt: HostRuntime) -> Result<(), Fail> {
    let mut sink = Counting {
        sink: ListSink::new(rt.alloc(), 6)?,
        writes: 0,
    };
    assert!(rt; write_all(&mut sink, &FRAME).is_ok() && sink.writes == 1);
    Ok(())
}

/// Whether sixteen frames are written, and flushed.
fn are_written(sink: &mut Gathering<Counting>) -> bool {
    for _ in 0..16 {
        if write_all(sink, &FRAME).is_err() {
            return false;
        }
    }
    sink.flush().is_ok()
}

#[test]
fn sixteen_frames_go_through_in_one_write(rt: HostRuntime) -> Result<(), Fail> {
    // The size of the buffer, and how often the inner sink is written to.
    for (size, writes) in [(96, 1), (100, 1), (95, 2), (32, 3), (6, 16), (0, 16)] {
        let inner = Counting {
            sink: ListSink::new(rt.alloc(), 96)?,
            writes: 0,
        };
        let mut sink = Gathering::new(inner, vec![in rt.alloc(); 0; size]?);
        assert!(rt; are_written(&mut sink));
        assert_eq!(rt; sink.inner().writes, writes, "{size}");
        let bytes = sink.into_inner().sink.into_vec();
        assert!(rt; bytes.as_slice() == FRAME.repeat(rt.alloc(), 16)?.as_slice());
    }
    Ok(())
}
