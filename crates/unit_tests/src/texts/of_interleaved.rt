//! Readers and writers of std that fail, and frames by their bytes.
use interleaved::{
    FrameAt, PutFault, Reading, Sink, Source, WriteCut, Writing, frame_at, put_frame, write_all,
};
use std::alloc::Global;
use std::io;
use std::io::{Read, Write};
use std::test::Fail;

/// Gives one byte, then errors once, then would give bytes again. As a writer it takes nothing.
#[derive(Drop)]
struct Broken {
    calls: usize,
}

impl Read for Broken {
    fn read(&mut self, buf: &mut [u8]) -> io::Result<usize> {
        self.calls = self.calls.saturating_add(1);
        match buf {
            [first, ..] if self.calls != 2 => {
                *first = b'x';
                Ok(1)
            }
            _ => Err(io::Error::other("broken")),
        }
    }
}

impl Write for Broken {
    fn write(&mut self, _buf: &[u8]) -> io::Result<usize> {
        self.calls = self.calls.saturating_add(1);
        if self.calls < 2 {
            Ok(0)
        } else {
            Err(io::Error::other("broken"))
        }
    }

    fn flush(&mut self) -> io::Result<()> {
        Ok(())
    }
}

#[test]
fn a_broken_source_stays_failed(rt: HostRuntime) {
    let mut source = Reading::new(Broken { calls: 0 });
    assert_eq!(rt; source.read(&mut [0; 3]), Ok(1));
    assert!(rt; source.read(&mut [0; 3]).is_err() && source.has_failed());
    assert!(rt; source.read(&mut [0; 2]).is_err() && source.has_failed());
    assert_eq!(rt; source.into_inner().calls, 2);
}

#[test]
fn a_std_writer_is_a_sink(rt: HostRuntime) {
    let mut sink = Writing::new(Vec::new(rt.alloc()));
    assert_eq!(rt; write_all(&mut sink, b"OPTIO"), Ok(()));
    assert_eq!(rt; (sink.write(b""), sink.has_failed()), (Ok(0), false));
    assert_eq!(rt; sink.into_inner().as_slice(), b"OPTIO".as_slice());
}

#[test]
fn a_broken_sink_stays_failed(rt: HostRuntime) {
    let mut sink = Writing::new(Broken { calls: 0 });
    assert_eq!(rt;
        write_all(&mut sink, b"OPTIO"),
        Err(WriteCut { written: 0 })
    );
    assert!(rt; sink.write(b"x").is_err() && sink.has_failed());
    assert_eq!(rt; sink.into_inner().calls, 1);
}

/// Returns what is at the front of the bytes, if a frame may begin there.
fn at(bytes: &[u8]) -> Option<FrameAt> {
    match bytes {
        [] | [0x24, ..] => Some(frame_at(bytes)),
        _ => None,
    }
}

#[test]
fn a_frame_by_its_bytes(rt: HostRuntime) -> Result<(), Fail> {
    let mut out = Vec::from_slice(rt.alloc(), b"x")?;
    put_frame(&mut out, 2, &[0xaa, 0xbb])?;
    assert_eq!(rt;
        out.as_slice(),
        [b'x', 0x24, 2, 0, 2, 0xaa, 0xbb].as_slice()
    );
    Ok(())
}

/// Returns the result of putting `len` bytes of data, the length of the frame, and what is at its front.
fn put(alloc: Global, len: usize) -> Result<(Result<(), PutFault>, usize, Option<FrameAt>), Fail> {
    let data = Vec::from_elem(alloc, 0x5a, len)?;
    let mut out = Vec::new(alloc);
    let done = put_frame(&mut out, 0, &data);
    let whole = at(&out);
    Ok((done, out.len(), whole))
}

#[test]
fn the_largest_frame(rt: HostRuntime) -> Result<(), Fail> {
    let largest = put(rt.alloc(), 65_535)?;
    assert_eq!(rt; largest, (Ok(()), 65_539, Some(FrameAt::Whole(65_539))));
    let longer = put(rt.alloc(), 65_536)?;
    assert_eq!(rt;
        longer,
        (Err(PutFault::TooLong), 0, Some(FrameAt::NeedMore))
    );
    Ok(())
}
