//! When an intake reads: a source that counts its reads. How much room a reader takes, how often it looks at bytes, and
//! a piece that is fed again.
use interleaved::{Failed, ListSource, Source};
use rtsp_message::{Intake, Reader};
use std::alloc::Global;
use std::cell::Cell;
use std::test::Fail;

/// A source that counts its reads, and gives at most `first` bytes in the first of them.
#[derive(Drop)]
struct Observed<'a, S> {
    inner: S,
    first: usize,
    reads: &'a Cell<usize>,
}

impl<'a, S: Source> Source for Observed<'a, S> {
    ghost incoming = { λ s. S.incoming s.inner };

    ghost bound = { λ s. S.bound s.inner };

    ghost failed = { λ s. S.failed s.inner };

    ghost gives = { λ old bytes new. S.gives old.inner bytes new.inner };

    fn read(&mut self, buf: &mut [u8]) -> Result<usize, Failed> {
        let reads = self.reads.get();
        self.reads.set(reads.saturating_add(1));
        if reads > 0 || self.first == 0 {
            return self.inner.read(buf);
        }
        let most = buf.len().min(self.first);
        self.inner.read(&mut buf[..most])
    }

    fn left(&self) -> u64 {
        self.inner.left()
    }

    fn has_failed(&self) -> bool {
        self.inner.has_failed()
    }
}

/// An intake of these bytes, at most `piece` of them a read and `first` in the first.
fn watching<'a>(
    alloc: Global,
    bytes: &[u8],
    first: usize,
    piece: usize,
    reads: &'a Cell<usize>,
) -> Result<Intake<Observed<'a, ListSource>>, Fail> {
    let inner = ListSource::new(Vec::from_slice(alloc, bytes)?, piece.max(1), None);
    Ok(Intake::new(
        alloc,
        Observed {
            inner,
            first,
            reads,
        },
    ))
}

/// A message, a frame, a message, and a pad.
const UNITS: &[u8] =
    b"OPTIONS * RTSP/1.0\r\nCSeq: 1\r\n\r\n$\x02\x00\x03abcPLAY * RTSP/1.0\r\nCSeq: 2\r\n\r\n\r\n";

/// Returns how many pieces of `size` bytes have `bytes` bytes.
fn pieces_of(size: usize, bytes: usize) -> usize {
    bytes.div_ceil(size.max(1))
}

/// Returns how often the source was read when each of `calls` calls had returned.
fn counted<S: Source + Drop>(
    alloc: Global,
    intake: &mut Intake<S>,
    reads: &Cell<usize>,
    calls: usize,
) -> Result<Vec<usize>, Fail> {
    let mut counts = Vec::new(alloc);
    for _ in 0..calls {
        let _ = intake.next();
        counts.push(reads.get())?;
    }
    Ok(counts)
}

/// Returns how often the source was read when each of `calls` calls had returned. It gives at most `first` bytes in the
/// first read, and `piece` in each later one.
fn reads_by_call(
    alloc: Global,
    bytes: &[u8],
    (first, piece): (usize, usize),
    calls: usize,
) -> Result<Vec<usize>, Fail> {
    let reads = Cell::new(0);
    let mut intake = watching(alloc, bytes, first, piece, &reads)?;
    counted(alloc, &mut intake, &reads, calls)
}

#[test]
fn no_read_while_a_unit_is_at_hand(rt: HostRuntime) -> Result<(), Fail> {
    for piece in 1..70 {
        let all = pieces_of(piece, 68).saturating_add(1);
        // The units end at 31, 38 and 66, and the stream at 68. The last read finds the end.
        let want = [
            pieces_of(piece, 31),
            pieces_of(piece, 38),
            pieces_of(piece, 66),
            all,
            all,
        ];
        let counts = reads_by_call(rt.alloc(), UNITS, (piece, piece), 5)?;
        assert_eq!(rt; counts.as_slice(), want.as_slice());
    }
    Ok(())
}

#[test]
fn no_read_behind_a_fault(rt: HostRuntime) -> Result<(), Fail> {
    for piece in 1..24 {
        let want = [pieces_of(piece, 12), pieces_of(piece, 12)];
        let counts = reads_by_call(rt.alloc(), b"A B C\nX : 1\n and more", (piece, piece), 2)?;
        assert_eq!(rt; counts.as_slice(), want.as_slice());
    }
    Ok(())
}

/// OPTIONS as a client sends it first.
const OPTIONS: &[u8] = b"OPTIONS * RTSP/1.0\r\nCSeq: 1\r\n\r\n";

#[test]
fn a_request_in_two_reads(rt: HostRuntime) -> Result<(), Fail> {
    for place in 1..OPTIONS.len() {
        let counts = reads_by_call(rt.alloc(), OPTIONS, (place, 1000), 1)?;
        assert_eq!(rt; counts.as_slice(), [2].as_slice());
    }
    Ok(())
}

/// Returns the reader's room after a piece of this number of pads and these bytes.
fn room_after(alloc: Global, pads: usize, end: &[u8]) -> Result<usize, Fail> {
    let mut piece = Vec::from_elem(alloc, b'\n', pads)?;
    piece.extend_from_slice(end)?;
    let mut reader = Reader::new(alloc);
    let _ = reader.feed(piece.as_slice())?;
    Ok(reader.room())
}

#[test]
fn a_reader_holds_no_more_than_waits(rt: HostRuntime) -> Result<(), Fail> {
    let rows = [
        (4_000_000, b"OPT".as_slice(), 3),
        (4_000_000, b"$\x00\x00\x00", 0),
        (4_000_000, b"OPT\nIONS", 0),
        (0, OPTIONS, 0),
        (0, b"OPTIONS * RTSP/1.0\r\nCS", 22),
    ];
    for (pads, end, want) in rows {
        assert_eq!(rt; room_after(rt.alloc(), pads, end)?, want);
    }
    Ok(())
}

/// A reader that was fed these bytes one by one.
fn fed_one_by_one(alloc: Global, bytes: &[u8]) -> Result<Reader, Fail> {
    let mut reader = Reader::new(alloc);
    for byte in bytes {
        let _ = reader.feed(&[*byte])?;
    }
    Ok(reader)
}

#[test]
fn bytes_one_by_one_are_looked_at_a_few_times(rt: HostRuntime) -> Result<(), Fail> {
    let mut frame = Vec::from_slice(rt.alloc(), b"$\x00\xff\xff")?;
    frame.extend_from_slice(&Vec::from_elem(rt.alloc(), b'x', 65_535)?)?;
    let line = Vec::from_elem(rt.alloc(), b'A', 8_191)?;
    // The four bytes of a frame's head; a first byte, and each byte in search of an LF.
    let rows: [(&[u8], u64); 2] = [(frame.as_slice(), 4), (line.as_slice(), 1 + 8_191)];
    for (bytes, looked) in rows {
        let reader = fed_one_by_one(rt.alloc(), bytes)?;
        assert_eq!(rt;
            (reader.looked(), reader.fed()),
            (looked, bytes.len() as u64)
        );
    }
    Ok(())
}

/// Returns the numbers of a reader.
fn told_by(reader: &Reader) -> (usize, usize, u64, u64) {
    (
        reader.waiting(),
        reader.room(),
        reader.looked(),
        reader.fed(),
    )
}

/// Returns how many units a piece brings, which is fed once more if memory is refused. `None` if the refusal changed
/// the reader's numbers.
fn units_at_last(reader: &mut Reader, piece: &[u8]) -> Result<Option<usize>, Fail> {
    let before = told_by(reader);
    if let Ok(fed) = reader.feed(piece) {
        return Ok(Some(fed.units.len()));
    }
    if told_by(reader) != before {
        return Ok(None);
    }
    Ok(Some(reader.feed(piece)?.units.len()))
}

#[test]
fn a_refused_piece_may_be_fed_again(rt: HostRuntime) -> Result<(), Fail> {
    let mut reader = Reader::new(rt.alloc());
    let mut last = None;
    for piece in OPTIONS.chunks(5) {
        last = units_at_last(&mut reader, piece)?;
        assert!(rt; last.is_some());
    }
    assert!(rt; last == Some(1));
    // A first byte, each byte in search of an LF, three lines without theirs, and the whole head once more.
    assert_eq!(rt; (reader.looked(), reader.fed()), (1 + 31 + 28 + 31, 31));
    Ok(())
}
