//! Each answer is written before more is read. No contract states this of the two devices of a talk, so it is tested.
use crate::talk::devices::{Devices, Host, Still, in_pieces, made_host, outcome_of};
use interleaved::{Reading, Writing};
use relay_talk::{TalkEnd, run_talk};
use rtsp_message::Fault;
use session_words::FixedWord;
use std::alloc::Global;
use std::cell::Cell;
use std::io;
use std::io::{Read, Write};
use std::test::Fail;

const OPTIONS: &[u8] = b"OPTIONS * RTSP/1.0\r\nCSeq: 1\r\n\r\n";

/// Two requests in one piece.
const TWO: &[u8] = b"OPTIONS * RTSP/1.0\r\nCSeq: 1\r\n\r\nOPTIONS * RTSP/1.0\r\nCSeq: 1\r\n\r\n";

/// A request and the beginning of the next one, and its rest.
const AND_A_HALF: &[u8] = b"OPTIONS * RTSP/1.0\r\nCSeq: 1\r\n\r\nOPTIONS * RT";

const OTHER_HALF: &[u8] = b"SP/1.0\r\nCSeq: 1\r\n\r\n";

/// What comes in, one piece a read, and how often it was read and written.
#[derive(Drop)]
struct Peer<'a> {
    pieces: &'a [&'a [u8]],
    reads: Cell<usize>,
    writes: Cell<usize>,
    /// A read came while an answer to a piece was due.
    late: Cell<bool>,
}

#[derive(Drop)]
struct Asking<'a> {
    peer: &'a Peer<'a>,
}

impl Read for Asking<'_> {
    fn read(&mut self, buf: &mut [u8]) -> io::Result<usize> {
        let reads = self.peer.reads.get();
        self.peer.reads.set(reads.saturating_add(1));
        if self.peer.writes.get() < reads.min(self.peer.pieces.len()) {
            self.peer.late.set(true);
        }
        match self.peer.pieces.get(reads) {
            Some(piece) if piece.len() <= buf.len() => {
                buf[..piece.len()].copy_from_slice(piece);
                Ok(piece.len())
            }
            _ => Ok(0),
        }
    }
}

/// Takes each answer whole, so that a write is an answer.
#[derive(Drop)]
struct Answered<'a> {
    peer: &'a Peer<'a>,
}

impl Write for Answered<'_> {
    fn write(&mut self, buf: &[u8]) -> io::Result<usize> {
        let writes = self.peer.writes.get();
        self.peer.writes.set(writes.saturating_add(1));
        Ok(buf.len())
    }

    fn flush(&mut self) -> io::Result<()> {
        Ok(())
    }
}

/// What comes in, and how its talk ends and how often it reads then.
struct Row {
    pieces: [&'static [u8]; 3],
    end: TalkEnd,
    reads: usize,
}

const ROWS: [Row; 4] = [
    Row {
        pieces: [OPTIONS, OPTIONS, OPTIONS],
        end: TalkEnd::Done,
        reads: 4,
    },
    // Each answer is a write of its own, and none waits for the rest of another request.
    Row {
        pieces: [TWO, OPTIONS, b""],
        end: TalkEnd::Done,
        reads: 3,
    },
    Row {
        pieces: [AND_A_HALF, OTHER_HALF, OPTIONS],
        end: TalkEnd::Done,
        reads: 4,
    },
    // After a fault nothing is read.
    Row {
        pieces: [OPTIONS, OPTIONS, b"HELLO\r\n"],
        end: TalkEnd::StreamFault(Fault::BadLine),
        reads: 3,
    },
];

/// How a talk over a peer ends.
fn end_over<'a>(host: Host, peer: &'a Peer<'a>) -> TalkEnd {
    let reader = Reading::new(Asking { peer });
    let mut writer = Writing::new(Answered { peer });
    let (end, _reader) = run_talk(
        host.alloc,
        host.hasher,
        reader,
        &mut writer,
        &mut FixedWord(0),
        &mut Still,
    );
    end
}

/// Returns whether each answer of a talk is written before more is read, and the talk ends as it should.
fn answers_in_time(host: Host, row: &Row) -> bool {
    let peer = Peer {
        pieces: row.pieces.as_slice(),
        reads: Cell::new(0),
        writes: Cell::new(0),
        late: Cell::new(false),
    };
    let end = end_over(host, &peer);
    let counts = (peer.reads.get(), peer.writes.get());
    end == row.end && counts == (row.reads, 3) && !peer.late.get()
}

#[test]
fn an_answer_is_written_before_more_is_read(rt: HostRuntime) -> Result<(), Fail> {
    let host = made_host(&rt, 0)?;
    for row in &ROWS {
        assert!(rt; answers_in_time(host, row));
    }
    Ok(())
}

#[test]
fn nothing_is_read_behind_a_failed_write(rt: HostRuntime) -> Result<(), Fail> {
    let devices = Devices {
        room: 0,
        ..in_pieces(OPTIONS.len())
    };
    let outcome = outcome_of(made_host(&rt, 0)?, TWO, devices, &mut FixedWord(0))?;
    assert!(rt; outcome.end == TalkEnd::WriteFailed && outcome.left == OPTIONS.len() as u64);
    Ok(())
}

/// A request of many fields, with a body of 1,000 bytes.
fn long_request(alloc: Global) -> Result<Vec<u8>, Fail> {
    let mut input = Vec::from_slice(
        alloc,
        b"OPTIONS * RTSP/1.0\r\nCSeq: 1\r\nUser-Agent: x\r\nFrom: a\r\nFrom: b\r\nDate: c\r\nContent-Length: 1000\r\n\r\n",
    )?;
    for _ in 0..1000 {
        input.push(b'b')?;
    }
    Ok(input)
}

/// Returns whether a talk ends well, and with an answer to OPTIONS.
fn is_answered<R: Read + Drop>(host: Host, reader: R) -> bool {
    let mut out = Vec::new(host.alloc);
    let mut writer = Writing::new(&mut out);
    let (end, _reader) = run_talk(
        host.alloc,
        host.hasher,
        Reading::new(reader),
        &mut writer,
        &mut FixedWord(0),
        &mut Still,
    );
    end == TalkEnd::Done && out.starts_with(b"RTSP/1.0 200 OK\r\nCSeq: 1\r\nPublic: ")
}

#[test]
fn a_request_of_many_fields_with_a_body(rt: HostRuntime) -> Result<(), Fail> {
    let host = made_host(&rt, 0)?;
    let input = long_request(host.alloc)?;
    assert!(rt; is_answered(host, input.as_slice()));
    Ok(())
}

#[test]
fn options_cut_in_two_at_each_place(rt: HostRuntime) -> Result<(), Fail> {
    let host = made_host(&rt, 0)?;
    for place in 0..OPTIONS.len() {
        let whole = OPTIONS[..place].chain(&OPTIONS[place..]);
        assert!(rt; is_answered(host, whole));
    }
    Ok(())
}
