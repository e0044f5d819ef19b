//! A connection over devices in memory.
use crate::devices::joined;
use crate::moments::Still;
use crate::rings::Rings;
use crate::serving::{book_of, line_to, sent_on, shared_over};
use crate::words::OneWord;
use admission::Rights;
use interleaved::ListSource;
use relay_accounts::{ConnectionEnd, Counts};
use relay_connection::{ConnectionClock, run_connection};
use relay_log::Events;
use rtsp_message::Fault;
use std::alloc::Global;
use std::process::Abort;
use std::random::RandomSource;
use std::sync::{Arc, Mutex, Wait};
use std::thread::Threads;
use std::time::Clock;

/// A connection that is to be served, the first of its book.
#[derive(Drop)]
struct Peer {
    said: Vec<u8>,
    /// Whether the read after all that is sent fails; else it is the end.
    read_fails: bool,
    /// How many bytes may be written.
    room: usize,
    /// Which ring is refused memory, counted from 0.
    refused: Option<u64>,
}

/// What became of it.
#[derive(Drop)]
struct Served {
    end: ConnectionEnd,
    counts: Counts,
    written: Vec<u8>,
    /// How many calls its book keeps.
    kept: usize,
    is_open: bool,
}

/// Serves a connection over a ring of one seat that keeps four packets of at most 16 bytes.
fn serve<R>(rt: R, alloc: Global, peer: Peer) -> Served
where
    R: Threads + Wait + Clock + RandomSource + Abort + Copy + Drop + Send + 'static,
{
    let book = book_of(&rt, alloc, 1, 1);
    let theirs = Arc::try_clone(&book).expect(&rt, "a count of its users");
    let refused = peer
        .refused
        .map_or(0..0, |number| number..number.saturating_add(1));
    let rings = Rings::refusing(&rt, alloc, refused);
    let shared = shared_over(&rt, alloc, theirs, rings, OneWord);
    let bytes = Arc::new(alloc, Mutex::new(Vec::new(alloc))).expect(&rt, "memory");
    let line = line_to(rt, alloc, &bytes, peer.room);
    let fail_at = if peer.read_fails {
        Some(peer.said.len())
    } else {
        None
    };
    let source = ListSource::new(peer.said, 7, fail_at);
    let connection_clock = ConnectionClock::new(alloc, Still).expect(&rt, "memory");
    let outcome = run_connection(
        rt,
        alloc,
        shared,
        1,
        source,
        sent_on(line),
        Events::none(),
        connection_clock,
        Rights::all(),
    );
    let written = Vec::from_slice(alloc, bytes.lock(&rt).as_slice()).expect(&rt, "memory");
    let book = book.lock(&rt);
    Served {
        end: outcome.end,
        counts: outcome.counts,
        written,
        kept: book.kept(),
        is_open: book.is_open(1),
    }
}

/// A publisher's connection. A frame before it records is a stranger. Then come one that is published, one that is too
/// short for RTP, one on a channel of no track, and one that is too long for the ring. After it pauses one more comes.
const INPUT: &[u8] =
    b"ANNOUNCE rtsp://h/a RTSP/1.0\nCSeq: 1\nContent-Length: 26\n\nv=0\nm=audio 0 RTP/AVP 0  \nSETUP rtsp://h/a/trackID=0 RTSP/1.0\nCSeq: 2\nTransport: RTP/AVP/TCP;interleaved=0-1;mode=record\n\n$\x00\x00\x01\x80RECORD rtsp://h/a RTSP/1.0\nCSeq: 3\nSession: 000000010000abcd\n\n$\x00\x00\x0c\x80\x60\x00\x07\x00\x00\x23\x28\x00\x00\x00\x00$\x00\x00\x02\x80\x60$\x07\x00\x01\x80$\x01\x00\x11aaaaaaaaaaaaaaaaaPAUSE rtsp://h/a RTSP/1.0\nCSeq: 4\nSession: 000000010000abcd\n\n$\x00\x00\x0c\x80\x60\x00\x07\x00\x00\x23\x28\x00\x00\x00\x00";

#[test]
fn each_frame_of_a_connection_is_counted(rt: HostRuntime) {
    let alloc = rt.alloc();
    let peer = Peer {
        said: Vec::from_slice(alloc, INPUT).expect(&rt, "memory"),
        read_fails: false,
        room: 1000,
        refused: None,
    };
    let served = serve(rt, alloc, peer);
    assert!(rt; served.end == ConnectionEnd::Done);
    let want = Counts {
        published: 1,
        pinned: 0,
        oversize: 1,
        bad_rtp: 1,
        unknown_channel: 1,
        unkept: 0,
        strangers: 2,
        sent: 0,
        skipped: 0,
        lost: 0,
        unsent: 0,
        slowed: 0,
        missing: 0,
    };
    assert!(rt; served.counts == want && served.counts.has_losses());
    // Its coming, four requests and its hang-up.
    assert!(rt; served.kept == 6);
}

pub(crate) const ANNOUNCE: &[u8] =
    b"ANNOUNCE rtsp://h/a RTSP/1.0\nCSeq: 1\nContent-Length: 26\n\nv=0\nm=audio 0 RTP/AVP 0  \n";

/// An ANNOUNCE of another mount.
pub(crate) const OTHER: &[u8] =
    b"ANNOUNCE rtsp://h/b RTSP/1.0\nCSeq: 1\nContent-Length: 26\n\nv=0\nm=audio 0 RTP/AVP 0  \n";

pub(crate) const ANNOUNCED: &[u8] = b"RTSP/1.0 200 OK\r\nCSeq: 1\r\n\r\n";

pub(crate) const NO_RING: &[u8] = b"RTSP/1.0 503 Service Unavailable\r\nCSeq: 1\r\n\r\n";

pub(crate) const SETUP: &[u8] =
    b"SETUP rtsp://h/a/trackID=0 RTSP/1.0\nCSeq: 2\nTransport: RTP/AVP/TCP;interleaved=0-1;mode=record\n\n";

pub(crate) const SET_UP: &[u8] =
    b"RTSP/1.0 200 OK\r\nCSeq: 2\r\nSession: 000000010000abcd\r\nTransport: RTP/AVP/TCP;unicast;interleaved=0-1;mode=\"RECORD\"\r\n\r\n";

pub(crate) const RECORD: &[u8] =
    b"RECORD rtsp://h/a RTSP/1.0\nCSeq: 3\nSession: 000000010000abcd\n\n";

pub(crate) const PAUSE: &[u8] =
    b"PAUSE rtsp://h/a RTSP/1.0\nCSeq: 4\nSession: 000000010000abcd\n\n";

pub(crate) const TEARDOWN: &[u8] =
    b"TEARDOWN rtsp://h/a RTSP/1.0\nCSeq: 3\nSession: 000000010000abcd\n\n";

pub(crate) const IN_SESSION: &[u8] =
    b"RTSP/1.0 200 OK\r\nCSeq: 3\r\nSession: 000000010000abcd\r\n\r\n";

/// A frame without data.
const FRAME: &[u8] = b"$\x00\x00\x00";

/// What the peer sends, what is replied, and how the connection ends.
#[derive(Clone, Copy)]
struct Row {
    said: &'static [&'static [u8]],
    read_fails: bool,
    answered: &'static [&'static [u8]],
    write_fails: bool,
    refused: Option<u64>,
    end: ConnectionEnd,
    strangers: u64,
}

const ROWS: [Row; 11] = [
    // Frames before any SETUP, and the end in the middle of one.
    Row {
        said: &[FRAME, FRAME, FRAME, b"$\x00\x00\x0c\x80\x60"],
        read_fails: false,
        answered: &[],
        write_fails: false,
        refused: None,
        end: ConnectionEnd::Done,
        strangers: 3,
    },
    // The end in the middle of a head, and of a body.
    Row {
        said: &[b"OPTIONS * RTSP/1.0\nCSeq: 1\n"],
        read_fails: false,
        answered: &[],
        write_fails: false,
        refused: None,
        end: ConnectionEnd::Done,
        strangers: 0,
    },
    Row {
        said: &[b"OPTIONS * RTSP/1.0\nCSeq: 1\nContent-Length: 2\n\na"],
        read_fails: false,
        answered: &[],
        write_fails: false,
        refused: None,
        end: ConnectionEnd::Done,
        strangers: 0,
    },
    // A failed read after a frame and a request.
    Row {
        said: &[FRAME, ANNOUNCE],
        read_fails: true,
        answered: &[ANNOUNCED],
        write_fails: false,
        refused: None,
        end: ConnectionEnd::ReadFailed,
        strangers: 1,
    },
    // A line that is no request, after one that is.
    Row {
        said: &[ANNOUNCE, b"HELLO\n", FRAME],
        read_fails: false,
        answered: &[ANNOUNCED, b"RTSP/1.0 400 Bad Request\r\n\r\n"],
        write_fails: false,
        refused: None,
        end: ConnectionEnd::StreamFault(Fault::BadLine),
        strangers: 0,
    },
    // If a ring is refused memory, the reply is 503, and the next ring is made.
    Row {
        said: &[ANNOUNCE, ANNOUNCE, SETUP],
        read_fails: false,
        answered: &[NO_RING, ANNOUNCED, SET_UP],
        write_fails: false,
        refused: Some(0),
        end: ConnectionEnd::Done,
        strangers: 0,
    },
    // After a 503 the session is known as before: it records, and a frame on its channel is no stranger.
    Row {
        said: &[ANNOUNCE, SETUP, RECORD, OTHER, b"$\x01\x00\x00"],
        read_fails: false,
        answered: &[ANNOUNCED, SET_UP, IN_SESSION, NO_RING],
        write_fails: false,
        refused: Some(1),
        end: ConnectionEnd::Done,
        strangers: 0,
    },
    // A reply that can't be written, to a PAUSE and to a TEARDOWN.
    Row {
        said: &[ANNOUNCE, SETUP, RECORD, PAUSE],
        read_fails: false,
        answered: &[ANNOUNCED, SET_UP, IN_SESSION],
        write_fails: true,
        refused: None,
        end: ConnectionEnd::WriteFailed,
        strangers: 0,
    },
    Row {
        said: &[ANNOUNCE, SETUP, TEARDOWN],
        read_fails: false,
        answered: &[ANNOUNCED, SET_UP],
        write_fails: true,
        refused: None,
        end: ConnectionEnd::Done,
        strangers: 0,
    },
    // A failed read after a TEARDOWN's reply is an end like any other.
    Row {
        said: &[ANNOUNCE, SETUP, TEARDOWN],
        read_fails: true,
        answered: &[ANNOUNCED, SET_UP, IN_SESSION],
        write_fails: false,
        refused: None,
        end: ConnectionEnd::Done,
        strangers: 0,
    },
    // A failed read after a request that follows a TEARDOWN is a failure, whatever the reply to that request.
    Row {
        said: &[ANNOUNCE, SETUP, TEARDOWN, ANNOUNCE],
        read_fails: true,
        answered: &[ANNOUNCED, SET_UP, IN_SESSION, NO_RING],
        write_fails: false,
        refused: Some(1),
        end: ConnectionEnd::ReadFailed,
        strangers: 0,
    },
];

/// Asserts that a row's connection gets the row's replies and has the row's end.
fn row_holds<R>(rt: R, alloc: Global, place: usize, row: &Row)
where
    R: Threads + Wait + Clock + RandomSource + Abort + Copy + Drop + Send + 'static,
{
    let answered = joined(&rt, alloc, row.answered);
    let peer = Peer {
        said: joined(&rt, alloc, row.said),
        read_fails: row.read_fails,
        room: if row.write_fails {
            answered.len()
        } else {
            1000
        },
        refused: row.refused,
    };
    let served = serve(rt, alloc, peer);
    assert!(rt;
        served.written.as_slice() == answered.as_slice(),
        "row {place}: {}",
        served.written.as_slice().escape_ascii()
    );
    assert!(rt; served.end == row.end, "row {place}: {}", served.end);
    assert!(rt; served.counts.strangers == row.strangers, "row {place}");
    assert!(rt; !served.is_open, "row {place}");
}

#[test]
fn connections_end_as_their_peers_do(rt: HostRuntime) {
    for (place, row) in ROWS.iter().enumerate() {
        row_holds(rt, rt.alloc(), place, row);
    }
}
