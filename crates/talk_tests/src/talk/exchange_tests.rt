//! A publisher's connection, byte for byte.
ghost use Rattle.std.specs.Prelude.{◌≡◌};

use crate::talk::devices::{Devices, Host, expect_talk, in_pieces, made_host, outcome_of};
use relay_talk::TalkEnd;
use session_state::Words;
use std::alloc::Global;
use std::process::Abort;
use std::test::Fail;

/// What a publisher sends, and what it reads.
#[derive(Clone, Copy)]
pub(crate) struct Run {
    pub sent: &'static [&'static [u8]],
    pub read: &'static [&'static [u8]],
}

const ANNOUNCE: &[u8] =
    b"ANNOUNCE rtsp://127.0.0.1:8554/cam RTSP/1.0\r\nCSeq: 2\r\nContent-Type: application/sdp\r\nContent-Length: 137\r\n\r\nv=0\r\no=- 0 0 IN IP4 127.0.0.1\r\ns=No Name\r\nc=IN IP4 127.0.0.1\r\nt=0 0\r\nm=video 0 RTP/AVP 96\r\na=rtpmap:96 H264/90000\r\na=control:streamid=0\r\n";

const SETUP: &[u8] =
    b"SETUP rtsp://127.0.0.1:8554/cam/streamid=0 RTSP/1.0\r\nCSeq: 3\r\nTransport: RTP/AVP/TCP;unicast;interleaved=0-1;mode=record\r\n\r\n";

const RECORD: &[u8] =
    b"RECORD rtsp://127.0.0.1:8554/cam RTSP/1.0\r\nCSeq: 4\r\nSession: 000000010000abcd\r\n\r\n";

const DESCRIBE: &[u8] = b"DESCRIBE rtsp://127.0.0.1:8554/cam RTSP/1.0\r\nCSeq: 5\r\n\r\n";

pub(crate) const ANNOUNCED: &[u8] = b"RTSP/1.0 200 OK\r\nCSeq: 2\r\n\r\n";

pub(crate) const IS_SET_UP: &[u8] =
    b"RTSP/1.0 200 OK\r\nCSeq: 3\r\nSession: 000000010000abcd\r\nTransport: RTP/AVP/TCP;unicast;interleaved=0-1;mode=\"RECORD\"\r\n\r\n";

pub(crate) const RECORDS: &[u8] =
    b"RTSP/1.0 200 OK\r\nCSeq: 4\r\nSession: 000000010000abcd\r\n\r\n";

pub(crate) const DESCRIBED: &[u8] =
    b"RTSP/1.0 200 OK\r\nCSeq: 5\r\nContent-Base: rtsp://127.0.0.1:8554/cam/\r\nContent-Type: application/sdp\r\nContent-Length: 149\r\n\r\nv=0\r\no=- 0 0 IN IP4 127.0.0.1\r\ns=No Name\r\nc=IN IP4 127.0.0.1\r\nt=0 0\r\na=control:*\r\nm=video 0 RTP/AVP 96\r\na=rtpmap:96 H264/90000\r\na=control:trackID=0\r\n";

/// A camera sends ANNOUNCE, SETUP, RECORD, and the DESCRIBE of players: message by message, with the answer to each.
pub(crate) const CAMERA: Run = Run {
    sent: &[ANNOUNCE, SETUP, RECORD, DESCRIBE],
    read: &[ANNOUNCED, IS_SET_UP, RECORDS, DESCRIBED],
};

const RUNS: [Run; 4] = [
    CAMERA,
    Run {
        sent: &[
            b"ANNOUNCE rtsp://127.0.0.1:8554/cam RTSP/1.0\r\nCSeq: 2\r\nContent-Type: application/sdp\r\nContent-Length: 179\r\n\r\n",
            b"v=0\r\no=- 0 0 IN IP4 127.0.0.1\r\ns=No Name\r\nc=IN IP4 127.0.0.1\r\nt=0 0\r\na=tool:x\r\nm=video 0 RTP/AVP 96\r\na=rtpmap:96 H264/90000\r\na=fmtp:96 packetization-mode=1\r\na=control:streamid=0\r\n",
            SETUP,
            b"RECORD rtsp://127.0.0.1:8554/cam RTSP/1.0\r\nCSeq: 4\r\nSession: 000000010000abcd\r\nRange: npt=0.000-\r\n\r\n",
            DESCRIBE,
        ],
        read: &[
            ANNOUNCED,
            IS_SET_UP,
            RECORDS,
            b"RTSP/1.0 200 OK\r\nCSeq: 5\r\nContent-Base: rtsp://127.0.0.1:8554/cam/\r\nContent-Type: application/sdp\r\nContent-Length: 191\r\n\r\n",
            b"v=0\r\no=- 0 0 IN IP4 127.0.0.1\r\ns=No Name\r\nc=IN IP4 127.0.0.1\r\nt=0 0\r\na=tool:x\r\na=control:*\r\nm=video 0 RTP/AVP 96\r\na=rtpmap:96 H264/90000\r\na=fmtp:96 packetization-mode=1\r\na=control:trackID=0\r\n",
        ],
    },
    // A mount ends with its owner's TEARDOWN, and may be announced again.
    Run {
        sent: &[
            b"ANNOUNCE rtsp://h/a RTSP/1.0\nCSeq: 1\nContent-Length: 26\n\nv=0\nm=audio 0 RTP/AVP 0  \n",
            b"ANNOUNCE rtsp://h/b RTSP/1.0\nCSeq: 2\nContent-Length: 26\n\nv=0\nm=audio 0 RTP/AVP 0  \n",
            b"SETUP rtsp://h/a/trackID=0 RTSP/1.0\nCSeq: 3\nTransport: RTP/AVP/TCP;mode=record\n\n",
            b"$\x00\x00\x01xPLAY rtsp://h/a RTSP/1.0\nCSeq: 4\nSession: 000000010000abcd\n\n",
            b"TEARDOWN rtsp://h/a RTSP/1.0\nCSeq: 5\nSession: 000000010000abcd\n\n",
            b"ANNOUNCE rtsp://h/a RTSP/1.0\nCSeq: 6\nContent-Length: 26\n\nv=0\nm=audio 0 RTP/AVP 0  \n",
        ],
        read: &[
            b"RTSP/1.0 200 OK\r\nCSeq: 1\r\n\r\n",
            b"RTSP/1.0 403 Forbidden\r\nCSeq: 2\r\n\r\n",
            b"RTSP/1.0 200 OK\r\nCSeq: 3\r\nSession: 000000010000abcd\r\nTransport: RTP/AVP/TCP;unicast;interleaved=0-1;mode=\"RECORD\"\r\n\r\n",
            b"RTSP/1.0 403 Forbidden\r\nCSeq: 4\r\nSession: 000000010000abcd\r\n\r\n",
            b"RTSP/1.0 200 OK\r\nCSeq: 5\r\nSession: 000000010000abcd\r\n\r\n",
            b"RTSP/1.0 200 OK\r\nCSeq: 6\r\n\r\n",
        ],
    },
    Run {
        sent: &[
            b"DESCRIBE rtsp://h/a RTSP/1.0\nCSeq: 1\n\n",
            b"PLAY rtsp://h/a RTSP/1.0\nCSeq: 2\n\n",
        ],
        read: &[
            b"RTSP/1.0 404 Not Found\r\nCSeq: 1\r\n\r\n",
            b"RTSP/1.0 454 Session Not Found\r\nCSeq: 2\r\n\r\n",
        ],
    },
];

/// Asserts that a publisher's talk writes the replies of the run, with reads of at most `piece` bytes.
fn expect_run(rt: &impl Abort, host: Host, run: &Run, piece: usize) -> Result<(), Fail> {
    let sent = run.sent.concat(host.alloc)?;
    let read = run.read.concat(host.alloc)?;
    expect_talk(rt, host, &sent, in_pieces(piece), &read, &TalkEnd::Done)
}

#[test]
fn publishers_are_answered_byte_for_byte(rt: HostRuntime) -> Result<(), Fail> {
    let host = made_host(&rt, 0xabcd)?;
    for run in &RUNS {
        for piece in &[1, 50, 100_000] {
            expect_run(&rt, host, run, *piece)?;
        }
    }
    Ok(())
}

/// Returns the answers to all messages of a run that are whole before this place.
fn answered_before(alloc: Global, run: &Run, place: usize) -> Result<Vec<u8>, Fail> {
    let mut answers = Vec::new(alloc);
    let mut whole = 0usize;
    for (message, answer) in run.sent.iter().zip(run.read) {
        whole = whole.saturating_add(message.len());
        if whole <= place {
            answers.extend_from_slice(answer)?;
        }
    }
    Ok(answers)
}

#[test]
fn a_cameras_source_fails_at_each_place(rt: HostRuntime) -> Result<(), Fail> {
    let host = made_host(&rt, 0xabcd)?;
    let sent = CAMERA.sent.concat(host.alloc)?;
    for place in 0..sent.len() + 1 {
        let want = answered_before(host.alloc, &CAMERA, place)?;
        let devices = Devices {
            fail_at: Some(place),
            ..in_pieces(50)
        };
        expect_talk(&rt, host, &sent, devices, &want, &TalkEnd::ReadFailed)?;
    }
    Ok(())
}

#[test]
fn a_cameras_sink_of_each_room(rt: HostRuntime) -> Result<(), Fail> {
    let host = made_host(&rt, 0xabcd)?;
    let sent = CAMERA.sent.concat(host.alloc)?;
    let read = CAMERA.read.concat(host.alloc)?;
    for room in 0..read.len() {
        let devices = Devices {
            room,
            ..in_pieces(100_000)
        };
        let want = &read.as_slice()[..room];
        expect_talk(&rt, host, &sent, devices, want, &TalkEnd::WriteFailed)?;
    }
    Ok(())
}

/// Returns the words from this one on.
#[derive(Drop)]
struct CountedWords(u32);

impl Words for CountedWords {
    ghost gives = { λ old word new. word ≡ old.0 };

    fn word(&mut self) -> u32 {
        let word = self.0;
        self.0 = word.wrapping_add(1);
        word
    }
}

/// Two requests come at once, and the answer to the first can't be written.
#[test]
fn no_word_is_asked_for_behind_a_failed_write(rt: HostRuntime) -> Result<(), Fail> {
    let input = b"OPTIONS * RTSP/1.0\nCSeq: 1\n\nOPTIONS * RTSP/1.0\nCSeq: 2\n\n";
    let devices = Devices {
        room: 3,
        ..in_pieces(100)
    };
    let mut words = CountedWords(10);
    let outcome = outcome_of(made_host(&rt, 0)?, input, devices, &mut words)?;
    assert!(rt; outcome.end == TalkEnd::WriteFailed && words.0 == 11);
    Ok(())
}

/// More requests than a reader holds at a time.
const MANY: usize = 2000;

#[test]
fn many_requests_of_one_talk(rt: HostRuntime) -> Result<(), Fail> {
    let host = made_host(&rt, 10)?;
    let input = b"GET_PARAMETER * RTSP/1.0\nCSeq: 1\n\n".repeat(host.alloc, MANY)?;
    let want = b"RTSP/1.0 200 OK\r\nCSeq: 1\r\n\r\n".repeat(host.alloc, MANY)?;
    expect_talk(&rt, host, &input, in_pieces(5000), &want, &TalkEnd::Done)
}
