//! Worked exchanges, byte for byte.
use crate::talk::devices::{Devices, Host, Still, expect_talk, in_pieces, made_host};
use interleaved::{ListSink, ListSource};
use relay_talk::{TalkEnd, do_talk};
use rtsp_message::Fault;
use session_words::FixedWord;
use std::alloc::Global;
use std::process::Abort;
use std::test::Fail;

const OPTIONS: &[u8] = b"OPTIONS * RTSP/1.0\r\nCSeq: 1\r\n\r\n";

const OPTIONS_REPLY: &[u8] =
    b"RTSP/1.0 200 OK\r\nCSeq: 1\r\nPublic: OPTIONS, DESCRIBE, ANNOUNCE, SETUP, PLAY, PAUSE, RECORD, TEARDOWN, GET_PARAMETER\r\n\r\n";

/// Asserts the answer to an input, whatever pieces it comes in.
fn expect_answer(
    rt: &impl Abort,
    host: Host,
    input: &[u8],
    want: &[u8],
    want_end: &TalkEnd,
) -> Result<(), Fail> {
    for piece in [1, 2, 7, 100_000] {
        expect_talk(rt, host, input, in_pieces(piece), want, want_end)?;
    }
    Ok(())
}

#[test]
fn options_in_any_pieces(rt: HostRuntime) -> Result<(), Fail> {
    let host = made_host(&rt, 7)?;
    for piece in 1..40 {
        expect_talk(
            &rt,
            host,
            OPTIONS,
            in_pieces(piece),
            OPTIONS_REPLY,
            &TalkEnd::Done,
        )?;
    }
    Ok(())
}

/// Streams, and what is written for them.
const ANSWERS: [(&[u8], &[u8]); 9] = [
    (b"", b""),
    (b"OPTIONS * RTSP/1.0\r\nCSeq: 1\r\n\r", b""),
    (
        b"OPTIONS * RTSP/1.0\ncseq:7\n\n",
        b"RTSP/1.0 200 OK\r\nCSeq: 7\r\nPublic: OPTIONS, DESCRIBE, ANNOUNCE, SETUP, PLAY, PAUSE, RECORD, TEARDOWN, GET_PARAMETER\r\n\r\n",
    ),
    (
        b"options * RTSP/1.0\ncseq:7\n\n",
        b"RTSP/1.0 501 Not Implemented\r\nCSeq: 7\r\n\r\n",
    ),
    (
        b"x * RTSP/1.0\r\nCSeq: 00003\r\n\r\n",
        b"RTSP/1.0 501 Not Implemented\r\nCSeq: 3\r\n\r\n",
    ),
    (
        b"OPTIONS * RTSP/1.0\r\n\r\n",
        b"RTSP/1.0 400 Bad Request\r\n\r\n",
    ),
    (
        b"OPTIONS * RTSP/1.0\r\nCSeq: 4294967296\r\n\r\n",
        b"RTSP/1.0 400 Bad Request\r\n\r\n",
    ),
    (
        b"OPTIONS * RTSP/2.0\r\nCSeq: 9\r\n\r\n",
        b"RTSP/1.0 505 RTSP Version Not Supported\r\nCSeq: 9\r\n\r\n",
    ),
    // The data of a frame is no message, whatever it looks like; and the beginning of one more.
    (
        b"$\x00\x00\x00\r\nx * RTSP/1.0\nCSeq: 1\n\n$\x01\x00\x16x * RTSP/1.0\nCSeq: 2\n\nx * RTSP/1.0\nContent-Length: 2\nCSeq: 3\n\n$\n$\x00\x00\x01",
        b"RTSP/1.0 501 Not Implemented\r\nCSeq: 1\r\n\r\nRTSP/1.0 501 Not Implemented\r\nCSeq: 3\r\n\r\n",
    ),
];

#[test]
fn answers_byte_for_byte(rt: HostRuntime) -> Result<(), Fail> {
    let host = made_host(&rt, 7)?;
    for (input, want) in &ANSWERS {
        expect_answer(&rt, host, input, want, &TalkEnd::Done)?;
    }
    Ok(())
}

/// Bad beginnings of a message, each with what is written and the fault.
const FAULTS: [(&[u8], &[u8], Fault); 5] = [
    (b"HELLO\r\n", BAD_REQUEST, Fault::BadLine),
    (b" OPTIONS * RTSP/1.0\r\n", BAD_REQUEST, Fault::BadLine),
    (
        b"OPTIONS * RTSP/1.0\r\nCSeq : 1\r\n",
        BAD_REQUEST,
        Fault::BadHeader,
    ),
    (
        b"OPTIONS * RTSP/1.0\r\ncontent-LENGTH: x\r\n",
        BAD_REQUEST,
        Fault::BadLength,
    ),
    (
        b"OPTIONS * RTSP/1.0\r\nContent-Length: 65537\r\n",
        TOO_LARGE,
        Fault::BodyTooLong,
    ),
];

const BAD_REQUEST: &[u8] = b"RTSP/1.0 400 Bad Request\r\n\r\n";

const TOO_LARGE: &[u8] = b"RTSP/1.0 413 Request Entity Too Large\r\n\r\n";

/// Returns one text after another.
fn joined(alloc: Global, first: &[u8], second: &[u8]) -> Result<Vec<u8>, Fail> {
    let mut bytes = Vec::from_slice(alloc, first)?;
    bytes.extend_from_slice(second)?;
    Ok(bytes)
}

/// Asserts that the fault ends the talk, after the answer to what came before it.
fn expect_fault(
    rt: &impl Abort,
    host: Host,
    bad: &[u8],
    reply: &[u8],
    fault: Fault,
) -> Result<(), Fail> {
    let input = joined(host.alloc, OPTIONS, bad)?;
    let want = joined(host.alloc, OPTIONS_REPLY, reply)?;
    let end = TalkEnd::StreamFault(fault);
    expect_answer(rt, host, bad, reply, &end)?;
    expect_answer(rt, host, input.as_slice(), want.as_slice(), &end)
}

#[test]
fn each_fault_alone_and_behind_a_reply(rt: HostRuntime) -> Result<(), Fail> {
    let host = made_host(&rt, 7)?;
    for (bad, reply, fault) in &FAULTS {
        expect_fault(&rt, host, bad, reply, *fault)?;
    }
    Ok(())
}

#[test]
fn a_head_too_long(rt: HostRuntime) -> Result<(), Fail> {
    let many = Vec::from_elem(rt.alloc(), b'A', 8192)?;
    expect_fault(
        &rt,
        made_host(&rt, 7)?,
        many.as_slice(),
        TOO_LARGE,
        Fault::HeadTooLong,
    )
}

/// Returns what a talk reports: the status, the line for standard error and the output.
fn told(host: Host, input: &[u8], devices: Devices) -> Result<String, Fail> {
    let bytes = Vec::from_slice(host.alloc, input)?;
    let source = ListSource::new(bytes, devices.piece.max(1), devices.fail_at);
    let mut sink = ListSink::new(host.alloc, devices.room)?;
    let ended = do_talk(
        host.alloc,
        host.hasher,
        source,
        &mut sink,
        &mut FixedWord(host.word),
        &mut Still,
    )?;
    let output = String::from_utf8_lossy(host.alloc, sink.bytes())?;
    Ok(format!(in host.alloc; "{} {}|{output}", ended.status, ended.line)?)
}

/// Inputs with the place at which the source fails, the sink's room, and what is reported.
const TOLD: [(&[u8], Option<usize>, usize, &str); 4] = [
    (
        b"x * x\nCSeq: 3\n\n",
        None,
        100,
        "0 |RTSP/1.0 505 RTSP Version Not Supported\r\nCSeq: 3\r\n\r\n",
    ),
    (
        b"HELLO\r\n",
        None,
        100,
        "1 relay: stream fault 1|RTSP/1.0 400 Bad Request\r\n\r\n",
    ),
    (OPTIONS, Some(3), 100, "1 relay: read failed|"),
    (OPTIONS, None, 3, "1 relay: write failed|RTS"),
];

#[test]
fn a_talk_ends_with_its_status_and_line(rt: HostRuntime) -> Result<(), Fail> {
    let host = made_host(&rt, 7)?;
    for (input, fail_at, room, want) in &TOLD {
        let devices = Devices {
            piece: 100,
            fail_at: *fail_at,
            room: *room,
        };
        assert!(rt; told(host, input, devices)?.as_str() == *want);
    }
    Ok(())
}
