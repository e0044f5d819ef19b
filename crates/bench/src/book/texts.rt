//! Requests whose bytes no compiler knows.
use anyhow::{Result, bail};
use rtsp_message::{Reader, Request, Unit};
use std::alloc::{AllocError, Global};

/// The lines that make a description one of 10 KB.
const LINES: u32 = 130;

/// The front of a description, with two tracks.
const FRONT: &[u8] =
    b"v=0\r\no=- 1 1 IN IP4 127.0.0.1\r\ns=bench\r\nt=0 0\r\nm=audio 0 RTP/AVP 97\r\na=rtpmap:97 mpeg4-generic/48000/2\r\na=control:trackID=1\r\nm=video 0 RTP/AVP 96\r\na=rtpmap:96 H264/90000\r\na=control:trackID=0\r\n";

/// A request of OPTIONS.
pub fn options(alloc: Global, seed: u64) -> Result<Request> {
    let mut text = Vec::new(alloc);
    text.extend_from_slice(b"OPTIONS * RTSP/1.0\r\nCSeq: ")?;
    put_number(&mut text, seed)?;
    text.extend_from_slice(b"\r\nUser-Agent: bench\r\n\r\n")?;
    read(alloc, &text)
}

/// A DESCRIBE of about 150 bytes.
pub fn describe(alloc: Global, seed: u64) -> Result<Request> {
    let mut text = Vec::new(alloc);
    text.extend_from_slice(b"DESCRIBE rtsp://127.0.0.1:8554/kept RTSP/1.0\r\nCSeq: ")?;
    put_number(&mut text, seed)?;
    text.extend_from_slice(
        b"\r\nUser-Agent: Lavf59.27.100 (bench)\r\nAccept: application/sdp\r\n\r\n",
    )?;
    read(alloc, &text)
}

/// An ANNOUNCE of a mount, with a description of 300 bytes or of 10 KB.
pub fn announce(alloc: Global, mount: &[u8], long: bool, seed: u64) -> Result<Request> {
    let body = description(alloc, if long { LINES } else { 0 }, seed)?;
    let mut text = Vec::new(alloc);
    put_announce(&mut text, mount, &body, seed)?;
    read(alloc, &text)
}

fn put_announce(
    text: &mut Vec<u8>,
    mount: &[u8],
    body: &[u8],
    seed: u64,
) -> std::result::Result<(), AllocError> {
    text.extend_from_slice(b"ANNOUNCE rtsp://127.0.0.1:8554/")?;
    text.extend_from_slice(mount)?;
    text.extend_from_slice(b" RTSP/1.0\r\nCSeq: ")?;
    put_number(text, seed)?;
    text.extend_from_slice(b"\r\nContent-Type: application/sdp\r\nContent-Length: ")?;
    put_number(text, body.len() as u64)?;
    text.extend_from_slice(b"\r\n\r\n")?;
    text.extend_from_slice(body)
}

/// A description with so many lines after its front.
fn description(alloc: Global, lines: u32, seed: u64) -> Result<Vec<u8>> {
    let mut text = Vec::new(alloc);
    text.extend_from_slice(FRONT)?;
    let mut word = seed;
    for _ in 0..lines {
        word = word
            .wrapping_mul(6_364_136_223_846_793_005)
            .wrapping_add(1_442_695_040_888_963_407);
        text.extend_from_slice(b"a=fmtp:96 packetization-mode=1;profile-level-id=64001f;x=")?;
        put_number(&mut text, word >> 32)?;
        text.extend_from_slice(b"\r\n")?;
    }
    Ok(text)
}

/// A number, in decimal digits.
fn put_number(text: &mut Vec<u8>, number: u64) -> std::result::Result<(), AllocError> {
    let mut digits = itoa::Buffer::new();
    text.extend_from_slice(digits.format(number).as_bytes())
}

/// The request that a text is.
fn read(alloc: Global, text: &[u8]) -> Result<Request> {
    match Reader::new(alloc).feed(text)?.units.pop() {
        Some(Unit::Message(request)) => Ok(request),
        _ => bail!("the bench's own request isn't one"),
    }
}
