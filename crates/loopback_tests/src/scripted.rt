//! Requests and packets of clients, for tests.
use crate::loopback::{ANNOUNCE, Client, OPTIONS};
use std::alloc::{AllocError, Global};
use std::net::{Net, SocketAddr, TcpStream};
use std::process::Abort;
use std::thread;
use std::time::{Clock, Duration};
use test_kit::{FRAME, PACKET};

pub(crate) const SETUP_IN: &[u8] =
    b"SETUP rtsp://127.0.0.1:8554/cam/streamid=0 RTSP/1.0\r\nCSeq: 3\r\nTransport: RTP/AVP/TCP;unicast;interleaved=0-1;mode=record\r\n\r\n";

pub(crate) const RECORD: &[u8] =
    b"RECORD rtsp://127.0.0.1:8554/cam RTSP/1.0\r\nCSeq: 4\r\nSession: 000000010000abcd\r\n\r\n";

pub(crate) const SETUP_OUT: &[u8] =
    b"SETUP rtsp://127.0.0.1:8554/cam/trackID=0 RTSP/1.0\r\nCSeq: 3\r\nTransport: RTP/AVP/TCP;unicast;interleaved=4-5\r\n\r\n";

/// A client that has announced `cam` and records into it.
pub(crate) fn publisher<R: Net<Stream = TcpStream> + Abort>(
    rt: &R,
    alloc: Global,
    addr: SocketAddr,
) -> Client {
    let mut client = Client::connect(rt, alloc, addr);
    for request in [ANNOUNCE.as_bytes(), SETUP_IN, RECORD] {
        client.ask(rt, request);
    }
    client
}

/// The two digits of a number in hexadecimal.
fn digits(number: u8) -> [u8; 2] {
    [number >> 4, number & 15].map(|digit| match digit {
        0..=9 => b'0'.wrapping_add(digit),
        _ => b'a'.wrapping_add(digit.wrapping_sub(10)),
    })
}

/// A PLAY in the session of this number.
pub(crate) fn play(number: u8) -> [u8; 79] {
    let mut text =
        *b"PLAY rtsp://127.0.0.1:8554/cam RTSP/1.0\r\nCSeq: 4\r\nSession: 000000010000abcd\r\n\r\n";
    text[65..67].copy_from_slice(&digits(number));
    text
}

/// A request in the session of this number.
fn asking(alloc: Global, method: &str, number: u8) -> Result<String, AllocError> {
    let [high, low] = digits(number).map(|digit| char::from(digit));
    format!(in alloc;
        "{method} rtsp://127.0.0.1:8554/cam RTSP/1.0\r\nCSeq: 7\r\nSession: 000000{high}{low}0000abcd\r\n\r\n"
    )
}

/// A client that plays `cam` in the session of this number, which is the next one.
pub(crate) fn player<R: Net<Stream = TcpStream> + Abort>(
    rt: &R,
    alloc: Global,
    addr: SocketAddr,
    number: u8,
) -> Client {
    let mut client = Client::connect(rt, alloc, addr);
    client.ask(rt, SETUP_OUT);
    client.ask(rt, &play(number));
    client
}

/// Returns the status of the reply to a request in the session of this number.
pub(crate) fn status_in(
    rt: &impl Abort,
    alloc: Global,
    client: &mut Client,
    method: &str,
    number: u8,
) -> u16 {
    let request = asking(alloc, method, number).expect(rt, "memory");
    client.status_of(rt, request.as_bytes())
}

/// A camera, a player that has the only seat, and another player that has set up.
#[derive(Drop)]
pub(crate) struct Peers {
    pub(crate) camera: Client,
    pub(crate) first: Client,
    pub(crate) second: Client,
}

impl Peers {
    /// The first three clients of a server.
    pub(crate) fn connect<R: Net<Stream = TcpStream> + Abort>(
        rt: &R,
        alloc: Global,
        addr: SocketAddr,
    ) -> Peers {
        let camera = publisher(rt, alloc, addr);
        let first = player(rt, alloc, addr, 2);
        let mut second = Client::connect(rt, alloc, addr);
        second.ask(rt, SETUP_OUT);
        Peers {
            camera,
            first,
            second,
        }
    }
}

/// Returns whether the packet of `FRAME` comes next.
fn has_frame(rt: &impl Abort, player: &mut Client) -> bool {
    player.bytes(rt, 16).as_slice().ends_with(PACKET)
}

/// Returns whether the packet of `FRAME` comes from a camera to a player.
pub(crate) fn passes_on(rt: &impl Abort, camera: &mut Client, player: &mut Client) -> bool {
    camera.say(rt, FRAME);
    has_frame(rt, player)
}

/// An RTP packet of 6,000 bytes with this number, as a frame on channel 0.
fn numbered(alloc: Global, number: u16) -> Result<Vec<u8>, AllocError> {
    let mut frame = Vec::from_elem(alloc, 0, 6004)?;
    frame[..6].copy_from_slice(b"\x24\x00\x17\x70\x80\x60");
    frame[6..8].copy_from_slice(&number.to_be_bytes());
    Ok(frame)
}

/// Publishes `count` packets of 6,000 bytes, with the numbers from `from` on.
fn publish(rt: &impl Abort, alloc: Global, camera: &mut Client, from: u16, count: u16) {
    for place in 0..count {
        let packet = numbered(alloc, from.wrapping_add(place)).expect(rt, "memory");
        camera.say(rt, packet.as_slice());
    }
}

/// Sends a request until its reply has another status than `refused`, up to a thousand times. Returns the last status.
pub(crate) fn asks_at_last<R: Clock + Abort>(
    rt: &R,
    client: &mut Client,
    request: &[u8],
    refused: u16,
) -> u16 {
    let mut answered = 0;
    for _ in 0..1000 {
        answered = client.status_of(rt, request);
        if answered != refused {
            break;
        }
        thread::sleep(rt, Duration::from_millis(10));
    }
    answered
}

/// Sends PLAY until a seat is free, up to a thousand times. Returns the last status.
pub(crate) fn plays_at_last<R: Clock + Abort>(rt: &R, client: &mut Client, number: u8) -> u16 {
    asks_at_last(rt, client, &play(number), 453)
}

/// How many packets of 6,000 bytes are published at once to a player that reads nothing: fewer than its ring keeps.
const BATCH: u16 = 400;

/// Publishes 2,000 packets, more than most systems' buffers hold, with time for the server to write each batch.
fn stall<R: Clock + Abort>(rt: &R, alloc: Global, camera: &mut Client) {
    for place in 0..5u16 {
        publish(rt, alloc, camera, BATCH.wrapping_mul(place), BATCH);
        thread::sleep(rt, Duration::from_millis(20));
    }
}

/// Peers of which the first player has stopped reading in the middle of what the camera published.
pub(crate) fn stalled<R: Net<Stream = TcpStream> + Clock + Abort>(
    rt: &R,
    alloc: Global,
    addr: SocketAddr,
) -> Peers {
    let mut peers = Peers::connect(rt, alloc, addr);
    stall(rt, alloc, &mut peers.camera);
    // The server has read them all.
    peers.camera.ask(rt, OPTIONS);
    peers
}
