//! Connections over loopback.
use crate::held::{Held, Latch};
use crate::loopback::{Client, MODES, OPTIONS, Set, start, status};
use crate::scripted::{Peers, SETUP_OUT, passes_on, play, publisher, status_in};
use relay_server::OpenGate;
use std::alloc::Global;
use std::net::{Net, SocketAddr, TcpStream};
use std::process::Abort;
use test_kit::{FRAME, PACKET};

/// A frame comes to its player on the channel that it set up. After that the server has read all that the camera sent.
fn comes_out<R: Abort>(rt: &R, camera: &mut Client, player: &mut Client) {
    assert!(rt; player.status_of(rt, SETUP_OUT) == 200);
    assert!(rt; player.status_of(rt, &play(2)) == 200);
    camera.say(rt, FRAME);
    let frame = player.bytes(rt, 16);
    assert!(rt;
        frame.as_slice().starts_with(b"\x24\x04\x00\x0c") && frame.as_slice().ends_with(PACKET)
    );
    // One that is refused, because it has 16,385 bytes: no player is sent its number.
    camera.say(rt, b"\x24\x00\x40\x01\x80\x60\x00\x63");
    camera.say(rt, &[0; 16_381]);
    camera.ask(rt, OPTIONS);
}

/// A player that comes later is sent the number of the next packet.
fn late_player_is_told<R: Net<Stream = TcpStream> + Abort>(
    rt: &R,
    alloc: Global,
    addr: SocketAddr,
) {
    let mut late = Client::connect(rt, alloc, addr);
    late.ask(rt, SETUP_OUT);
    let reply = late.ask(rt, &play(3));
    let info: &[u8] = b"RTP-Info: url=rtsp://127.0.0.1:8554/cam/trackID=0;seq=8;rtptime=9000\r\n";
    assert!(rt; status(reply.as_slice()) == 200);
    assert!(rt;
        reply
            .as_slice()
            .windows(info.len())
            .any(|part| part == info)
    );
}

fn frame_is_played<R: Net<Stream = TcpStream> + Abort>(rt: &R, alloc: Global, addr: SocketAddr) {
    let mut camera = publisher(rt, alloc, addr);
    let mut player = Client::connect(rt, alloc, addr);
    comes_out(rt, &mut camera, &mut player);
    late_player_is_told(rt, alloc, addr)
}

#[test]
fn a_frame_comes_out_where_it_was_set_up(rt: HostRuntime) {
    let alloc = rt.alloc();
    for writers in MODES {
        let server = start(rt, alloc, Set::of(3, 2).by(writers), OpenGate);
        frame_is_played(&rt, alloc, server.addr);
        server.end(&rt);
    }
}

/// Two clients, one after the other, each of which asks once.
pub(crate) fn two_clients_ask<R: Net<Stream = TcpStream> + Abort>(
    rt: &R,
    alloc: Global,
    addr: SocketAddr,
) {
    for _ in 0..2 {
        let mut client = Client::connect(rt, alloc, addr);
        assert!(rt; client.status_of(rt, OPTIONS) == 200);
    }
}

#[test]
fn each_connection_comes_asks_and_hangs_up(rt: HostRuntime) {
    let alloc = rt.alloc();
    let server = start(rt, alloc, Set::of(2, 1), OpenGate);
    two_clients_ask(&rt, alloc, server.addr);
    let ended = server.end(&rt);
    assert!(rt; ended.kept == 6);
}

/// The second client is answered while the first one is held. The first one is answered after it is let on.
fn second_is_served_first<R: Net<Stream = TcpStream> + Abort>(
    rt: &R,
    alloc: Global,
    addr: SocketAddr,
    latch: &Latch,
) {
    let mut held = Client::connect(rt, alloc, addr);
    held.say(rt, OPTIONS);
    let mut other = Client::connect(rt, alloc, addr);
    assert!(rt; other.status_of(rt, OPTIONS) == 200);
    latch.open();
    assert!(rt; status(held.head(rt).as_slice()) == 200);
}

#[test]
fn connections_are_served_side_by_side(rt: HostRuntime) {
    let alloc = rt.alloc();
    let latch = Latch::new(&rt, alloc);
    let gate = Held::new(rt, &latch);
    let server = start(rt, alloc, Set::of(2, 1), gate);
    second_is_served_first(&rt, alloc, server.addr, &latch);
    server.end(&rt);
    assert!(rt; !latch.gave_up());
}

/// The second player has the seat once the first one pauses, and the first one isn't sent what comes then.
fn pause_frees_a_seat<R: Net<Stream = TcpStream> + Abort>(rt: &R, alloc: Global, addr: SocketAddr) {
    let mut peers = Peers::connect(rt, alloc, addr);
    assert!(rt; peers.second.status_of(rt, &play(3)) == 453);
    assert!(rt; status_in(rt, alloc, &mut peers.first, "PAUSE", 2) == 200);
    assert!(rt; peers.second.status_of(rt, &play(3)) == 200);
    assert!(rt; passes_on(rt, &mut peers.camera, &mut peers.second));
    // What came while it paused isn't sent to the first one.
    assert!(rt; status_in(rt, alloc, &mut peers.first, "TEARDOWN", 2) == 200);
}

#[test]
fn a_seat_is_free_again_behind_a_pause(rt: HostRuntime) {
    let alloc = rt.alloc();
    for writers in MODES {
        let server = start(rt, alloc, Set::of(3, 1).by(writers), OpenGate);
        pause_frees_a_seat(&rt, alloc, server.addr);
        let ended = server.end(&rt);
        assert!(rt; !ended.open[0]);
    }
}
