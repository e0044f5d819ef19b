//! Sessions that expire over loopback, by a clock that the test moves.
use crate::dial::Dial;
use crate::lines::is_only_end;
use crate::loopback::{ANNOUNCE, Client, MODES, OPTIONS, Set, listening, start, start_on, status};
use crate::scripted::{
    Peers, SETUP_OUT, asks_at_last, passes_on, play, player, plays_at_last, publisher, stalled,
    status_in,
};
use log::Log;
use relay_server::{Gate, OpenGate};
use std::alloc::Global;
use std::io::Eprint;
use std::net::{Net, SocketAddr, TcpListener, TcpStream};
use std::process::Abort;
use std::random::RandomSource;
use std::sync::atomic::{AtomicBool, Ordering};
use std::sync::{Arc, Wait};
use std::thread::Threads;
use std::time::Clock;
use test_kit::{FRAME, Kept, wait_for};

/// An RTCP packet as a frame on the channel of a player.
const REPORT: &[u8] = b"\x24\x05\x00\x08\x80\xc9\x00\x01\x00\x00\x00\x00";

/// The first moment at which a session that was heard at 0 has expired, and the one before.
const EXPIRED: u64 = 60_000;

const ALIVE: u64 = 59_999;

/// Announces the mount until its name is free, up to a thousand times. Returns the last status.
fn announces_at_last<R: Clock + Abort>(rt: &R, client: &mut Client) -> u16 {
    asks_at_last(rt, client, ANNOUNCE.as_bytes(), 403)
}

/// A camera vanishes without closing. Another one has its name after its time is over, and not before.
fn camera_vanishes<R: Net<Stream = TcpStream> + Clock + Abort>(
    rt: &R,
    alloc: Global,
    addr: SocketAddr,
    dial: Dial,
) -> SocketAddr {
    let mut camera = publisher(rt, alloc, addr);
    let mut other = Client::connect(rt, alloc, addr);
    dial.pass(rt, ALIVE);
    assert!(rt; other.status_of(rt, ANNOUNCE.as_bytes()) == 403);
    dial.set(EXPIRED);
    assert!(rt; announces_at_last(rt, &mut other) == 200);
    assert!(rt; camera.is_hung_up(rt));
    camera.addr(rt)
}

/// A camera vanishes from a server that has this runtime, which then ends. Returns the camera's address.
fn vanishes_from<R, S>(rt: &R, served: S, alloc: Global, writers: usize) -> SocketAddr
where
    R: Threads
        + Wait
        + Clock
        + RandomSource
        + Abort
        + Net<Listener = TcpListener, Stream = TcpStream>,
    S: Threads + Wait + Clock + Log + Eprint + Copy + Send + Sync + 'static,
{
    let (listener, addr) = listening(rt);
    let dial = Dial::new(rt, alloc);
    let set = Set::of(2, 1).by(writers).timed(dial);
    let server = start_on(rt, served, alloc, listener, addr, set, OpenGate);
    let camera = camera_vanishes(rt, alloc, addr, dial);
    server.end(rt);
    camera
}

#[test]
fn a_vanished_publishers_name_is_free_and_one_line_tells_it(rt: HostRuntime) {
    let alloc = rt.alloc();
    for writers in MODES {
        let served = Kept::new(rt, alloc).expect(&rt, "memory");
        let camera = vanishes_from(&rt, served, alloc, writers);
        let want = format!(in alloc;
            "[WARN  relay_server::server] {camera}: publisher of cam: session expired after 60 s of silence (connection 1)"
        ).expect(&rt, "memory");
        let lines = served.lines().expect(&rt, "memory");
        assert!(rt; is_only_end(lines.as_slice(), want.as_str()));
    }
}

/// A camera sends frames and no request, and a player RTCP and no request. Both stay connected while they do so.
fn frames_keep_sessions<R: Net<Stream = TcpStream> + Clock + Abort>(
    rt: &R,
    alloc: Global,
    addr: SocketAddr,
    dial: Dial,
) {
    let mut camera = publisher(rt, alloc, addr);
    let mut player = player(rt, alloc, addr, 2);
    for turn in 1..4u64 {
        dial.pass(rt, ALIVE * turn);
        assert!(rt; passes_on(rt, &mut camera, &mut player));
        player.say(rt, REPORT);
        dial.pass(rt, ALIVE * turn);
    }
    // Part of a frame doesn't count.
    player.say(rt, &REPORT[..11]);
    dial.pass(rt, ALIVE * 3 + ALIVE);
    assert!(rt; passes_on(rt, &mut camera, &mut player));
    dial.set(ALIVE * 3 + EXPIRED);
    assert!(rt; player.is_hung_up(rt));
    camera.say(rt, FRAME);
    assert!(rt; camera.status_of(rt, OPTIONS) == 200);
}

#[test]
fn frames_keep_the_sessions_of_a_publisher_and_a_player(rt: HostRuntime) {
    let alloc = rt.alloc();
    for writers in MODES {
        let dial = Dial::new(&rt, alloc);
        let server = start(rt, alloc, Set::of(2, 1).by(writers).timed(dial), OpenGate);
        frames_keep_sessions(&rt, alloc, server.addr, dial);
        server.end(&rt);
    }
}

/// The first player, which sends nothing, loses its seat to the second one. That one was refused a seat before, and keeps
/// its session by that request.
fn silent_player_loses_its_seat<R: Net<Stream = TcpStream> + Clock + Abort>(
    rt: &R,
    alloc: Global,
    addr: SocketAddr,
    dial: Dial,
) {
    let Peers {
        mut camera,
        mut first,
        mut second,
    } = Peers::connect(rt, alloc, addr);
    dial.pass(rt, ALIVE);
    assert!(rt; passes_on(rt, &mut camera, &mut first));
    assert!(rt; second.status_of(rt, &play(3)) == 453);
    dial.set(EXPIRED);
    assert!(rt; first.is_hung_up(rt));
    dial.pass(rt, ALIVE + ALIVE);
    assert!(rt; plays_at_last(rt, &mut second, 3) == 200);
    assert!(rt; passes_on(rt, &mut camera, &mut second));
}

#[test]
fn a_silent_player_loses_its_seat_at_sixty_seconds(rt: HostRuntime) {
    let alloc = rt.alloc();
    for writers in MODES {
        let dial = Dial::new(&rt, alloc);
        let server = start(rt, alloc, Set::of(3, 1).by(writers).timed(dial), OpenGate);
        silent_player_loses_its_seat(&rt, alloc, server.addr, dial);
        server.end(&rt);
    }
}

/// A player asks for nothing in its session, and another one for what it is refused.
fn requests_keep_sessions<R: Net<Stream = TcpStream> + Clock + Abort>(
    rt: &R,
    alloc: Global,
    addr: SocketAddr,
    dial: Dial,
) {
    let mut peers = Peers::connect(rt, alloc, addr);
    for turn in 1..4u64 {
        dial.pass(rt, ALIVE * turn);
        assert!(rt; passes_on(rt, &mut peers.camera, &mut peers.first));
        assert!(rt; status_in(rt, alloc, &mut peers.first, "GET_PARAMETER", 2) == 200);
        assert!(rt; status_in(rt, alloc, &mut peers.second, "RECORD", 3) == 403);
    }
    assert!(rt; status_in(rt, alloc, &mut peers.second, "TEARDOWN", 3) == 200);
}

#[test]
fn requests_keep_a_session_also_where_they_are_refused(rt: HostRuntime) {
    let alloc = rt.alloc();
    for writers in MODES {
        let dial = Dial::new(&rt, alloc);
        let server = start(rt, alloc, Set::of(3, 1).by(writers).timed(dial), OpenGate);
        requests_keep_sessions(&rt, alloc, server.addr, dial);
        server.end(&rt);
    }
}

/// The first player has stopped reading, so that a reply and frames wait for it.
fn stalled_player_expires<R: Net<Stream = TcpStream> + Clock + Abort>(
    rt: &R,
    alloc: Global,
    addr: SocketAddr,
    dial: Dial,
) {
    let mut peers = stalled(rt, alloc, addr);
    dial.set(ALIVE);
    assert!(rt; peers.camera.status_of(rt, OPTIONS) == 200);
    assert!(rt; peers.second.status_of(rt, &play(3)) == 453);
    dial.set(EXPIRED);
    assert!(rt; plays_at_last(rt, &mut peers.second, 3) == 200);
}

#[test]
fn a_stalled_player_loses_its_seat_too(rt: HostRuntime) {
    let alloc = rt.alloc();
    for writers in MODES {
        let dial = Dial::new(&rt, alloc);
        let server = start(rt, alloc, Set::of(3, 1).by(writers).timed(dial), OpenGate);
        stalled_player_expires(&rt, alloc, server.addr, dial);
        server.end(&rt);
    }
}

/// Sets its word once connection 2 is answered for the third time.
#[derive(Drop)]
struct Third {
    asked: Arc<AtomicBool, Global>,
}

impl Gate for Third {
    fn pass(&self, conn: u64, turn: u64) {
        if conn == 2 && turn == 2 {
            self.asked.store(true, Ordering::SeqCst);
        }
    }
}

/// Whether these are frames of 6,000 bytes of data on a player's channel, the last of which may be cut.
fn are_frames(bytes: &[u8]) -> bool {
    let head: &[u8] = b"\x24\x04\x17\x70";
    bytes.chunks(6004).all(|frame| frame.starts_with(head.get(..frame.len()).unwrap_or(head)))
}

/// The first player has stopped reading, so that its reply mostly waits after frames while its session's time passes. Nothing
/// waits for it. Then it reads the reply between whole frames, and its seat is free.
fn reads_late<R: Net<Stream = TcpStream> + Clock + Abort>(
    rt: &R,
    alloc: Global,
    addr: SocketAddr,
    dial: Dial,
    asked: &AtomicBool,
) -> SocketAddr {
    let mut peers = stalled(rt, alloc, addr);
    peers.first.say(rt, OPTIONS);
    assert!(rt; wait_for(rt, asked));
    dial.pass(rt, ALIVE);
    assert!(rt; peers.camera.status_of(rt, OPTIONS) == 200);
    assert!(rt; peers.second.status_of(rt, &play(3)) == 453);
    dial.pass(rt, EXPIRED);
    assert!(rt; peers.camera.status_of(rt, OPTIONS) == 200);
    assert!(rt; peers.first.frames(rt) > 0);
    assert!(rt; status(peers.first.head(rt).as_slice()) == 200);
    assert!(rt; are_frames(peers.first.bytes(rt, usize::MAX).as_slice()));
    assert!(rt; plays_at_last(rt, &mut peers.second, 3) == 200);
    peers.first.addr(rt)
}

/// A player reads late from a server that has this runtime, which then ends. Returns the player's address.
fn reads_late_from<R, S>(rt: &R, served: S, alloc: Global, writers: usize) -> SocketAddr
where
    R: Threads
        + Wait
        + Clock
        + RandomSource
        + Abort
        + Net<Listener = TcpListener, Stream = TcpStream>,
    S: Threads + Wait + Clock + Log + Eprint + Copy + Send + Sync + 'static,
{
    let (listener, addr) = listening(rt);
    let dial = Dial::new(rt, alloc);
    let set = Set::of(3, 1).by(writers).timed(dial);
    let asked = Arc::new(alloc, AtomicBool::new(false)).expect(rt, "memory");
    let gate = Third {
        asked: Arc::try_clone(&asked).expect(rt, "a count of its users"),
    };
    let server = start_on(rt, served, alloc, listener, addr, set, gate);
    let first = reads_late(rt, alloc, addr, dial, &asked);
    server.end(rt);
    first
}

/// Returns how many warnings name a peer.
fn warnings_of(lines: &[String], peer: &str) -> usize {
    lines
        .iter()
        .filter(|line| line.as_str().starts_with("[WARN ") && line.as_str().contains(peer))
        .count()
}

#[test]
fn a_reply_that_waits_is_whole_and_then_the_session_has_expired(rt: HostRuntime) {
    let alloc = rt.alloc();
    for writers in MODES {
        let served = Kept::new(rt, alloc).expect(&rt, "memory");
        let first = reads_late_from(&rt, served, alloc, writers);
        let peer = format!(in alloc; " {first}: ").expect(&rt, "memory");
        let want = format!(in alloc;
            "[WARN  relay_server::server] {first}: player of cam: session expired after 60 s of silence (connection 2)"
        ).expect(&rt, "memory");
        let lines = served.lines().expect(&rt, "memory");
        assert!(rt; warnings_of(lines.as_slice(), peer.as_str()) == 1);
        assert!(rt; lines.iter().any(|line| line.as_str() == want.as_str()));
    }
}

/// A player's session expires without a seat. The player stays connected, and sets up again.
fn set_up_anew<R: Net<Stream = TcpStream> + Clock + Abort>(
    rt: &R,
    alloc: Global,
    addr: SocketAddr,
    dial: Dial,
) {
    let mut camera = publisher(rt, alloc, addr);
    let mut player = player(rt, alloc, addr, 2);
    assert!(rt; status_in(rt, alloc, &mut player, "PAUSE", 2) == 200);
    dial.pass(rt, ALIVE);
    camera.say(rt, FRAME);
    dial.pass(rt, EXPIRED);
    assert!(rt; player.status_of(rt, &play(2)) == 454);
    assert!(rt; player.status_of(rt, SETUP_OUT) == 200);
    assert!(rt; player.status_of(rt, &play(3)) == 200);
    assert!(rt; passes_on(rt, &mut camera, &mut player));
}

#[test]
fn a_player_whose_session_expired_while_it_paused_sets_up_anew(rt: HostRuntime) {
    let alloc = rt.alloc();
    for writers in MODES {
        let dial = Dial::new(&rt, alloc);
        let server = start(rt, alloc, Set::of(2, 1).by(writers).timed(dial), OpenGate);
        set_up_anew(&rt, alloc, server.addr, dial);
        server.end(&rt);
    }
}

/// The clock jumps while the mount ends, and as far as it can. The peers that have a part in the mount are disconnected, and
/// the name is free.
fn clock_jumps<R: Net<Stream = TcpStream> + Clock + Abort>(
    rt: &R,
    alloc: Global,
    addr: SocketAddr,
    dial: Dial,
    moment: u64,
) {
    let camera = publisher(rt, alloc, addr);
    let mut first = player(rt, alloc, addr, 2);
    dial.set(moment);
    drop(camera);
    assert!(rt; first.is_hung_up(rt));
    let mut other = Client::connect(rt, alloc, addr);
    assert!(rt; announces_at_last(rt, &mut other) == 200);
}

#[test]
fn a_clock_that_jumps_ends_what_was_silent(rt: HostRuntime) {
    let alloc = rt.alloc();
    for writers in MODES {
        for moment in [86_400_000, u64::MAX] {
            let dial = Dial::new(&rt, alloc);
            let server = start(rt, alloc, Set::of(3, 1).by(writers).timed(dial), OpenGate);
            clock_jumps(&rt, alloc, server.addr, dial, moment);
            server.end(&rt);
        }
    }
}
