//! Accepts and threads that are refused.
use crate::lines::is_only_end;
use crate::loopback::{Client, Set, listening, start, start_on};
use crate::scripted::{SETUP_OUT, passes_on, play, plays_at_last, publisher};
use crate::serving_tests::two_clients_ask;
use relay_server::{Accepts, Gate, OpenGate};
use std::alloc::Global;
use std::io;
use std::net::{Net, SocketAddr, TcpListener, TcpStream};
use std::process::Abort;
use std::sync::atomic::{AtomicU64, Ordering};
use std::time::{Clock, Duration, Instant};
use test_kit::Kept;

/// A listener that fails three times before each connection.
#[derive(Drop)]
struct Failing {
    listener: TcpListener,
    asked: AtomicU64,
}

impl Accepts for Failing {
    fn accept(&self) -> io::Result<(TcpStream, SocketAddr)> {
        if self.asked.fetch_add(1, Ordering::SeqCst) % 4 < 3 {
            return Err(io::Error::from(io::ErrorKind::Other));
        }
        self.listener.accept()
    }
}

/// Returns the number in a line of a refusal with this text. `None` if it is another line.
fn told(line: &str, text: &str) -> Option<u64> {
    let rest = line.strip_prefix("[WARN  relay_server::refusing] ")?;
    rest.strip_suffix(text)?.parse::<u64>().ok()
}

/// Returns how many refusals with this text these lines report. `None` if one of them is another line.
pub(crate) fn all_told(lines: &[String], text: &str) -> Option<u64> {
    let mut sum = 0u64;
    for line in lines {
        sum = sum.saturating_add(told(line.as_str(), text)?);
    }
    Some(sum)
}

/// Six accepts fail, with a wait of a tenth of a second after each. The first is logged at once, and the others at the end,
/// together.
#[test]
fn an_accept_that_fails_is_tried_again(rt: HostRuntime) {
    let alloc = rt.alloc();
    let began = Instant::now(&rt).expect(&rt, "the time");
    let (listener, addr) = listening(&rt);
    let failing = Failing {
        listener,
        asked: AtomicU64::new(0),
    };
    let served = Kept::new(rt, alloc).expect(&rt, "memory");
    let server = start_on(&rt, served, alloc, failing, addr, Set::of(2, 1), OpenGate);
    two_clients_ask(&rt, alloc, server.addr);
    server.end(&rt);
    let took = began.elapsed(&rt).expect(&rt, "the time");
    assert!(rt; took >= Duration::from_millis(600));
    let lines = served.lines().expect(&rt, "memory");
    let text = " not accepted: no descriptor or no memory";
    assert!(rt; lines.len() <= 2 && all_told(lines.as_slice(), text) == Some(6));
}

/// Lets each thread start but the one with this number, counted from 0.
#[derive(Drop)]
pub(crate) struct Refusing {
    number: u64,
    asked: AtomicU64,
}

impl Refusing {
    pub(crate) fn new(number: u64) -> Refusing {
        Refusing {
            number,
            asked: AtomicU64::new(0),
        }
    }
}

impl Gate for Refusing {
    fn pass(&self, _conn: u64, _turn: u64) {}

    fn may_start(&self) -> bool {
        self.asked.fetch_add(1, Ordering::SeqCst) != self.number
    }
}

/// A client for which there is no connection is sent a 503 and disconnected.
pub(crate) fn late_is_refused<R: Net<Stream = TcpStream> + Abort>(
    rt: &R,
    alloc: Global,
    addr: SocketAddr,
) -> Client {
    let mut late = Client::connect(rt, alloc, addr);
    assert!(rt; late.reads(rt, b"RTSP/1.0 503 Service Unavailable\r\n\r\n"));
    assert!(rt; late.is_hung_up(rt));
    late
}

/// Its peer is sent a 503 and disconnected, and the next ones are served. The server ends, so no thread is counted any more.
#[test]
fn a_connection_without_a_thread_is_refused(rt: HostRuntime) {
    let alloc = rt.alloc();
    let (listener, addr) = listening(&rt);
    let served = Kept::new(rt, alloc).expect(&rt, "memory");
    let gate = Refusing::new(0);
    let server = start_on(&rt, served, alloc, listener, addr, Set::of(3, 1), gate);
    late_is_refused(&rt, alloc, server.addr);
    two_clients_ask(&rt, alloc, server.addr);
    let ended = server.end(&rt);
    // Its coming and its hang-up, and those of two connections with a request each.
    assert!(rt; ended.kept == 8 && !ended.open[0] && !ended.open[1]);
    let lines = served.lines().expect(&rt, "memory");
    assert!(rt; all_told(lines.as_slice(), " refused: no thread") == Some(1));
}

/// Its place in the book is free again before its peer is sent the 503.
#[test]
fn a_refused_connection_leaves_its_place(rt: HostRuntime) {
    let alloc = rt.alloc();
    let server = start(rt, alloc, Set::of(1, 1), Refusing::new(0));
    let _refused = late_is_refused(&rt, alloc, server.addr);
    assert!(rt; server.fill(&rt) == 1024);
    server.end(&rt);
}

/// Its peer is sent a 503, and a line has the reason.
#[test]
fn a_connection_of_a_full_server_is_refused(rt: HostRuntime) {
    let alloc = rt.alloc();
    let (listener, addr) = listening(&rt);
    let served = Kept::new(rt, alloc).expect(&rt, "memory");
    let server = start_on(&rt, served, alloc, listener, addr, Set::of(1, 1), OpenGate);
    assert!(rt; server.fill(&rt) == 1024);
    let _late = late_is_refused(&rt, alloc, server.addr);
    server.end(&rt);
    let lines = served.lines().expect(&rt, "memory");
    assert!(rt; all_told(lines.as_slice(), " refused: too many connections") == Some(1));
}

/// A player that has the only seat is disconnected after the reply to its PLAY, and another one has the seat then. Returns
/// the player's address.
fn seat_is_free_again<R: Net<Stream = TcpStream> + Clock + Abort>(
    rt: &R,
    alloc: Global,
    addr: SocketAddr,
) -> SocketAddr {
    let mut camera = publisher(rt, alloc, addr);
    let mut first = Client::connect(rt, alloc, addr);
    first.ask(rt, SETUP_OUT);
    let mut second = Client::connect(rt, alloc, addr);
    second.ask(rt, SETUP_OUT);
    first.ask(rt, &play(2));
    assert!(rt; first.is_hung_up(rt));
    assert!(rt; plays_at_last(rt, &mut second, 3) == 200);
    assert!(rt; passes_on(rt, &mut camera, &mut second));
    first.addr(rt)
}

/// After those of a camera and of two players no thread can be started for the first player's frames.
#[test]
fn a_player_without_a_thread_for_its_frames_is_let_go(rt: HostRuntime) {
    let alloc = rt.alloc();
    let (listener, addr) = listening(&rt);
    let served = Kept::new(rt, alloc).expect(&rt, "memory");
    let gate = Refusing::new(3);
    let server = start_on(&rt, served, alloc, listener, addr, Set::of(3, 1), gate);
    let first = seat_is_free_again(&rt, alloc, server.addr);
    server.end(&rt);
    let lines = served.lines().expect(&rt, "memory");
    let told = format!(in alloc;
        "[WARN  relay_server::server] {first}: player of cam: no thread for its frames (connection 2)"
    );
    let told = told.expect(&rt, "memory");
    assert!(rt; is_only_end(lines.as_slice(), told.as_str()));
}

/// Lets each thread that all connections share start but the one with this number, counted from 0.
#[derive(Drop)]
struct Lacking {
    number: u64,
    asked: AtomicU64,
}

impl Gate for Lacking {
    fn pass(&self, _conn: u64, _turn: u64) {}

    fn may_help(&self) -> bool {
        self.asked.fetch_add(1, Ordering::SeqCst) != self.number
    }
}

/// The threads that write lines, send frames (two), wake players, close refused peers and report.
const HELPERS: u64 = 6;

#[test]
fn a_server_without_a_thread_of_its_own_does_not_begin(rt: HostRuntime) {
    let alloc = rt.alloc();
    for number in 0..HELPERS {
        let (listener, addr) = listening(&rt);
        let served = Kept::new(rt, alloc).expect(&rt, "memory");
        let gate = Lacking {
            number,
            asked: AtomicU64::new(0),
        };
        let set = Set {
            report: Some(3_600_000),
            ..Set::of(1, 1).by(2)
        };
        let server = start_on(&rt, served, alloc, listener, addr, set, gate);
        assert!(rt; server.refuses(&rt));
        let lines = served.lines().expect(&rt, "memory");
        let text =
            "[WARN  relay_server::helpers] no thread or no memory for what all connections share";
        assert!(rt; lines.len() == 1 && lines.iter().all(|line| line.as_str() == text));
    }
}
