//! What peers may do by their addresses, and how much one address may have.
use crate::held::{Held, Latch};
use crate::loopback::{ANNOUNCE, Client, OPTIONS, Running, Set, listening, start_with, status};
use crate::refused_tests::{Refusing, all_told, late_is_refused};
use crate::scripted::asks_at_last;
use log::Log;
use networks::Networks;
use relay_server::{Accepts, Access, OpenGate};
use std::alloc::Global;
use std::io;
use std::io::Eprint;
use std::net::{IpAddr, Net, SocketAddr, TcpListener, TcpStream};
use std::process::Abort;
use std::random::RandomSource;
use std::sync::Wait;
use std::sync::atomic::{AtomicUsize, Ordering};
use std::thread::Threads;
use std::time::Clock;
use test_kit::Kept;

/// Announces another mount than `ANNOUNCE`.
const ANNOUNCE_OTHER: &[u8] =
    b"ANNOUNCE rtsp://h/door RTSP/1.0\r\nCSeq: 5\r\nContent-Length: 26\r\n\r\nv=0\r\nm=audio 0 RTP/AVP 0\r\n";

/// An address may have one connection.
fn one_connection() -> Access {
    Access {
        connections: Some(1),
        ..Access::unlimited()
    }
}

/// The first client's ANNOUNCE counts before it is answered, and until its connection has ended.
fn one_has_a_mount<R: Net<Stream = TcpStream> + Clock + Abort>(
    rt: &R,
    alloc: Global,
    addr: SocketAddr,
    latch: &Latch,
) {
    let mut first = Client::connect(rt, alloc, addr);
    first.say(rt, ANNOUNCE.as_bytes());
    assert!(rt; latch.wait_until_held(rt));
    let mut second = Client::connect(rt, alloc, addr);
    assert!(rt; second.status_of(rt, ANNOUNCE_OTHER) == 503);
    latch.open();
    assert!(rt; status(first.head(rt).as_slice()) == 200);
    assert!(rt; second.status_of(rt, ANNOUNCE_OTHER) == 503);
    drop(first);
    assert!(rt; asks_at_last(rt, &mut second, ANNOUNCE_OTHER, 503) == 200);
}

/// Of two ANNOUNCEs at the same time only one is accepted if their address may have one mount.
#[test]
fn an_address_has_no_more_mounts_than_it_may(rt: HostRuntime) {
    let alloc = rt.alloc();
    let (listener, addr) = listening(&rt);
    let latch = Latch::new(&rt, alloc);
    let access = Access {
        mounts: Some(1),
        ..Access::unlimited()
    };
    let gate = Held::new(rt, &latch);
    let server = start_with(&rt, rt, alloc, listener, addr, Set::of(2, 1), gate, access);
    one_has_a_mount(&rt, alloc, addr, &latch);
    server.end(&rt);
    assert!(rt; !latch.gave_up());
}

/// Returns whether a client that connects now is served. It disconnects after that.
fn is_served<R: Net<Stream = TcpStream> + Abort>(rt: &R, alloc: Global, addr: SocketAddr) -> bool {
    let mut client = Client::connect(rt, alloc, addr);
    client.status_of(rt, OPTIONS) == 200
}

/// Its address may have one connection, and the next client is served.
#[test]
fn a_connection_without_a_thread_does_not_count(rt: HostRuntime) {
    let alloc = rt.alloc();
    let (listener, addr) = listening(&rt);
    let served = Kept::new(rt, alloc).expect(&rt, "memory");
    let gate = Refusing::new(0);
    let set = Set::of(2, 1);
    let access = one_connection();
    let server = start_with(&rt, served, alloc, listener, addr, set, gate, access);
    late_is_refused(&rt, alloc, addr);
    assert!(rt; is_served(&rt, alloc, addr));
    server.end(&rt);
    let lines = served.lines().expect(&rt, "memory");
    assert!(rt; all_told(lines.as_slice(), " refused: no thread") == Some(1));
}

/// A listener that reports these addresses of its first two peers in place of theirs.
#[derive(Drop)]
struct Renaming {
    listener: TcpListener,
    peers: [IpAddr; 2],
    accepted: AtomicUsize,
}

impl Accepts for Renaming {
    fn accept(&self) -> io::Result<(TcpStream, SocketAddr)> {
        let (stream, peer) = self.listener.accept()?;
        let place = self.accepted.fetch_add(1, Ordering::SeqCst);
        let ip = self.peers.get(place).copied().unwrap_or(peer.ip());
        Ok((stream, SocketAddr::new(ip, peer.port())))
    }
}

/// Reads an address.
fn address(rt: &impl Abort, text: &str) -> IpAddr {
    text.parse::<IpAddr>().expect(rt, "an address")
}

/// Starts a server of two connections, whose peers have these addresses.
fn start_for<R>(rt: R, alloc: Global, peers: [&str; 2], access: Access) -> Running
where
    R: Threads
        + Wait
        + Clock
        + Log
        + Eprint
        + RandomSource
        + Abort
        + Net<Listener = TcpListener, Stream = TcpStream>
        + Copy
        + Send
        + Sync
        + 'static,
{
    let (listener, addr) = listening(&rt);
    let [first, second] = peers;
    let renaming = Renaming {
        listener,
        peers: [address(&rt, first), address(&rt, second)],
        accepted: AtomicUsize::new(0),
    };
    let set = Set::of(2, 1);
    start_with(&rt, rt, alloc, renaming, addr, set, OpenGate, access)
}

/// Two addresses, and whether they count as one. IPv6 addresses do if their first 64 bits are equal, and an IPv4-mapped address is
/// its IPv4 address (RFC 4291, 2.5.1 and 2.5.5.2).
const PAIRS: [([&str; 2], bool); 6] = [
    (["2001:db8::1", "2001:db8::2"], true),
    (["2001:db8::1", "2001:db8:0:1::1"], false),
    (["::ffff:10.0.0.1", "10.0.0.1"], true),
    (["10.0.0.1", "::ffff:10.0.0.1"], true),
    (["::ffff:10.0.0.1", "::ffff:10.0.0.2"], false),
    (["10.0.0.1", "10.0.0.2"], false),
];

/// Two clients connect. The second one is refused, or served. The first one stays connected.
fn two_connect<R: Net<Stream = TcpStream> + Abort>(
    rt: &R,
    alloc: Global,
    addr: SocketAddr,
    is_refused: bool,
) {
    let mut first = Client::connect(rt, alloc, addr);
    assert!(rt; first.status_of(rt, OPTIONS) == 200);
    if is_refused {
        late_is_refused(rt, alloc, addr);
    } else {
        assert!(rt; is_served(rt, alloc, addr));
    }
    assert!(rt; first.status_of(rt, OPTIONS) == 200);
}

#[test]
fn addresses_of_one_subnet_count_as_one(rt: HostRuntime) {
    let alloc = rt.alloc();
    for (peers, are_one) in PAIRS {
        let server = start_for(rt, alloc, peers, one_connection());
        two_connect(&rt, alloc, server.addr, are_one);
        server.end(&rt);
    }
}

/// The first client may announce, and the second one may not.
fn one_may_announce<R: Net<Stream = TcpStream> + Abort>(rt: &R, alloc: Global, addr: SocketAddr) {
    let mut inside = Client::connect(rt, alloc, addr);
    assert!(rt; inside.status_of(rt, ANNOUNCE.as_bytes()) == 200);
    let mut outside = Client::connect(rt, alloc, addr);
    assert!(rt; outside.status_of(rt, ANNOUNCE_OTHER) == 403);
}

#[test]
fn mounts_are_announced_from_their_networks(rt: HostRuntime) {
    let alloc = rt.alloc();
    let networks = Networks::read(alloc, "10.0.0.0/8").expect(&rt, "a network");
    let access = Access {
        publish_from: Some(networks),
        ..Access::unlimited()
    };
    let server = start_for(rt, alloc, ["::ffff:10.1.2.3", "192.168.0.1"], access);
    one_may_announce(&rt, alloc, server.addr);
    server.end(&rt);
}
