//! The running ring.
ghost use Rattle.std.specs.Prelude.{◌≡◌, IfSome};

use cursor::{Account, Feed, Refused, Taken, Tap};
use packet_ring::{Pass, Publisher, Receipt, Subscriber, new};
use std::alloc::Global;
use std::process::Abort;
use std::sync::Wait;
use std::thread;
use std::thread::join;

/// How many bytes the packets of these tests have at most.
pub(crate) const ROOM: usize = 64;

/// What a take answers, with the packet's bytes.
pub(crate) fn took(tap: &mut impl Tap, buf: &mut [u8]) -> Option<Taken> {
    if tap.packet_bytes() <= buf.len() {
        Some(tap.take(buf))
    } else {
        None
    }
}

/// A packet of this number and length, with tag 3.
pub(crate) fn packet(number: u64, len: usize) -> Option<Taken> {
    Some(Taken::Packet {
        number,
        tag: 3,
        len,
    })
}

/// Publishes these bytes, and returns the packet's number.
pub(crate) fn sent(publisher: &mut Publisher, bytes: &[u8]) -> Result<u64, Refused> {
    Feed::publish(publisher, 3, bytes)
}

/// A ring that keeps two packets, with one seat, which is attached.
pub(crate) fn ring_of_one(alloc: Global) -> Option<(Publisher, Subscriber)>
    ensures { IfSome result (λ r. r.1.ring ≡ r.0.ring) }
{
    let (publisher, mut passes) = new(alloc, 2, 1, ROOM).ok()?;
    let pass = passes.pop()?;
    Some((publisher, pass.attach()))
}

/// Publishes one packet, and leaves the log open.
fn publish_one(mut publisher: Publisher) -> Option<Receipt>
    ensures { IfSome result (λ receipt. receipt.ring ≡ publisher.ring) }
{
    publisher.publish(3, b"A").ok()
}

/// What another thread published is there after its receipt was learned.
#[test]
fn receipt_by_join(rt: HostRuntime) {
    let (publisher, mut seat) = ring_of_one(rt.alloc()).expect(&rt, "no ring");
    let (receipt, ()) = join(&rt, move || publish_one(publisher), || ());
    let receipt = receipt.expect(&rt, "refused");
    seat.learn(&receipt);
    assert!(rt; seat.known() == 1);
    let mut buf = [0; ROOM];
    assert!(rt; took(&mut seat, &mut buf) == packet(0, 1) && buf[0] == b'A');
}

/// A ring that keeps four packets, with two passes.
pub(crate) fn ring_of_two(alloc: Global) -> Option<(Publisher, Pass, Pass)>
    ensures { IfSome result (λ r. (r.1.ring ≡ r.0.ring) × (r.2.ring ≡ r.0.ring)) }
{
    let (publisher, mut passes) = new(alloc, 4, 2, ROOM).ok()?;
    let first = passes.pop()?;
    let second = passes.pop()?;
    Some((publisher, first, second))
}

/// Returns the byte at a place of the packet with this number.
fn byte_of(number: u64, place: usize) -> u8 {
    (number % 251) as u8 ^ (place % 256) as u8
}

/// Publishes `count` packets, each as soon as its place is free, and closes the ring. Returns how many publishes met a reader.
pub(crate) fn publish_all(rt: &impl Wait, mut publisher: Publisher, count: u64) -> u64 {
    let mut bytes = [0; ROOM];
    let mut refused = 0u64;
    let mut next = 0;
    for _ in rt.forever() {
        if next == count {
            break;
        }
        let len = (next % ROOM as u64) as usize;
        for place in 0..len {
            bytes[place] = byte_of(next, place);
        }
        match publisher.publish(3, &bytes[..len]) {
            Ok(receipt) => next = receipt.number().saturating_add(1),
            Err(_) => {
                refused = refused.saturating_add(1);
                thread::yield_now();
            }
        }
    }
    let _receipt = publisher.close();
    refused
}

/// Returns whether these are the bytes of the packet with this number.
pub(crate) fn is_packet(number: u64, bytes: &[u8]) -> bool {
    for place in 0..bytes.len() {
        if bytes[place] != byte_of(number, place) {
            return false;
        }
    }
    bytes.len() as u64 == number % ROOM as u64
}

/// Reads to the end, and returns the account if each packet had its bytes, and the numbers rose.
fn read_all(rt: &impl Wait, mut seat: Subscriber) -> Option<Account> {
    let mut buf = [0; ROOM];
    for _ in rt.forever() {
        let next = seat.cursor();
        match took(&mut seat, &mut buf)? {
            Taken::Packet { number, tag, len } => {
                if number != next || tag != 3 || !is_packet(number, buf.get(..len)?) {
                    return None;
                }
            }
            Taken::Lost(0) => return None,
            Taken::Lost(_) => {}
            Taken::Empty => thread::yield_now(),
            Taken::Ended => break,
        }
    }
    Some(seat.account())
}

/// A publisher and four seats, each in a thread of its own.
#[test]
fn five_threads(rt: HostRuntime) {
    let (publisher, passes) = new(rt.alloc(), 64, 4, ROOM).expect(&rt, "memory");
    let mut readers = Vec::new(rt.alloc());
    for pass in passes {
        let seat = pass.attach();
        let reader = thread::spawn(&rt, move || read_all(&rt, seat)).expect(&rt, "a thread");
        readers.push(reader).expect(&rt, "memory");
    }
    let writer = thread::spawn(&rt, move || publish_all(&rt, publisher, 100_000)).expect(
        &rt, "a thread",
    );
    // How many publishes met a reader depends on the threads.
    let _refused = writer.join(&rt);
    for reader in readers {
        let account = reader.join(&rt).expect(&rt, "a seat read another packet");
        assert!(rt; account.start == 0 && account.taken > 0);
        assert!(rt; account.taken.checked_add(account.lost) == Some(100_000));
    }
}
