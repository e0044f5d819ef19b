//! Packets that are pumped out of the plain log.
use cursor::{Account, Packet, PlainLog, PlainTap, Tap, pump};
use std::alloc::Global;
use std::process::Abort;

/// A tap of the one seat of a log, attached before each of these bytes was published as a packet.
pub(crate) fn tap_behind(rt: &impl Abort, alloc: Global, keep: u64, packets: &[&[u8]]) -> PlainTap {
    let mut log = PlainLog::new(alloc, keep, 1, 65_535).expect(rt, "memory");
    log.attach(0);
    for bytes in packets {
        publish(rt, &mut log, bytes);
    }
    assert!(rt; log.is_attached(0));
    PlainTap::new(log, 0)
}

/// Publishes a packet with tag 1.
fn publish(rt: &impl Abort, log: &mut PlainLog, bytes: &[u8]) {
    assert!(rt; !log.is_closed());
    let _ = log.publish(1, bytes).expect(rt, "memory");
}

/// Pumps at most this number of packets.
pub(crate) fn pumped<T: Tap>(
    rt: &impl Abort,
    alloc: Global,
    tap: &mut T,
    count: u64,
    out: &mut Vec<Packet>,
) -> Account {
    match pump(alloc, tap, count, out) {
        Ok(account) => account,
        Err(_) => panic!(rt; "room for a packet"),
    }
}

#[test]
fn a_pumped_packet_keeps_no_more_room_than_its_bytes(rt: HostRuntime) {
    let mut tap = tap_behind(&rt, rt.alloc(), 2, &[b"abc"]);
    let mut out = Vec::new(rt.alloc());
    let _ = pumped(&rt, rt.alloc(), &mut tap, 1, &mut out);
    let bytes = out.pop().expect(&rt, "a packet").bytes.into_vec();
    assert_eq!(rt; bytes.as_slice(), b"abc".as_slice());
    assert!(rt; bytes.capacity() <= 3);
}
