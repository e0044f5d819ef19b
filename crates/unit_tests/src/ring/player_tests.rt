//! Packets of a tap that go out as frames.
ghost use Rattle.std.specs.Prelude.{◌≡◌, IfOk};
ghost use Rattle.cursor.specs.Log.{packet_of};

use base_syntax::Bytes;
use cursor::{Account, Delivery, Lend, ListTap, Packet, Tap};
use interleaved::{ListSink, Sink};
use player::{OutReport, OutStop, relay_out, relay_out_held};
use std::alloc::{AllocError, Global};
use std::process::Abort;
use transport_header::{ChannelPair, TrackChannels};

/// The frame of the bytes `aa bb` on channel 4.
const FRAME: [u8; 6] = [0x24, 4, 0, 2, 0xaa, 0xbb];

/// Track 0 on two channels.
pub(crate) fn one_track(first: u8, second: u8) -> TrackChannels {
    let mut channels = TrackChannels::new();
    let pair = ChannelPair { first, second };
    if channels.may_have(0, pair) {
        channels.set(0, pair);
    }
    channels
}

fn got(alloc: Global, number: u64, tag: u8, bytes: &[u8]) -> Result<Delivery, AllocError>
    ensures { IfOk result (λ d. d ≡ Delivery.Got number (packet_of tag bytes.now)) }
{
    let bytes = Bytes::from_slice(alloc, bytes)?;
    Ok(Delivery::Got {
        number,
        packet: Packet { tag, bytes },
    })
}

/// Packet 3 with two bytes, four lost, packet 8 of a track that isn't set up, and nothing more yet.
fn row_frames_out(alloc: Global) -> Result<ListTap, AllocError> {
    let mut list = Vec::with_capacity(alloc, 4)?;
    list.push(got(alloc, 3, 0, &[0xaa, 0xbb])?)?;
    list.push(Delivery::Lost(4))?;
    list.push(got(alloc, 8, 2, &[1])?)?;
    list.push(Delivery::Empty)?;
    Ok(ListTap::new(list, 3, 2))
}

/// How a packet comes to its frame: by a buffer that it is copied to, or from its place in the ring.
#[derive(Clone, Copy, Debug)]
enum Way {
    Copied,
    Held,
}

const WAYS: [Way; 2] = [Way::Copied, Way::Held];

/// Relays one way.
fn relay<T: Lend, W: Sink>(
    way: Way,
    tap: &mut T,
    sink: &mut W,
    channels: &TrackChannels,
    n: u64,
) -> OutReport {
    match way {
        Way::Copied => {
            let mut buf = [0; 65_535];
            let most = tap.packet_bytes();
            relay_out(tap, sink, channels, n, &mut buf[..most])
        }
        Way::Held => relay_out_held(tap, sink, channels, n),
    }
}

/// Relays the row into a sink with this room.
fn relay_row(
    rt: &impl Abort,
    alloc: Global,
    way: Way,
    room: usize,
    n: u64,
) -> (OutReport, ListSink, Account) {
    let mut tap = row_frames_out(alloc).expect(rt, "memory");
    let mut sink = ListSink::new(alloc, room).expect(rt, "memory");
    let report = relay(way, &mut tap, &mut sink, &one_track(4, 5), n);
    (report, sink, tap.account())
}

#[test]
fn row_frames_out_in_any_number_of_takes(rt: HostRuntime) {
    let cases = [
        (0, 0, 0, 0, OutStop::Done),
        (1, 1, 0, 0, OutStop::Done),
        (2, 1, 0, 4, OutStop::Done),
        (3, 1, 1, 4, OutStop::Done),
        (4, 1, 1, 4, OutStop::Empty),
        (9, 1, 1, 4, OutStop::Empty),
        (16, 1, 1, 4, OutStop::Empty),
    ];
    for (n, sent, skipped, lost, stop) in cases {
        let want = OutReport {
            sent,
            skipped,
            lost,
            cut: 0,
            stop,
        };
        for way in WAYS {
            let (report, sink, account) = relay_row(&rt, rt.alloc(), way, 100, n);
            assert_eq!(rt; report, want, "{n} {way:?}");
            assert_eq!(rt;
                (account.taken, account.lost),
                (sent + skipped, lost),
                "{n} {way:?}"
            );
            let len = if sent == 1 { FRAME.len() } else { 0 };
            assert_eq!(rt; sink.bytes(), &FRAME[..len], "{n} {way:?}");
        }
    }
}

#[test]
fn row_frames_out_cut_at_each_byte(rt: HostRuntime) {
    for cut in 0..6 {
        let want = OutReport {
            sent: 0,
            skipped: 0,
            lost: 0,
            cut,
            stop: OutStop::WriteFailed,
        };
        for way in WAYS {
            let (report, sink, _) = relay_row(&rt, rt.alloc(), way, cut, 9);
            assert_eq!(rt; report, want, "{cut} {way:?}");
            assert_eq!(rt; sink.bytes(), &FRAME[..cut], "{cut} {way:?}");
            assert!(rt; sink.has_failed());
        }
    }
}

/// Two losses whose sum is nearly the most that a count holds, and a packet.
fn large_losses(alloc: Global) -> Result<ListTap, AllocError> {
    let mut list = Vec::with_capacity(alloc, 3)?;
    list.push(Delivery::Lost(u64::MAX - 2))?;
    list.push(Delivery::Lost(1))?;
    list.push(got(alloc, u64::MAX - 1, 1, &[0xaa, 0xbb])?)?;
    Ok(ListTap::new(list, 0, 2))
}

/// Relays the two losses and the packet one way. The list, the packet and the sink are three requests for memory. In a run
/// in which the request after the relay is refused it returns the same.
fn relay_large_losses(rt: &impl Abort, alloc: Global, way: Way) {
    let mut tap = large_losses(alloc).expect(rt, "memory");
    let mut sink = ListSink::new(alloc, 6).expect(rt, "memory");
    let report = relay(way, &mut tap, &mut sink, &one_track(5, 4), 3);
    assert_eq!(rt; (report.sent, report.lost), (1, u64::MAX - 1));
    assert_eq!(rt; sink.bytes(), FRAME.as_slice());
    // The next request, which a run may refuse.
    let _behind = Vec::from_elem(alloc, 0u8, 1).is_ok();
}

#[test]
fn losses_of_any_size_are_added(rt: HostRuntime) {
    relay_large_losses(&rt, rt.alloc(), Way::Copied);
}

#[test]
fn losses_of_any_size_are_added_with_packets_held(rt: HostRuntime) {
    relay_large_losses(&rt, rt.alloc(), Way::Held);
}
