//! A publisher's stream that goes through a ring to a player, at several paces, with losses, and over devices that fail.

use interleaved::{ListSink, ListSource, Sink};
use relay_pass::{Pace, PassReport, PassStop, RingSize, StreamEnd, pass_over_new_ring};
use rtsp_message::{Fault, Intake};
use std::alloc::Global;
use std::process::Abort;
use transport_header::{ChannelPair, TrackChannels};

/// An RTP packet of twelve bytes.
const RTP: [u8; 12] = [0x80, 0x60, 0, 7, 0, 0, 0x23, 0x28, 0, 0, 0, 0];

pub(crate) const OPTIONS: &[u8] = b"OPTIONS * RTSP/1.0\r\nCSeq: 1\r\n\r\n";

/// Track 0 on two channels.
fn one_track(first: u8, second: u8) -> TrackChannels {
    let mut channels = TrackChannels::new();
    let pair = ChannelPair { first, second };
    if channels.may_have(0, pair) {
        channels.set(0, pair);
    }
    channels
}

/// Appends the frame of an RTP packet that ends with this byte.
pub(crate) fn put_frame(rt: &impl Abort, bytes: &mut Vec<u8>, channel: u8, last: u8) {
    bytes
        .extend_from_slice(&[0x24, channel, 0, 13])
        .expect(rt, "memory");
    bytes.extend_from_slice(&RTP).expect(rt, "memory");
    bytes.push(last).expect(rt, "memory");
}

/// Two frames, a message, a frame of no track, RTCP, and a frame more.
fn row(rt: &impl Abort, alloc: Global) -> Vec<u8> {
    let mut stream = Vec::new(alloc);
    put_frame(rt, &mut stream, 0, 1);
    put_frame(rt, &mut stream, 0, 2);
    stream.extend_from_slice(OPTIONS).expect(rt, "memory");
    put_frame(rt, &mut stream, 7, 3);
    put_frame(rt, &mut stream, 1, 4);
    put_frame(rt, &mut stream, 0, 5);
    stream
}

/// Passes a stream on over a ring that keeps `keep` packets, into a sink with this room.
fn passed(
    rt: &impl Abort,
    alloc: Global,
    source: ListSource,
    room: usize,
    keep: usize,
    pace: Pace,
) -> (PassReport, ListSink) {
    let mut intake = Intake::new(alloc, source);
    let mut sink = ListSink::new(alloc, room).expect(rt, "memory");
    assert!(rt; 1 <= keep && keep <= 4_095 && 1 <= pace.frames && 1 <= pace.takes);
    let size = RingSize {
        keep,
        packet_bytes: 64,
    };
    let report = pass_over_new_ring(
        alloc,
        size,
        &mut intake,
        &mut sink,
        &one_track(0, 1),
        &one_track(4, 5),
        pace,
    )
    .expect(rt, "memory");
    (report, sink)
}

#[test]
fn row_passes_on_at_any_pace(rt: HostRuntime) {
    let alloc = rt.alloc();
    let mut frames = Vec::new(alloc);
    put_frame(&rt, &mut frames, 4, 1);
    put_frame(&rt, &mut frames, 4, 2);
    put_frame(&rt, &mut frames, 5, 4);
    put_frame(&rt, &mut frames, 4, 5);
    for (frames_a_turn, takes) in [(1, 1), (1, 9), (9, 1), (2, 2), (u64::MAX, u64::MAX)] {
        let pace = Pace {
            frames: frames_a_turn,
            takes,
        };
        let source = ListSource::new(row(&rt, alloc), 5, None);
        let (report, sink) = passed(&rt, alloc, source, 1_000, 4, pace);
        assert!(rt; report.stop == PassStop::Stream(StreamEnd::End));
        assert!(rt; report.came.published == 4 && report.came.strangers == 1);
        assert!(rt; report.came.pinned == 0 && report.came.bad_rtp == 0);
        assert!(rt; report.went.sent == 4 && report.went.lost == 0 && report.went.cut == 0);
        assert!(rt; sink.bytes() == frames.as_slice());
    }
}

#[test]
fn a_seat_that_falls_behind_loses(rt: HostRuntime) {
    let alloc = rt.alloc();
    let mut frames = Vec::new(alloc);
    put_frame(&rt, &mut frames, 4, 5);
    let pace = Pace {
        frames: 9,
        takes: 1,
    };
    let source = ListSource::new(row(&rt, alloc), 40, None);
    let (report, sink) = passed(&rt, alloc, source, 1_000, 1, pace);
    assert!(rt; report.stop == PassStop::Stream(StreamEnd::End));
    assert!(rt; report.came.published == 4);
    assert!(rt; report.went.lost == 3 && report.went.sent == 1);
    assert!(rt; sink.bytes() == frames.as_slice());
}

#[test]
fn a_failed_write_stops(rt: HostRuntime) {
    let alloc = rt.alloc();
    let pace = Pace {
        frames: 1,
        takes: 1,
    };
    let source = ListSource::new(row(&rt, alloc), 40, None);
    let (report, sink) = passed(&rt, alloc, source, 20, 4, pace);
    assert!(rt; report.stop == PassStop::WriteFailed);
    assert!(rt; report.went.sent == 1 && report.went.cut == 3);
    assert!(rt; report.came.published == 2);
    assert!(rt; sink.has_failed());
}

#[test]
fn a_failed_read_and_a_fault_stop(rt: HostRuntime) {
    let alloc = rt.alloc();
    let pace = Pace {
        frames: 3,
        takes: 2,
    };
    let source = ListSource::new(row(&rt, alloc), 40, Some(20));
    let (report, _sink) = passed(&rt, alloc, source, 1_000, 4, pace);
    assert!(rt; report.stop == PassStop::Stream(StreamEnd::ReadFailed));
    assert!(rt; report.came.published == 1 && report.went.sent == 1);

    let mut stream = row(&rt, alloc);
    stream
        .extend_from_slice(b"no request\r\n\r\n")
        .expect(&rt, "memory");
    let source = ListSource::new(stream, 40, None);
    let (report, _sink) = passed(&rt, alloc, source, 1_000, 4, pace);
    assert!(rt; report.stop == PassStop::Stream(StreamEnd::Fault(Fault::BadLine)));
    assert!(rt; report.came.published == 4 && report.went.sent == 4);
}
