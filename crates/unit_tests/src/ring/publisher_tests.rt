//! Frames that come in and are published.
ghost use Rattle.std.specs.Prelude.{None, ⊤};

use crate::ring::player_tests::one_track;
use cursor::{Feed, Packet, PlainFeed, PlainLog, PlainTap, Refused, pump};
use interleaved::{Failed, ListSource, Source};
use publisher::{InReport, InStop, relay_in};
use rtsp_message::Intake;
use std::alloc::Global;
use std::cell::Cell;
use std::process::Abort;
use transport_header::{Point, TrackChannels};

/// An RTP packet of twelve bytes: number 7, timestamp 9000.
const RTP: [u8; 12] = [0x80, 0x60, 0, 7, 0, 0, 0x23, 0x28, 0, 0, 0, 0];

/// A feed of packets of at most twelve bytes that takes each of them, and counts them.
#[derive(Drop)]
struct Counting<'a> {
    published: &'a Cell<usize>,
}

impl Feed for Counting<'_> {
    ghost told = { λ _. None };

    ghost packet_bytes = { λ _. 12 };

    ghost may_refuse = { λ _. ⊤ };

    ghost publish_gives = { λ _ _ _ _. ⊤ };

    fn publish(&mut self, _tag: u8, bytes: &[u8]) -> Result<u64, Refused> {
        if bytes.len() > self.packet_bytes() {
            return Err(Refused::TooLong);
        }
        self.published.set(self.published.get().saturating_add(1));
        Ok(0)
    }

    fn packet_bytes(&self) -> usize {
        12
    }

    fn close(self) {}
}

/// A source of frames of sixteen bytes that checks, at each read, whether all that it gave whole were published.
#[derive(Drop)]
struct Passing<'a, S> {
    inner: S,
    given: usize,
    published: &'a Cell<usize>,
    /// A read came before the frames were published.
    late: &'a Cell<bool>,
}

impl<S: Source> Source for Passing<'_, S> {
    ghost incoming = { λ s. S.incoming s.inner };

    ghost bound = { λ s. S.bound s.inner };

    ghost failed = { λ s. S.failed s.inner };

    ghost gives = { λ old bytes new. S.gives old.inner bytes new.inner };

    fn read(&mut self, buf: &mut [u8]) -> Result<usize, Failed> {
        if self.published.get() < self.given / 16 {
            self.late.set(true);
        }
        let count = self.inner.read(buf)?;
        self.given = self.given.wrapping_add(count);
        Ok(count)
    }

    fn left(&self) -> u64 {
        self.inner.left()
    }

    fn has_failed(&self) -> bool {
        self.inner.has_failed()
    }
}

/// The points of sixteen tracks, none of which has one.
const NO_POINTS: [Option<Point>; 16] = [None; 16];

/// Returns the point of an RTP packet with this number.
fn point(seq: u16) -> Point {
    Point { seq, rtptime: 9000 }
}

/// Relays a stream's frames into any feed, and returns the report.
fn relay<F: Feed>(
    alloc: Global,
    stream: Vec<u8>,
    feed: &mut F,
    channels: &TrackChannels,
    points: &mut [Option<Point>; 16],
) -> InReport {
    let mut intake = Intake::new(alloc, ListSource::new(stream, 15, None));
    let _sixteen = channels.pair_of(0);
    relay_in(&mut intake, feed, channels, points)
}

/// Returns the seven counts, and a word for the stop.
fn told(report: &InReport) -> ([u64; 7], &'static str) {
    let counts = [
        report.published,
        report.pinned,
        report.oversize,
        report.worn,
        report.unkept,
        report.bad_rtp,
        report.strangers,
    ];
    let stop = match &report.stop {
        InStop::Message(_) => "message",
        InStop::End => "end",
        InStop::Fault(_) => "fault",
        InStop::ReadFailed => "read failed",
        InStop::OutOfMemory => "out of memory",
    };
    (counts, stop)
}

/// Appends a frame with `len` bytes of data: an RTP packet whose first byte is this one, cut off after them.
fn put_rtp(rt: &impl Abort, stream: &mut Vec<u8>, channel: u8, first: u8, len: u8) {
    stream
        .extend_from_slice(&[0x24, channel, 0, len])
        .expect(rt, "memory");
    for at in 0..len {
        let byte = if at == 0 {
            first
        } else {
            *RTP.get(usize::from(at)).unwrap_or(&0)
        };
        stream.push(byte).expect(rt, "memory");
    }
}

/// A feed of packets of at most twelve bytes, whose log has one seat that reads it from the start.
fn logged(rt: &impl Abort, alloc: Global) -> PlainFeed {
    let mut log = PlainLog::new(alloc, 9, 1, 12).expect(rt, "memory");
    log.attach(0);
    assert!(rt; !log.is_closed());
    PlainFeed::new(log)
}

/// The packets that were published.
fn packets_of(rt: &impl Abort, alloc: Global, feed: PlainFeed) -> Vec<Packet> {
    let log = feed.into_log();
    assert!(rt; log.is_attached(0));
    let mut packets = Vec::new(alloc);
    let pumped = pump(alloc, &mut PlainTap::new(log, 0), 99, &mut packets);
    assert!(rt; pumped.is_ok());
    packets
}

/// Returns whether these are the two packets of the row.
fn are_of_the_row(packets: &[Packet]) -> bool {
    match packets {
        [first, second] => {
            first.tag == 0
                && first.bytes.as_slice() == RTP.as_slice()
                && second.tag == 1
                && second.bytes.as_slice().is_empty()
        }
        _ => false,
    }
}

#[test]
fn row_frames_in(rt: HostRuntime) {
    let alloc = rt.alloc();
    let mut stream = Vec::new(alloc);
    // The channel, the first byte and the length of each frame.
    let frames = [
        (0, 0x80, 12),
        (0, 0x80, 11),
        (0, 0x80, 13),
        (0, 0x81, 13),
        (1, 0, 0),
        (2, 0x80, 12),
        (0, 0x40, 12),
        (1, 0, 13),
        (0, 0x80, 0),
    ];
    for (channel, first, len) in frames {
        put_rtp(&rt, &mut stream, channel, first, len);
    }
    let mut feed = logged(&rt, alloc);
    let mut points = NO_POINTS;
    let channels = one_track(0, 1);
    let report = relay(alloc, stream, &mut feed, &channels, &mut points);
    assert_eq!(rt; told(&report), ([2, 0, 2, 0, 0, 4, 1], "end"));
    assert!(rt; points[0] == Some(point(7)) && points[1] == None);
    let packets = packets_of(&rt, alloc, feed);
    assert!(rt; are_of_the_row(packets.as_slice()));
}

/// Appends an RTP packet of twelve bytes with this number as a frame on channel 0.
fn put_numbered(rt: &impl Abort, stream: &mut Vec<u8>, number: u8) {
    stream
        .extend_from_slice(&[0x24, 0, 0, 12, 0x80, 0x60, 0, number])
        .expect(rt, "memory");
    stream.extend_from_slice(&RTP[4..]).expect(rt, "memory");
}

#[test]
fn each_frame_is_offered_before_more_is_read(rt: HostRuntime) {
    for piece in [1, 15, 16, 17, 40, 100] {
        let mut stream = Vec::new(rt.alloc());
        for number in 0..5 {
            put_numbered(&rt, &mut stream, number);
        }
        let published = Cell::new(0);
        let late = Cell::new(false);
        let source = Passing {
            inner: ListSource::new(stream, piece, None),
            given: 0,
            published: &published,
            late: &late,
        };
        let mut feed = Counting {
            published: &published,
        };
        let channels = one_track(0, 1);
        let mut points = NO_POINTS;
        let _sixteen = channels.pair_of(0);
        let mut intake = Intake::new(rt.alloc(), source);
        let report = relay_in(&mut intake, &mut feed, &channels, &mut points);
        assert_eq!(rt;
            (report.published, published.get(), late.get()),
            (5, 5, false),
            "{piece}"
        );
    }
}

/// The frames that were published or that there was no memory for.
fn published_or_unkept(report: &InReport) -> u64 {
    report.published.saturating_add(report.unkept)
}

#[test]
fn no_frame_is_lost_where_memory_is_refused(rt: HostRuntime) {
    let alloc = rt.alloc();
    let mut stream = Vec::new(alloc);
    for number in 0..5 {
        put_numbered(&rt, &mut stream, number);
    }
    let mut feed = logged(&rt, alloc);
    let mut points = NO_POINTS;
    let channels = one_track(0, 1);
    let _sixteen = channels.pair_of(0);
    let mut intake = Intake::new(alloc, ListSource::new(stream, 40, None));
    // A run in which one request for memory is refused ends early, or leaves one frame unkept.
    let first = relay_in(&mut intake, &mut feed, &channels, &mut points);
    let second = relay_in(&mut intake, &mut feed, &channels, &mut points);
    let all = published_or_unkept(&first).saturating_add(published_or_unkept(&second));
    assert_eq!(rt; (all, told(&second).1), (5, "end"));
}
