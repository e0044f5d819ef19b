//! A pass reads nothing after a failed write. No contract states this of the two devices of a pass, so it is tested.
ghost use Rattle.std.specs.Prelude.{None};

use crate::ring::pass_tests::{OPTIONS, put_frame};
use crate::ring::player_tests::one_track;
use interleaved::{Failed, ListSource, Sink, Source};
use relay_pass::{Pace, PassReport, PassStop, RingSize, pass_over_new_ring};
use rtsp_message::Intake;
use std::alloc::Global;
use std::cell::Cell;
use std::process::Abort;

/// How many packets a stream has.
const PACKETS: u64 = 200;

/// What happened at the two devices of a pass.
#[derive(Drop)]
struct Peer {
    /// The sink has refused a write.
    has_refused: Cell<bool>,
    /// A read came after that.
    late: Cell<bool>,
}

/// A source that notes a read after a refused write.
#[derive(Drop)]
struct Noting<'a, S> {
    inner: S,
    peer: &'a Peer,
}

impl<S: Source> Source for Noting<'_, S> {
    ghost incoming = { λ s. S.incoming s.inner };

    ghost bound = { λ s. S.bound s.inner };

    ghost failed = { λ s. S.failed s.inner };

    ghost gives = { λ old bytes new. S.gives old.inner bytes new.inner };

    fn read(&mut self, buf: &mut [u8]) -> Result<usize, Failed> {
        if self.peer.has_refused.get() {
            self.peer.late.set(true);
        }
        self.inner.read(buf)
    }

    fn left(&self) -> u64 {
        self.inner.left()
    }

    fn has_failed(&self) -> bool {
        self.inner.has_failed()
    }
}

/// A sink that takes this number of writes, each whole, and refuses the next one.
#[derive(Drop)]
struct Refusing<'a> {
    writes: u64,
    failed: bool,
    peer: &'a Peer,
}

impl Sink for Refusing<'_> {
    ghost written = { λ _. None };

    ghost failed = { λ s. s.failed };

    fn write(&mut self, bytes: &[u8]) -> Result<usize, Failed> {
        if self.failed || self.writes == 0 {
            self.failed = true;
            self.peer.has_refused.set(true);
            return Err(Failed);
        }
        self.writes -= 1;
        Ok(bytes.len())
    }

    fn has_failed(&self) -> bool {
        self.failed
    }
}

/// A stream of packets, each with a message and a frame of no track after it.
fn stream_of(rt: &impl Abort, alloc: Global) -> Vec<u8> {
    let mut stream = Vec::new(alloc);
    for number in 0..PACKETS {
        put_frame(rt, &mut stream, 0, number as u8);
        stream.extend_from_slice(OPTIONS).expect(rt, "memory");
        put_frame(rt, &mut stream, 7, 0);
    }
    stream
}

/// How many bytes of such a stream come before the end of its frame with this number, counted from 1.
fn bytes_up_to(frame: u64) -> u64 {
    let pairs = (frame / 2).saturating_mul(17 + OPTIONS.len() as u64 + 17);
    pairs.saturating_add((frame % 2) * 17)
}

/// How bytes come, a pass goes and a write fails: at most `piece` bytes a read, and `writes` writes before the failed one.
#[derive(Clone, Copy, Debug)]
struct Case {
    piece: usize,
    pace: Pace,
    writes: u64,
}

/// The report of a pass, how many bytes it has read, and whether some of them after a refused write.
#[derive(Drop)]
struct Outcome {
    report: PassReport,
    read: u64,
    late: bool,
}

/// Passes the stream on over a ring that keeps all its packets.
fn outcome_of(rt: &impl Abort, alloc: Global, case: Case) -> Outcome {
    let peer = Peer {
        has_refused: Cell::new(false),
        late: Cell::new(false),
    };
    let stream = stream_of(rt, alloc);
    let bytes = stream.len() as u64;
    let inner = ListSource::new(stream, case.piece.max(1), None);
    let mut intake = Intake::new(alloc, Noting { inner, peer: &peer });
    let mut sink = Refusing {
        writes: case.writes,
        failed: false,
        peer: &peer,
    };
    let size = RingSize {
        keep: 512,
        packet_bytes: 64,
    };
    assert!(rt; 1 <= case.pace.frames && 1 <= case.pace.takes);
    let report = pass_over_new_ring(
        alloc,
        size,
        &mut intake,
        &mut sink,
        &one_track(0, 1),
        &one_track(4, 5),
        case.pace,
    )
    .expect(rt, "memory");
    let left = intake.into_source().left();
    Outcome {
        report,
        read: bytes.saturating_sub(left),
        late: peer.late.get(),
    }
}

/// Returns whether the write after these failed. A frame is two writes: of its four bytes before the packet, and of that.
fn is_cut_after(report: &PassReport, writes: u64) -> bool {
    let cut = if writes % 2 == 0 { 0 } else { 4 };
    report.stop == PassStop::WriteFailed && (report.went.sent, report.went.cut) == (writes / 2, cut)
}

/// Returns whether no byte was read after the failed write, and none before it that no frame or message up to there needed.
fn reads_no_more(outcome: &Outcome, piece: usize) -> bool {
    let came = outcome.report.came;
    let needed = bytes_up_to(came.published.saturating_add(came.strangers));
    let piece = (piece as u64).max(1);
    !outcome.late && outcome.read == needed.div_ceil(piece).saturating_mul(piece)
}

/// Returns whether no more packets were published than the takes that were made allow, and those of one turn more.
fn goes_in_turns(report: &PassReport, pace: Pace) -> bool {
    let went = report.went;
    // The packet whose frame was cut was taken, too.
    let taken = went
        .sent
        .saturating_add(went.skipped)
        .saturating_add(went.lost)
        .saturating_add(1);
    let most = pace.frames.saturating_mul(taken.saturating_add(pace.takes));
    pace.takes.saturating_mul(report.came.published) <= most
}

#[test]
fn nothing_is_read_after_a_failed_write(rt: HostRuntime) {
    for (frames, takes) in [(1, 1), (4, 1), (1, 4), (64, 1)] {
        for piece in [1, 40] {
            for writes in [0, 1, 6, 7] {
                let pace = Pace { frames, takes };
                let case = Case {
                    piece,
                    pace,
                    writes,
                };
                let outcome = outcome_of(&rt, rt.alloc(), case);
                assert!(rt; is_cut_after(&outcome.report, writes), "{case:?}");
                assert!(rt; reads_no_more(&outcome, piece), "{case:?}");
            }
        }
    }
}

/// A pass whose turns publish more frames than they take. Nothing is lost, since the ring keeps all packets.
#[test]
fn few_are_published_before_a_failed_write(rt: HostRuntime) {
    for (frames, takes) in [(4, 1), (64, 1), (9, 2)] {
        for writes in [0, 1, 2, 7] {
            let pace = Pace { frames, takes };
            let case = Case {
                piece: 100,
                pace,
                writes,
            };
            let report = outcome_of(&rt, rt.alloc(), case).report;
            assert!(rt; is_cut_after(&report, writes), "{case:?}");
            assert!(rt; goes_in_turns(&report, pace), "{case:?}");
        }
    }
}
