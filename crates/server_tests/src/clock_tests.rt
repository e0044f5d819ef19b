//! The moments of a clock.
use relay_connection::ClockMoments;
use session_state::Moments;
use sockets::{Reading, SteadyClock};
use std::alloc::Global;
use std::io;
use std::io::ErrorKind;
use std::process::Abort;
use std::sync::atomic::{AtomicUsize, Ordering};
use std::time::{Clock, Duration};

/// A clock that shows these times, in microseconds, one after another; `None` can't be read.
#[derive(Clone, Copy, Drop)]
struct Shown {
    times: &'static [Option<u64>],
    next: &'static AtomicUsize,
}

impl Shown {
    /// The clock shows the first of them next.
    fn new(rt: &impl Abort, alloc: Global, times: &'static [Option<u64>]) -> Shown {
        let next = Box::new(alloc, AtomicUsize::new(0)).expect(rt, "memory");
        Shown {
            times,
            next: Box::leak(next),
        }
    }
}

impl Clock for Shown {
    fn monotonic(&self) -> io::Result<Duration> {
        let place = self.next.fetch_add(1, Ordering::SeqCst);
        match self.times.get(place) {
            Some(Some(time)) => Ok(Duration::from_micros(*time)),
            _ => Err(io::Error::from(ErrorKind::Unsupported)),
        }
    }

    fn since_1970(&self) -> io::Result<Duration> {
        self.monotonic()
    }

    fn sleep(&self, _duration: Duration) {}
}

/// What a clock shows when its moments begin and at each of them, and the moments.
const ROWS: [(&[Option<u64>], &[u64]); 3] = [
    (
        &[
            Some(5_000_000),
            Some(5_000_999),
            Some(5_001_000),
            Some(65_000_000),
            Some(86_405_000_000),
        ],
        &[0, 1, 60_000, 86_400_000],
    ),
    // It can't be read for a while, and shows an earlier time than before.
    (
        &[Some(1_000), Some(8_000), None, Some(2_000), Some(9_500)],
        &[7, 7, 7, 8],
    ),
    // It couldn't be read when its moments began.
    (&[None, Some(8_000), Some(9_000)], &[0, 0]),
];

#[test]
fn moments_are_milliseconds_of_a_clock_that_does_not_go_back(rt: HostRuntime) {
    let alloc = rt.alloc();
    for (place, (times, want)) in ROWS.iter().enumerate() {
        let mut moments = ClockMoments::new(Shown::new(&rt, alloc, times));
        for moment in want.iter() {
            assert!(rt; moments.now() == *moment, "row {place}: {moment}");
        }
    }
}

/// What a clock shows when it is made and at each reading, and each moment in microseconds, with whether it was read.
const READINGS: [(&[Option<u64>], &[(u64, bool)]); 2] = [
    (
        &[Some(1_000), Some(8_000), None, Some(2_000), Some(9_500)],
        &[(7_000, true), (7_000, false), (7_000, true), (8_500, true)],
    ),
    (&[None, Some(8_000)], &[(0, false)]),
];

#[test]
fn a_reading_that_fails_is_the_last_moment(rt: HostRuntime) {
    let alloc = rt.alloc();
    for (place, (times, want)) in READINGS.iter().enumerate() {
        let shown = Shown::new(&rt, alloc, times);
        let mut clock = SteadyClock::new(&shown);
        for (moment, is_read) in want.iter() {
            let reading = Reading {
                moment: *moment,
                is_read: *is_read,
            };
            assert!(rt; clock.read(&shown) == reading, "row {place}: {moment}");
        }
    }
}
