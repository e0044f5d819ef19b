//! The offers of ANNOUNCE requests, a few of which are unused at a time.
use crate::connection_tests::{ANNOUNCE, ANNOUNCED, NO_RING};
use crate::devices::joined;
use crate::moments::Still;
use crate::rings::Rings;
use crate::serving::{book_of, shared_over, told_by};
use crate::words::OneWord;
use mount_signals::WakeSignal;
use relay_fanout::{Offer, Offers, RingMaker};
use std::alloc::Global;
use std::sync::Arc;
use std::thread;
use std::time::{Duration, Instant};

/// How many offers may be unused.
const MOST: u64 = 4;

/// Each of them makes a ring of its own.
#[test]
fn a_mount_leaves_its_offer_to_the_next(rt: HostRuntime) {
    let alloc = rt.alloc();
    let book = book_of(&rt, alloc, 1, 6);
    let shared = shared_over(&rt, alloc, book, Rings::of(&rt, alloc, 1), OneWord);
    for conn in 1..MOST + 3 {
        let said = joined(&rt, alloc, &[ANNOUNCE]);
        assert!(rt;
            told_by(rt, alloc, &shared, conn, said, Still).as_slice() == ANNOUNCED,
            "{conn}"
        );
    }
}

/// More rings are refused memory than offers may be unused, and then one is made.
#[test]
fn a_ring_that_cannot_be_made_is_no_offer(rt: HostRuntime) {
    let alloc = rt.alloc();
    let book = book_of(&rt, alloc, 1, 1);
    let rings = Rings::refusing(&rt, alloc, 0..MOST + 1);
    let shared = shared_over(&rt, alloc, book, rings, OneWord);
    let mut said = Vec::new(alloc);
    let mut want = Vec::new(alloc);
    for _ in 0..MOST + 1 {
        said.extend_from_slice(ANNOUNCE).expect(&rt, "memory");
        want.extend_from_slice(NO_RING).expect(&rt, "memory");
    }
    said.extend_from_slice(ANNOUNCE).expect(&rt, "memory");
    want.extend_from_slice(ANNOUNCED).expect(&rt, "memory");
    assert!(rt; told_by(rt, alloc, &shared, 1, said, Still).as_slice() == want.as_slice());
}

/// A fifth one is waited for, and refused after two seconds. After a mount uses one of the four, it may be made.
#[test]
fn four_offers_may_stand_in_no_mount(rt: HostRuntime) {
    let offers: Offers<RingMaker> = Offers::new();
    for _ in 0..MOST {
        assert!(rt; matches!(offers.take(&rt), Ok(None)));
    }
    let began = Instant::now(&rt).expect(&rt, "a clock");
    assert!(rt; offers.take(&rt).is_err());
    let passed = Instant::now(&rt)
        .expect(&rt, "a clock")
        .duration_since(began);
    assert!(rt; passed >= Duration::from_millis(1_900));
    offers.leave(&rt);
    assert!(rt; matches!(offers.take(&rt), Ok(None)));
}

/// It waits no longer than for that.
#[test]
fn a_fifth_offer_may_be_made_once_one_of_four_is_left(rt: HostRuntime) {
    let alloc = rt.alloc();
    let offers: Arc<Offers<RingMaker>, Global> = Arc::new(alloc, Offers::new()).expect(
        &rt, "memory",
    );
    for _ in 0..MOST {
        assert!(rt; matches!(offers.take(&rt), Ok(None)));
    }
    let theirs = Arc::try_clone(&offers).expect(&rt, "a count of its users");
    let began = Instant::now(&rt).expect(&rt, "a clock");
    let fifth = thread::spawn(&rt, move || matches!(theirs.take(&rt), Ok(None)));
    thread::sleep(&rt, Duration::from_millis(100));
    offers.leave(&rt);
    assert!(rt; fifth.expect(&rt, "a thread").join(&rt));
    let passed = Instant::now(&rt)
        .expect(&rt, "a clock")
        .duration_since(began);
    assert!(rt; passed < Duration::from_millis(1_900));
}

/// It is given the one that opened no mount, and waits no longer than for that.
#[test]
fn a_fifth_is_given_the_offer_that_comes_back(rt: HostRuntime) {
    let alloc = rt.alloc();
    let offers: Arc<Offers<RingMaker>, Global> = Arc::new(alloc, Offers::new()).expect(
        &rt, "memory",
    );
    for _ in 0..MOST {
        assert!(rt; matches!(offers.take(&rt), Ok(None)));
    }
    let wake_signal = Arc::new(alloc, WakeSignal::new()).expect(&rt, "memory");
    let unused = Offer::make(alloc, &RingMaker::new(8, 1, 16), &wake_signal).expect(&rt, "memory");
    let theirs = Arc::try_clone(&offers).expect(&rt, "a count of its users");
    let began = Instant::now(&rt).expect(&rt, "a clock");
    let fifth = thread::spawn(&rt, move || matches!(theirs.take(&rt), Ok(Some(_))));
    thread::sleep(&rt, Duration::from_millis(100));
    offers.put(&rt, unused);
    assert!(rt; fifth.expect(&rt, "a thread").join(&rt));
    let passed = Instant::now(&rt)
        .expect(&rt, "a clock")
        .duration_since(began);
    assert!(rt; passed < Duration::from_millis(1_900));
}
