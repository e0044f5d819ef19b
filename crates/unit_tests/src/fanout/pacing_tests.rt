//! A publish that is retried.
ghost use Rattle.std.specs.Prelude.{None, ⊤};

use cursor::{Feed, Refused};
use pacing::{Pause, Retrying, Round};
use std::cell::Cell;

/// What was done, in order, as the digits of a number: a try is 1, and a pause with the number that is due is 2.
#[derive(Drop)]
struct Done {
    digits: Cell<u64>,
    pauses: Cell<u32>,
}

impl Done {
    fn new() -> Done {
        Done {
            digits: Cell::new(0),
            pauses: Cell::new(0),
        }
    }

    fn add(&self, digit: u64) {
        self.digits
            .set(self.digits.get().wrapping_mul(10).wrapping_add(digit));
    }

    /// Returns what was done since the last call, and how many pauses there were.
    fn take(&self) -> (u64, u32) {
        (self.digits.replace(0), self.pauses.replace(0))
    }
}

/// A feed of packets of at most four bytes that refuses `refusals` publishes as pinned, and numbers those that it takes.
#[derive(Drop)]
struct Pinned<'a> {
    refusals: u64,
    number: u64,
    done: &'a Done,
}

impl Feed for Pinned<'_> {
    ghost told = { λ _. None };

    ghost packet_bytes = { λ _. 4 };

    ghost may_refuse = { λ _. ⊤ };

    ghost publish_gives = { λ _ _ _ _. ⊤ };

    fn publish(&mut self, _tag: u8, bytes: &[u8]) -> Result<u64, Refused> {
        self.done.add(1);
        if bytes.len() > 4 {
            return Err(Refused::TooLong);
        }
        if self.refusals > 0 {
            self.refusals -= 1;
            return Err(Refused::Pinned { pins: 1 });
        }
        self.number = self.number.wrapping_add(1);
        Ok(self.number)
    }

    fn packet_bytes(&self) -> usize {
        4
    }

    fn close(self) {}
}

/// Counts the pauses between tries, whose numbers go up from 0.
#[derive(Drop)]
struct Counted<'a>(&'a Done);

impl Pause for Counted<'_> {
    fn pause(&mut self, number: u32) {
        if number == self.0.pauses.get() {
            self.0.pauses.set(number.wrapping_add(1));
            self.0.add(2);
        }
    }
}

/// A feed that retries, over one that refuses `refusals` publishes as pinned.
fn retrying(refusals: u64, done: &Done) -> Retrying<Pinned<'_>, Counted<'_>> {
    let feed = Pinned {
        refusals,
        number: 0,
        done,
    };
    Retrying::new(feed, Counted(done))
}

/// Three tries meet a reader, with a pause after each, and the fourth publishes, once.
#[test]
fn a_pinned_publish_is_tried_again(rt: HostRuntime) {
    let done = Done::new();
    let mut feed = retrying(3, &done);
    assert!(rt; feed.publish(0, b"A") == Ok(1) && done.take() == (1_212_121, 3));
    assert!(rt; feed.publish(0, b"B") == Ok(2) && done.take() == (1, 0));
}

/// A reader that stays is waited for once, and then each publish is tried once until one goes through: one that is too long
/// doesn't.
#[test]
fn a_publish_that_stays_pinned_is_given_up(rt: HostRuntime) {
    let done = Done::new();
    let mut feed = retrying(43, &done);
    let pinned = Err(Refused::Pinned { pins: 1 });
    assert!(rt; feed.publish(0, b"long A") == Err(Refused::TooLong) && done.take() == (1, 0));
    assert!(rt; feed.publish(0, b"A") == pinned && done.take().1 == 40);
    assert!(rt; feed.publish(0, b"long A") == Err(Refused::TooLong) && done.take() == (1, 0));
    assert!(rt; feed.publish(0, b"B") == pinned && done.take() == (1, 0));
    assert!(rt; feed.publish(0, b"C") == pinned && done.take() == (1, 0));
    assert!(rt; feed.publish(0, b"D") == Ok(1) && done.take() == (1, 0));
}

/// There is a place for each of the most seats that a mount may have.
#[test]
fn the_last_of_1024_seats_is_awaited(rt: HostRuntime) {
    let mut round = Round::new(rt.alloc(), 1024).expect(&rt, "memory");
    assert!(rt; !round.join(1023) && !round.level(1023, 5));
    assert!(rt; round.open(9) == 1 && !round.reach(1023, 8) && round.reach(1023, 9));
}
