//! A feed that retries what was refused as pinned.
ghost use Rattle.std.specs.Prelude.{◌≡◌, false};
ghost use Rattle.pacing.specs.Retrying.{PublishesAtLast, given_up_after as given_up_behind};

use cursor::{Feed, Refused};
use std::marker::Model;

/// Lets a moment pass between two tries of a publish.
pub trait Pause {
    /// Lets the moment pass after the try with this number, counted from 0 for each publish.
    fn pause(&mut self, number: u32);
}

/// How often a publish that was refused as pinned is retried, at most.
const MOST_TRIES: u32 = 40;

/// A feed that retries a publish that was refused as pinned: a reader was just copying the packet that it would have
/// replaced, and will be gone in a moment. If all tries were refused, the refusal is returned, and no publish is retried
/// until one goes through. So a reader that stays costs its publisher one such wait.
///
/// Its model has the feed in it, and whether the last publish was given up.
#[derive(Drop)]
pub struct Retrying<F, P> {
    feed: F,
    pause: P,
    gave_up: bool,
}

impl<F, P> Model for Retrying<F, P> {
    ghost use Rattle.pacing.specs.Retrying.{Retried};

    ghost Value = { Retried F };

    ghost view = { λ i. record { feed = i.feed; gave_up = i.gave_up } };
}

impl<F: Drop, P: Drop> Retrying<F, P> {
    /// A feed over this one, with what passes the time between tries.
    pub fn new(feed: F, pause: P) -> Retrying<F, P>
        ensures { result ≡ record { feed = feed; gave_up = false } }
    {
        Retrying {
            feed,
            pause,
            gave_up: false,
        }
    }
}

impl<F: Feed, P: Pause + Drop> Feed for Retrying<F, P> {
    ghost told = { λ i. F.told i.feed };

    ghost packet_bytes = { λ i. F.packet_bytes i.feed };

    ghost may_refuse = { F.may_refuse };

    ghost publish_gives = { PublishesAtLast F.publish_gives };

    /// Publishes into the inner feed, and retries if that was refused as pinned.
    fn publish(&mut self, tag: u8, bytes: &[u8]) -> Result<u64, Refused> {
        let most = if self.gave_up { 0 } else { MOST_TRIES };
        for number in 0..most {
            match self.feed.publish(tag, bytes) {
                Err(Refused::Pinned { .. }) => self.pause.pause(number),
                answer => {
                    self.gave_up = given_up_after(self.gave_up, &answer);
                    return answer;
                }
            }
        }
        let answer = self.feed.publish(tag, bytes);
        self.gave_up = given_up_after(self.gave_up, &answer);
        answer
    }

    fn packet_bytes(&self) -> usize {
        self.feed.packet_bytes()
    }

    fn close(self) {
        self.feed.close();
    }
}

/// Returns whether the last publish was given up, after this answer: what is too long or comes too late never reached its
/// place.
fn given_up_after(gave_up: bool, answer: &Result<u64, Refused>) -> bool
    ensures { result ≡ given_up_behind gave_up answer.now }
{
    match answer {
        Ok(_) => false,
        Err(Refused::Pinned { .. }) => true,
        Err(Refused::TooLong | Refused::Worn | Refused::OutOfMemory) => gave_up,
    }
}
