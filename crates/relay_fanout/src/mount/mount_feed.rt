//! The feed of a mount, which also posts each track's point and wakes the players.
ghost use Rattle.std.specs.Prelude.{◌≡◌, false};
ghost use Rattle.pacing.specs.Retrying.{PublishesAtLast};

use crate::flow::opened_round::OpenedRound;
use crate::flow::pauses::Pauses;
use crate::mount::stretches::{ForPlayers, Stretches, is_worth_a_wait};
use cursor::{Feed, Refused};
use mount_signals::{MountSignal, WakeSignal, close_log, publish_into};
use pacing::{Allowance, Retrying};
use publisher::point_to_post;
use sockets::{Reading, SteadyClock};
use std::alloc::Global;
use std::marker::Model;
use std::sync::{Arc, Wait};
use std::time::{Clock, Duration};

/// A feed that posts, for each packet that it takes, the point of its track, and signals that there is something to take.
/// A publish that meets a player in the middle of a copy is retried.
///
/// Its model is the feed that is retried.
#[derive(Drop)]
pub struct MountFeed<R, F> {
    rt: R,
    feed: Retrying<F, Pauses<R>>,
    signal: Arc<MountSignal, Global>,
    wake_signal: Arc<WakeSignal, Global>,
    /// Whether the waking thread knows of the mount; else its players are woken at each packet.
    registered: bool,
    stretches: Stretches,
    allowance: Allowance,
    /// For how many microseconds it has waited in total.
    waited: u64,
    clock: SteadyClock,
}

impl<R, F> Model for MountFeed<R, F> {
    ghost use Rattle.pacing.specs.Retrying.{Retried};

    ghost Value = { Retried F };

    ghost view = { λ p. p.feed };
}

impl<R: Clock + Copy + Drop, F: Drop> MountFeed<R, F> {
    /// A feed over one that keeps `keep` packets for players that are behind.
    pub fn new(
        rt: R,
        feed: F,
        signal: Arc<MountSignal, Global>,
        wake_signal: Arc<WakeSignal, Global>,
        keep: u64,
    ) -> MountFeed<R, F>
        ensures { result ≡ record { feed = feed; gave_up = false } }
    {
        MountFeed {
            rt,
            feed: Retrying::new(feed, Pauses::new(rt)),
            signal,
            wake_signal,
            registered: false,
            stretches: Stretches::new(keep),
            allowance: Allowance::new(),
            waited: 0,
            clock: SteadyClock::new(&rt),
        }
    }
}

impl<R: Clock + Drop, F: Feed> MountFeed<R, F> {
    /// Ends the feed, and wakes the players to see it. Returns for how many milliseconds packets waited for them.
    pub fn end(self) -> u64 {
        let waited = self.waited / 1000;
        let MountFeed {
            rt: _,
            feed,
            signal,
            ..
        } = self;
        signal.end(close_log(feed));
        waited
    }

    /// Returns the signal of the mount's players.
    pub fn signal(&self) -> &Arc<MountSignal, Global> {
        &self.signal
    }

    /// Returns whether the waking thread knows of the mount; else its players are woken at each packet.
    pub fn is_registered(&self) -> bool {
        self.registered
    }

    /// Sets whether the waking thread knows of the mount.
    pub fn set_registered(&mut self, registered: bool)
        ensures { self.new ≡ self.old }
    {
        self.registered = registered;
    }
}

impl<R: Wait + Clock + Drop, F> MountFeed<R, F> {
    /// Wakes the players if one of those that keep up hasn't taken the last stretch, and waits for them if it is behind by most
    /// of what the ring keeps. The rest of a burst waits in the publisher's socket meanwhile, and not in the ring, which would
    /// lose it for them. Players that are still that far behind when the wait's time is over aren't waited for again until they
    /// have taken all.
    fn keep_pace(&mut self, published: u64)
        ensures { self.new ≡ self.old }
    {
        if !self.stretches.is_due(published) {
            return;
        }
        let slowest = self.signal.pace.slowest(&self.rt, published);
        match self.stretches.next(published, slowest) {
            ForPlayers::Nothing => {}
            ForPlayers::Wake => self.signal.wake(),
            ForPlayers::GiveWay { target } => {
                if !self.give_way(target) {
                    self.signal.wake();
                }
            }
        }
    }

    /// Wakes the players and waits until those that keep up have taken `target` packets. It waits for half of the time that it
    /// may take, and then while some of them get there: a player that stopped reading leaves the rest of the time to those that
    /// read. Returns whether there was anything to wait for.
    fn give_way(&mut self, target: u64) -> bool
        ensures { self.new ≡ self.old }
    {
        let Reading {
            moment: now,
            is_read: true,
        } = self.clock.read(&self.rt)
        else {
            return false;
        };
        let most = self.allowance.left(now);
        if !is_worth_a_wait(most) {
            return false;
        }
        let signal: &MountSignal = &self.signal;
        let Some(opened) = OpenedRound::open(&self.rt, signal, target) else {
            return false;
        };
        // The time of waking counts as waited, too.
        let awaited = opened.wake();
        awaited.wait_while_some_come(&self.rt, &mut self.clock, now, most);
        let then = match self.clock.read(&self.rt) {
            Reading {
                moment,
                is_read: true,
            } => moment,
            _ => now.saturating_add(most),
        };
        self.allowance.spend(now, then);
        self.waited = self.waited.saturating_add(then.saturating_sub(now));
        self.signal.set_slowed(&self.rt, self.waited / 1000);
        true
    }
}

impl<R: Wait + Clock + Drop, F: Feed> Feed for MountFeed<R, F> {
    ghost told = { λ p. F.told p.feed };

    ghost packet_bytes = { λ p. F.packet_bytes p.feed };

    ghost may_refuse = { F.may_refuse };

    ghost publish_gives = { PublishesAtLast F.publish_gives };

    fn publish(&mut self, tag: u8, bytes: &[u8]) -> Result<u64, Refused> {
        let offered = self.signal.offer(&self.rt, tag, bytes);
        let (number, logged) = publish_into(&mut self.feed, offered, tag, bytes)?;
        if let Some((track, point)) = point_to_post(tag, bytes) {
            self.signal.post(&self.rt, &logged, track, point);
        }
        if self.registered {
            if self.signal.mark(logged).notify(&self.wake_signal) {
                self.signal.begin_gathering();
            }
        } else {
            self.signal.wake_for(logged);
        }
        self.keep_pace(number.saturating_add(1));
        Ok(number)
    }

    fn packet_bytes(&self) -> usize {
        self.feed.packet_bytes()
    }

    fn close(self) {
        self.end();
    }
}
