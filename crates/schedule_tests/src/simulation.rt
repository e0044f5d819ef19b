//! A simulated server, and its schedule.
use crate::fault::{Fault, Finding};
use crate::publisher::Publisher;
use crate::reader::Reader;
use crate::waker::Waker;
use crate::world::{MOUNTS, PLAYERS, WRITERS, World, mount_of, writer_of};
use crate::writer::Writer;
use rand::rngs::SmallRng;
use rand_core::{Rng, SeedableRng};
use std::alloc::Global;
use waking::{Next, PlayerState};

/// How many threads make steps.
const THREADS: usize = MOUNTS + WRITERS + PLAYERS + 1;

/// After how many steps a schedule counts as endless.
const STEPS: u32 = 100_000;

/// A simulated server: the threads, what they share, and the generator that draws their schedule.
#[derive(Drop)]
pub(crate) struct Simulation {
    world: World,
    publishers: [Publisher; MOUNTS],
    waker: Waker,
    writers: [Writer; WRITERS],
    readers: [Reader; PLAYERS],
    rng: SmallRng,
    /// How many times a peer reads yet. Behind that the rest of the connections fail.
    reads: u32,
}

impl Simulation {
    fn new(alloc: Global, seed: u64, fault: Fault) -> Simulation {
        let mut rng = SmallRng::seed_from_u64(seed);
        let mut publishers = [Publisher::new(0, 0); MOUNTS];
        for (number, publisher) in publishers.iter_mut().enumerate() {
            *publisher = Publisher::new(number, 2 + rng.next_u64() % 6);
        }
        let mut readers = [Reader::new(0, 0); PLAYERS];
        for (number, reader) in readers.iter_mut().enumerate() {
            *reader = Reader::new(number, rng.next_u64() % 5);
        }
        Simulation {
            world: World::new(alloc, fault),
            publishers,
            waker: Waker::new(),
            writers: [Writer::new(0), Writer::new(1)],
            readers,
            rng,
            reads: 30,
        }
    }

    /// Runs a schedule. Returns what was found wrong.
    pub(crate) fn run(alloc: Global, seed: u64, fault: Fault) -> Option<Finding> {
        let mut simulation = Simulation::new(alloc, seed, fault);
        for _ in 0..STEPS {
            if simulation.world.finding.is_some() {
                return simulation.world.finding;
            }
            let draw = simulation.rng.next_u64();
            if draw % 16 == 0 && simulation.begin(draw / 16) || simulation.step(draw / 16) {
                continue;
            }
            simulation.check_all();
            if simulation.begin(draw / 16) || simulation.pass_time() {
                continue;
            }
            simulation.check_end();
            return simulation.world.finding;
        }
        Some(Finding::Endless)
    }

    /// Lets one thread make a step: the first that can, from the one on that was drawn. Returns whether one could.
    fn step(&mut self, draw: u64) -> bool {
        let first = (draw % THREADS as u64) as usize;
        for next in 0..THREADS {
            if self.step_of(first.wrapping_add(next) % THREADS, draw / THREADS as u64) {
                return true;
            }
        }
        false
    }

    /// Lets this thread make its step, if it can.
    fn step_of(&mut self, thread: usize, draw: u64) -> bool {
        let world = &mut self.world;
        if thread == 0 {
            return self.waker.step(world);
        }
        let thread = thread.saturating_sub(1);
        if let Some(writer) = self.writers.get_mut(thread) {
            return writer.step(world);
        }
        let thread = thread.saturating_sub(WRITERS);
        if let Some(publisher) = self.publishers.get_mut(thread) {
            return publisher.step(world, draw);
        }
        match self.readers.get_mut(thread.saturating_sub(MOUNTS)) {
            Some(reader) => reader.step(world, draw),
            None => false,
        }
    }

    /// Begins something new, if there is anything: a publish, a request, a read of a peer, or that a millisecond passes.
    fn begin(&mut self, draw: u64) -> bool {
        let (kind, draw) = (draw % 4, draw / 4);
        let (player, more) = ((draw % PLAYERS as u64) as usize, draw / PLAYERS as u64);
        match kind {
            0 => match self.publishers.get_mut(player % MOUNTS) {
                Some(publisher) if publisher.may_begin() => {
                    publisher.begin();
                    true
                }
                _ => false,
            },
            1 | 2 => match self.readers.get_mut(player) {
                Some(reader) if reader.may_begin() => {
                    reader.begin(&self.world, more);
                    true
                }
                _ => false,
            },
            _ => self.read(player, more),
        }
    }

    /// A peer reads, or its connection fails.
    fn read(&mut self, player: usize, draw: u64) -> bool {
        if self.reads == 0 {
            return false;
        }
        self.reads = self.reads.saturating_sub(1);
        self.world.now = self.world.now.saturating_add(draw % 3);
        if let Some(link) = self.world.links.get_mut(player) {
            if draw % 32 == 0 {
                link.has_failed = true;
            } else {
                link.make_room(draw % 4);
            }
        }
        true
    }

    /// Nothing happens any more unless time passes or something begins: a writer's sleep ends, or what has not begun begins, or a
    /// reply that waits for its peer fails. Returns whether there was any of that.
    fn pass_time(&mut self) -> bool {
        let mut soonest = None;
        for writer in &self.writers {
            soonest = match (soonest, writer.until()) {
                (Some(moment), Some(until)) if moment < until => Some(moment),
                (soonest, None) => soonest,
                (_, until) => until,
            };
        }
        if let Some(moment) = soonest {
            self.world.now = self.world.now.max(moment);
            return true;
        }
        self.begin_any() || self.fail_replies()
    }

    /// Begins the first publish or request that hasn't begun.
    fn begin_any(&mut self) -> bool {
        let draw = self.rng.next_u64();
        for publisher in &mut self.publishers {
            if publisher.may_begin() {
                publisher.begin();
                return true;
            }
        }
        for reader in &mut self.readers {
            if reader.may_begin() {
                reader.begin(&self.world, draw);
                return true;
            }
        }
        false
    }

    /// The connections whose lines are taken fail. Returns whether there were any.
    fn fail_replies(&mut self) -> bool {
        let mut is_any = false;
        for link in &mut self.world.links {
            if link.is_taken && !link.has_failed {
                link.has_failed = true;
                is_any = true;
            }
        }
        is_any
    }

    /// No thread can make a step: looks whether a player is forgotten.
    fn check_all(&mut self) {
        for player in 0..PLAYERS {
            if self.is_forgotten(player) {
                self.world.find(Finding::Forgotten(player));
            }
        }
    }

    /// Whether a player is in its writer's list and to be looked at, and its writer's sleep doesn't end for its sake. One whose line
    /// is taken and marked will be found by who has the line.
    fn is_forgotten(&self, player: usize) -> bool {
        let (Some(link), Some(mount), Some(list)) = (
            self.world.links.get(player),
            self.world.mounts.get(mount_of(player)),
            self.world.lists.get(writer_of(player)),
        ) else {
            return false;
        };
        let is_listed = list.entries.iter().any(|entry| entry.player == player
            && entry.number == link.number);
        let Some(state) = &link.state else {
            return false;
        };
        let is_marked = link.is_taken && link.is_skipped;
        let is_timed = matches!(link.next, Next::Later(_));
        let is_behind = link.cursor < mount.logged || mount.has_ended && state.ending.is_none();
        let is_to_be_looked_at = is_behind || link.waiting > 0 || state.attention.again;
        is_listed && is_to_be_looked_at && !is_marked && !is_timed
    }

    /// All has happened: each player that plays is over, and none is in a list.
    fn check_end(&mut self) {
        for player in 0..PLAYERS {
            let is_listed = match self.world.lists.get(writer_of(player)) {
                Some(list) => list.entries.iter().any(|entry| entry.player == player),
                None => false,
            };
            if is_listed {
                self.world.find(Finding::NeverOver(player));
            }
        }
    }
}
