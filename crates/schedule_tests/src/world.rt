//! What the threads of a simulated server share.
use crate::fault::{Fault, Finding};
use crate::link::Link;
use std::alloc::Global;
use waking::{NO_MARKS, next_word};

pub(crate) const MOUNTS: usize = 2;

pub(crate) const WRITERS: usize = 2;

pub(crate) const PLAYERS: usize = 10;

/// A mount: its log, and the words by which its players are woken.
#[derive(Clone, Copy, Drop)]
pub(crate) struct Mount {
    /// How many packets were put into its log.
    pub(crate) logged: u64,
    /// Whether its end was.
    pub(crate) has_ended: bool,
    pub(crate) marks: u64,
    pub(crate) player_wakeups: u64,
}

/// A player's place in a writer's list.
#[derive(Clone, Copy, Drop)]
pub(crate) struct Entry {
    pub(crate) player: usize,
    /// Which of its connection's players it is.
    pub(crate) number: u64,
    pub(crate) turn: u64,
    /// After how many wake-ups of its mount's players there is nothing to do for it, as its last look left it.
    pub(crate) quiet: Option<u64>,
}

/// The players of a writer.
#[derive(Drop)]
pub(crate) struct List {
    pub(crate) entries: Vec<Entry>,
    pub(crate) changes: u64,
}

impl List {
    fn new(alloc: Global) -> List {
        List {
            entries: Vec::new(alloc),
            changes: 0,
        }
    }

    /// A player comes. Returns its turn.
    pub(crate) fn add(&mut self, player: usize, number: u64) -> u64 {
        let turn = self.changes;
        let _ = self.entries.push(Entry {
            player,
            number,
            turn,
            quiet: None,
        });
        self.changes = self.changes.wrapping_add(1);
        turn
    }

    /// Notes what a look left of the player of this turn, if it is at this place.
    pub(crate) fn note(&mut self, place: usize, turn: u64, quiet: Option<u64>) {
        if let Some(entry) = self.entries.get_mut(place) {
            if entry.turn == turn {
                entry.quiet = quiet;
            }
        }
    }

    /// A player leaves, if it is here.
    pub(crate) fn remove(&mut self, turn: u64) {
        let before = self.entries.len();
        self.entries.retain(|entry| entry.turn != turn);
        if self.entries.len() < before {
            self.changes = self.changes.wrapping_add(1);
        }
    }
}

/// What the threads share.
#[derive(Drop)]
pub(crate) struct World {
    pub(crate) fault: Fault,
    /// The moment, in milliseconds.
    pub(crate) now: u64,
    pub(crate) is_notified: bool,
    pub(crate) writer_wakeups: u64,
    /// Which writers were woken since they began to sleep.
    pub(crate) is_woken: [bool; WRITERS],
    pub(crate) mounts: [Mount; MOUNTS],
    pub(crate) lists: [List; WRITERS],
    pub(crate) links: [Link; PLAYERS],
    pub(crate) finding: Option<Finding>,
}

impl World {
    pub(crate) fn new(alloc: Global, fault: Fault) -> World {
        let mount = Mount {
            logged: 0,
            has_ended: false,
            marks: NO_MARKS,
            player_wakeups: 0,
        };
        World {
            fault,
            now: 0,
            is_notified: false,
            writer_wakeups: 0,
            is_woken: [false; WRITERS],
            mounts: [mount; MOUNTS],
            lists: [List::new(alloc), List::new(alloc)],
            links: [Link::new(); PLAYERS],
            finding: None,
        }
    }

    /// The word that writers sleep on changes.
    pub(crate) fn raise(&mut self) {
        self.writer_wakeups = next_word(self.writer_wakeups);
    }

    /// Who sleeps on that word is woken.
    pub(crate) fn call(&mut self) {
        self.is_woken = [true; WRITERS];
    }

    /// Notes what was found, if it is the first.
    pub(crate) fn find(&mut self, finding: Finding) {
        if self.finding.is_none() {
            self.finding = Some(finding);
        }
    }
}

/// The mount that a player takes from.
pub(crate) fn mount_of(player: usize) -> usize {
    player % MOUNTS
}

/// The writer of a player.
pub(crate) fn writer_of(player: usize) -> usize {
    player / MOUNTS % WRITERS
}
