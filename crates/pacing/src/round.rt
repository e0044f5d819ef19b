//! A publisher's rounds.
ghost use Rattle.std.specs.Prelude.{◌≡◌, ◌↔◌, ◌<◌, IsTrue, IfOk, map, replicate, slice_set};
ghost use Rattle.pacing.specs.declared.standing.Standing.TheVariants.{Absent, Behind};
ghost use Rattle.pacing.specs.Rounds.{IsLevel, asked, awaited, followed, given_up, levelled, reached, slowest, standing_of};

use crate::standing::Standing;
use std::alloc::{AllocError, Global};
use std::marker::Model;

/// The standings of a mount's players towards its publisher, which waits in rounds. A round is opened with a target: how many
/// packets are to be taken. It is over when each player that kept up has taken that many, has left or was given up.
///
/// Its model has the standing of each seat, and the round's target.
#[derive(Drop)]
pub struct Round {
    players: Vec<Standing>,
    /// How many players are awaited.
    count: usize,
    target: u64,
}

impl Model for Round {
    ghost use Rattle.std.specs.Prelude.{◌≡◌};
    ghost use Rattle.pacing.specs.Rounds.{Paced, awaited};

    ghost Value = { Paced };

    ghost view = { λ r. record { players = r.players.items; target = r.target } };

    ghost invariant = { λ r. r.count ≡ awaited r.players.items };
}

impl Round {
    /// The round of a mount with `seats` seats, none of which is taken.
    pub fn new(alloc: Global, seats: usize) -> Result<Round, AllocError>
        ensures { IfOk result (λ r. r ≡ record { players = replicate seats Absent; target = 0 }) }
    {
        Ok(Round {
            players: Vec::from_elem(alloc, Standing::Absent, seats)?,
            count: 0,
            target: 0,
        })
    }

    /// How many players are awaited.
    pub fn awaited(&self) -> usize
        ensures { result ≡ awaited self.now.players }
    {
        self.count
    }

    /// A player takes a seat. It isn't waited for until it has taken all. Returns whether the seat's previous player was the
    /// last that was awaited, which can't be if that one has left.
    pub fn join(&mut self, seat: usize) -> bool
        ensures new { self.new ≡ record self.old { players = slice_set self.old.players seat Behind } }
        ensures last { IsTrue result ↔ ((0 < awaited self.old.players) × (awaited self.new.players ≡ 0)) }
    {
        let before = self.count;
        self.put(seat, Standing::Behind);
        before > 0 && self.count == 0
    }

    /// A player leaves its seat. Returns whether it was the last that was awaited.
    pub fn leave(&mut self, seat: usize) -> bool
        ensures new { self.new ≡ record self.old { players = slice_set self.old.players seat Absent } }
        ensures last { IsTrue result ↔ ((0 < awaited self.old.players) × (awaited self.new.players ≡ 0)) }
    {
        let before = self.count;
        self.put(seat, Standing::Absent);
        before > 0 && self.count == 0
    }

    /// A player had nothing more to take when `at` packets were published. Returns whether it was the last that was
    /// awaited.
    pub fn level(&mut self, seat: usize, at: u64) -> bool
        ensures new { self.new ≡ record self.old { players = slice_set self.old.players seat (levelled self.old.target at (standing_of self.old.players seat)) } }
        ensures last { IsTrue result ↔ ((0 < awaited self.old.players) × (awaited self.new.players ≡ 0)) }
    {
        let before = self.count;
        if let Some(standing) = self.players.get(seat) {
            let next = standing.levelled(self.target, at);
            self.put(seat, next);
        }
        before > 0 && self.count == 0
    }

    /// A player has taken `at` packets, and perhaps not all: one that is behind stays behind. Returns whether it was the last
    /// that was awaited.
    pub fn reach(&mut self, seat: usize, at: u64) -> bool
        ensures new { self.new ≡ record self.old { players = slice_set self.old.players seat (reached self.old.target at (standing_of self.old.players seat)) } }
        ensures last { IsTrue result ↔ ((0 < awaited self.old.players) × (awaited self.new.players ≡ 0)) }
    {
        let before = self.count;
        if let Some(standing) = self.players.get(seat) {
            let next = standing.reached(self.target, at);
            self.put(seat, next);
        }
        before > 0 && self.count == 0
    }

    /// A player was seen to have taken `at` packets. If it isn't waited for yet, or is awaited, nothing changes.
    pub fn follow(&mut self, seat: usize, at: u64)
        ensures { self.new ≡ record self.old { players = slice_set self.old.players seat (followed at (standing_of self.old.players seat)) } }
    {
        if let Some(standing) = self.players.get(seat) {
            let next = standing.followed(at);
            self.put(seat, next);
        }
    }

    /// Returns whether the player of a seat keeps up and isn't awaited.
    pub fn is_level(&self, seat: usize) -> bool
        ensures { IsTrue result ↔ IsLevel (standing_of self.now.players seat) }
    {
        match self.players.get(seat) {
            Some(standing) => matches!(standing, Standing::Level { .. }),
            None => false,
        }
    }

    /// Returns how many packets the slowest of the players that keep up and aren't awaited has taken, or `published` if each
    /// has taken more.
    pub fn slowest(&self, published: u64) -> u64
        ensures { result ≡ slowest self.now.players published }
    {
        let mut least = published;
        for player in self.players.iter() {
            if let Standing::Level { at } = player {
                least = least.min(*at);
            }
        }
        least
    }

    /// Opens a round in which `target` packets are to be taken. Returns how many players are awaited.
    pub fn open(&mut self, target: u64) -> usize
        ensures new { self.new ≡ record { players = map (asked target) self.old.players; target = target } }
        ensures count { result ≡ awaited self.new.players }
    {
        self.target = target;
        self.count = ask(self.players.as_mut_slice(), target);
        self.count
    }

    /// Gives up the players that are still awaited. Returns how many these are.
    pub fn give_up(&mut self) -> usize
        ensures new { self.new ≡ record self.old { players = map given_up self.old.players } }
        ensures count { result ≡ awaited self.old.players }
    {
        let count = self.count;
        give_up(self.players.as_mut_slice());
        self.count = 0;
        count
    }

    /// Sets the standing of a seat, if there is such a seat.
    fn put(&mut self, seat: usize, standing: Standing)
        ensures { self.new ≡ record self.old { players = slice_set self.old.players seat standing } }
    {
        if let Some(place) = self.players.get_mut(seat) {
            let was = *place == Standing::Awaited;
            let is = standing == Standing::Awaited;
            *place = standing;
            if was && !is {
                self.count -= 1;
            }
            if is && !was {
                self.count += 1;
            }
        }
    }
}

/// Marks each player that keeps up and hasn't taken `target` packets as awaited. Returns how many are awaited.
fn ask(players: &mut [Standing], target: u64) -> usize
    ensures new { players.new ≡ map (asked target) players.old }
    ensures count { result ≡ awaited players.new }
{
    let mut count = 0;
    for place in 0..players.len() {
        if let Standing::Level { at } = players[place] {
            if at < target {
                players[place] = Standing::Awaited;
            }
        }
        if players[place] == Standing::Awaited {
            count += 1;
        }
    }
    count
}

/// Marks each player that is awaited as behind.
fn give_up(players: &mut [Standing])
    ensures new { players.new ≡ map given_up players.old }
    ensures none { awaited players.new ≡ 0 }
{
    for place in 0..players.len() {
        players[place] = players[place].given_up();
    }
}
