//! Where a mount's log was at each tenth of a second.
ghost use Rattle.std.specs.Prelude.{◌≡◌, ◌≤◌, ◌-◌, ◌/◌, ◌↔◌, ◌++◌, ◌∷◌, [], ℕ, List, IfOk, IsTrue, length, min};
ghost use Rattle.std.specs.Option.{option_copied};
ghost use Rattle.pacing.specs.Recent.{HasBegun, Stands, last_of, mark_since, published_since, tenth_of};

use std::alloc::{AllocError, Global};
use std::marker::Model;

/// The length of a tenth of a second, in milliseconds.
const TENTH: u64 = 100;

/// How many tenths before the last packet's are remembered: those of ten seconds.
const REMEMBERED: u64 = 100;

/// The most marks: one for each of these tenths, and one for the last packet's.
const MOST: usize = 101;

/// How many kept packets a player is sent first, after a PLAY that takes a seat.
#[derive(Clone, Copy, Debug, PartialEq, Eq, Drop)]
pub enum Back {
    /// This many packets.
    Packets(u64),
    /// Those of this many milliseconds, at most half of what the ring keeps.
    Milliseconds(u64),
}

/// Where a player starts.
#[derive(Clone, Copy, Debug, PartialEq, Eq, Drop)]
pub struct Start {
    /// How many packets before the end of the log.
    pub packets: u64,
    /// How many packets were published in the time that was asked for. The start was shortened if `packets` is less.
    pub wanted: u64,
}

/// The first packet that was published in a tenth of a second.
#[derive(Clone, Copy, Debug, PartialEq, Eq, Drop)]
pub struct Mark {
    /// The tenth: a moment in milliseconds, divided by 100.
    pub tenth: u64,
    /// The packet's number.
    pub first: u64,
}

/// Where a mount's log was at each tenth of a second of the ten seconds before its last packet. Moments are milliseconds of a
/// clock that doesn't go back. Packets are numbered from 0.
///
/// Its model is the list of its marks, at most 101, in the order of their tenths.
#[derive(Drop)]
pub struct Recent {
    marks: Vec<Mark>,
}

impl Model for Recent {
    ghost use Rattle.std.specs.Prelude.{List, vec_capacity};
    ghost use Rattle.pacing.specs.declared.recent.Mark.{Mark};
    ghost use Rattle.pacing.specs.Recent.{AreMarks};

    ghost Value = { List Mark };

    ghost view = { λ r. r.marks.items };

    ghost invariant = { λ r. AreMarks r.marks.items (vec_capacity r.marks) };
}

impl Recent {
    /// Returns the value of a mount without packets. Later calls take no memory.
    pub fn new(alloc: Global) -> Result<Recent, AllocError>
        ensures stands { IfOk result (λ recent. Stands [] recent) }
    {
        Ok(Recent {
            marks: Vec::with_capacity(alloc, MOST)?,
        })
    }

    /// Notes that the packet with this number was published at this moment. It is one comparison unless a new tenth begins.
    pub fn note(&mut self, now: u64, number: u64)
        ensures stands { (moments : List ℕ) → Stands moments self.old → last_of moments ≤ now → number ≡ length moments
            → Stands (moments ++ now ∷ []) self.new }
    {
        let tenth = now / TENTH;
        if self.has_begun(tenth) {
            return;
        }
        let oldest = tenth.saturating_sub(REMEMBERED);
        self.marks.retain(|mark| mark.tenth >= oldest);
        self.marks.push_reserved(Mark {
            tenth,
            first: number,
        });
    }

    /// Returns where a player starts at `now` that is sent what was published in the last `milliseconds` (at most 10,000), if
    /// `published` packets were published in all and the ring keeps `keep`. These are all packets of that time, and at most those
    /// of 99 milliseconds more.
    pub fn start(&self, now: u64, milliseconds: u64, published: u64, keep: u64) -> Start
        ensures wanted { (moments : List ℕ) → Stands moments self.now → last_of moments ≤ now → published ≡ length moments → milliseconds ≤ 10000
            → result.wanted ≡ published_since (tenth_of (now - milliseconds)) moments }
        ensures most { result.wanted ≤ published }
        ensures packets { result.packets ≡ min result.wanted (keep / 2) }
    {
        let tenth = now.saturating_sub(milliseconds) / TENTH;
        let first = match self.mark_since(tenth) {
            Some(mark) => mark.first,
            None => published,
        };
        let wanted = published.saturating_sub(first);
        Start {
            packets: wanted.min(keep / 2),
            wanted,
        }
    }

    /// Returns whether the last mark is of this tenth or of a later one.
    fn has_begun(&self, tenth: u64) -> bool
        ensures { IsTrue result ↔ HasBegun tenth self.now }
    {
        match self.marks.last() {
            Some(last) => last.tenth >= tenth,
            None => false,
        }
    }

    /// Returns the first mark of this tenth or of a later one.
    fn mark_since(&self, tenth: u64) -> Option<&Mark>
        ensures { option_copied result ≡ mark_since tenth self.now }
    {
        self.marks.iter().find(|mark| mark.tenth >= tenth)
    }
}
