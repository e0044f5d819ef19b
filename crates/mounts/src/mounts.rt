//! The table of mounts.
ghost use Rattle.std.specs.Prelude.{◌≡◌, ◌≤◌, ◌↔◌, ℕ, Bool, true, false, None, Some, IfOk, IfSome, IfNone, OnOk, OnErr, IsTrue, MatchBool, if◌then◌else◌, ◌==◌, ◌<◌, length, take, slice_index};
ghost use Rattle.std.specs.Option.{option_copied};

use crate::mount::{Mount, copy_mounts};
use crate::names::MAX_NAME;
use crate::seats::Seats;
use base_syntax::Bytes;
use indexmap::IndexSet;
use sdp::Description;
use std::alloc::{AllocError, Global};
use std::collections::hash_map::RandomState;
use std::marker::Model;

/// The most mounts that are live at a time.
pub const MAX_MOUNTS: usize = 64;

/// The live mounts. A contract sees them in the order in which they were announced, with the number that the next one
/// gets and how many seats each has.
pub struct Mounts {
    alloc: Global,
    // The names of the mounts, in their order.
    names: IndexSet<Vec<u8>, RandomState>,
    mounts: Vec<Mount>,
    next: u64,
    seats: usize,
}

impl Model for Mounts {
    ghost use Rattle.mounts.specs.Mounts.{Table, IsSound};

    ghost Value = { Table };

    ghost use Rattle.mounts.specs.Kept.{table_of, IsKept};

    ghost view = { table_of };

    ghost invariant = { IsKept };
}

impl Drop for Mounts {
    fn drop(self) {
        let Mounts {
            alloc: _,
            names: _,
            mounts: _,
            next: _,
            seats: _,
        } = self;
    }
}

impl Mounts {
    ghost use Rattle.mounts.specs.Mounts.{HasRoom, IsSeat, IsSound, announced, ended, named, no_mounts, numbered, owned_by, with_seat_of};
    ghost use Rattle.mounts.specs.Names.{EndsInTrack, IsName};
    ghost use Rattle.mounts.specs.Uri.{slash};
    ghost use Rattle.mounts.specs.Find.{IsFoundIn, IsNowhereIn};

    /// No mount. Each that is announced has so many seats, at most `MAX_SEATS`. Strangers choose the names of mounts, so
    /// they are hashed by a state that nobody can know. Takes no memory.
    pub fn new(alloc: Global, seats: usize, hasher: RandomState) -> Mounts
        requires { seats ≤ 1024 }
        ensures { result ≡ no_mounts seats }
    {
        Mounts {
            alloc,
            names: IndexSet::with_hasher(alloc, hasher),
            mounts: Vec::new(alloc),
            next: 1,
            seats,
        }
    }

    /// A copy, or out of memory: of at most `MAX_MOUNTS` mounts with their names and seats. Their descriptions are shared.
    pub fn copy(&self) -> Result<Mounts, AllocError>
        ensures { IfOk result (λ copied. copied ≡ self.now) }
    {
        Ok(Mounts {
            alloc: self.alloc,
            names: self.names.clone()?,
            mounts: copy_mounts(self.alloc, self.mounts.as_slice())?,
            next: self.next,
            seats: self.seats,
        })
    }

    /// The number that the next mount gets. It is above those of all mounts so far.
    pub fn next_number(&self) -> u64
        ensures { result ≡ self.now.next }
    {
        self.next
    }

    /// The live mounts, in the order in which they were announced: at most `MAX_MOUNTS`.
    pub fn live(&self) -> &[Mount]
        ensures all { result.now ≡ self.now.mounts }
        ensures sound { IsSound self.now }
    {
        self.mounts.as_slice()
    }

    /// Whether one more mount may be announced: fewer than `MAX_MOUNTS` are live, and a number up to 2^63 is left.
    pub fn has_room(&self) -> bool
        ensures { MatchBool result (HasRoom self.now) (HasRoom self.now → ⊥) }
    {
        self.mounts.len() < MAX_MOUNTS && self.next <= 1 << 63
    }

    /// The live mount of a number. Compares at most `MAX_MOUNTS` numbers.
    pub fn numbered(&self, number: u64) -> Option<&Mount>
        ensures { option_copied result ≡ numbered number self.now.mounts }
    {
        self.mounts.iter().find(|mount| mount.number == number)
    }

    /// The live mount that a connection owns. Compares at most `MAX_MOUNTS` numbers.
    pub fn owned_by(&self, owner: u64) -> Option<&Mount>
        ensures { option_copied result ≡ owned_by owner self.now.mounts }
    {
        self.mounts.iter().find(|mount| mount.owner == owner)
    }

    /// The live mount of a name. Makes one look-up.
    pub fn named(&self, name: &[u8]) -> Option<&Mount>
        ensures { option_copied result ≡ named name.now self.now.mounts }
    {
        let place = self.names.get_index_of(name)?;
        Some(&self.mounts[place])
    }

    /// The live mount of the name that ends at a place of a path, where a slash stands.
    fn named_before(&self, path: &[u8], end: usize) -> Option<&Mount>
        requires { end < length path.now }
        ensures { option_copied result ≡ (if slice_index path.now end == slash then named (take end path.now) self.now.mounts else None) }
    {
        if path[end] != b'/' {
            return None;
        }
        self.named(&path[..end])
    }

    /// The live mount that a path names, by its number, and what is left of the path: the whole path, else the longest
    /// beginning that ends before a slash, which is a live mount's name. `None` after the number says that the whole path is the
    /// name; a path that ends in a slash has an empty rest. Looks at no beginning over `MAX_NAME` bytes, so that it makes at
    /// most `MAX_NAME` look-ups, however long the path is.
    pub fn find<'a>(&self, path: &'a [u8]) -> Option<(u64, Option<&'a [u8]>)>
        ensures found { IfSome result (λ r. IsFoundIn self.now.mounts path.now r.0 (option_copied r.1)) }
        ensures nowhere { IfNone result (IsNowhereIn self.now.mounts path.now) }
    {
        if self.mounts.is_empty() {
            return None;
        }
        if path.len() <= MAX_NAME {
            if let Some(mount) = self.named(path) {
                return Some((mount.number, None));
            }
        }
        let mut end = path.len().min(MAX_NAME + 1);
        // no name is empty
        while end > 1 {
            end -= 1;
            if let Some(mount) = self.named_before(path, end) {
                return Some((mount.number, Some(&path[end + 1..])));
            }
        }
        None
    }

    /// Announces a mount, and tells its number. The name doesn't end in a track's name (`ends_in_track`): it would be taken
    /// for a track of another mount. The call is refused only where memory runs out, and then nothing has changed.
    pub fn announce(
        &mut self,
        owner: u64,
        name: &[u8],
        description: Description,
    ) -> Result<u64, AllocError>
        requires room { HasRoom self.old }
        requires name { IsName name.now }
        requires no_track { EndsInTrack name.now → ⊥ }
        requires free { named name.now self.old.mounts ≡ None }
        requires first { owned_by owner self.old.mounts ≡ None }
        ensures number { IfOk result (λ number. number ≡ self.old.next) }
        ensures ok { OnOk result (self.new ≡ announced self.old owner name.now description) }
        ensures err { OnErr result (self.new ≡ self.old) }
    {
        let alloc = self.alloc;
        let key = Vec::from_slice(alloc, name)?;
        let number = self.next;
        let mount = Mount {
            number,
            owner,
            name: Bytes::from_slice(alloc, name)?,
            description,
            seats: Seats::new(alloc, self.seats)?,
        };
        self.names.reserve(1)?;
        self.mounts.push(mount)?;
        self.names.insert(key).unwrap();
        self.next += 1;
        Ok(number)
    }

    /// Ends the mount of a number; without one nothing changes. Moves at most `MAX_MOUNTS` mounts up. Takes no memory.
    pub fn end(&mut self, number: u64)
        ensures { self.new ≡ ended number self.old }
    {
        if let Some(place) = place_of(self.mounts.as_slice(), number) {
            self.names.shift_remove_index(place);
            self.mounts.remove(place);
        }
    }

    /// Takes a free seat of the mount of a number. `None` where there is no such mount or no free seat. Compares at most
    /// `MAX_MOUNTS` numbers, goes over no other seat, and takes no memory.
    pub fn take_seat(&mut self, number: u64) -> Option<usize>
        ensures free { IfSome result (λ seat. IsSeat self.old number seat false) }
        ensures taken { IfSome result (λ seat. self.new ≡ with_seat_of number seat true self.old) }
        ensures none { IfNone result ((seat : ℕ) → IsSeat self.old number seat false → ⊥) }
        ensures unchanged { IfNone result (self.new ≡ self.old) }
    {
        let Some(place) = place_of(self.mounts.as_slice(), number) else {
            return None;
        };
        if !self.mounts[place].seats.has_free() {
            return None;
        }
        let seat = self.mounts[place].seats.take();
        Some(seat)
    }

    /// Gives back a seat of the mount of a number. `false`, and nothing changes, where there is no such mount or the seat
    /// isn't out. Compares at most `MAX_MOUNTS` numbers, goes over no other seat, and takes no memory.
    pub fn give_back(&mut self, number: u64, seat: usize) -> bool
        ensures out { MatchBool result (IsSeat self.old number seat true) (IsSeat self.old number seat true → ⊥) }
        ensures given { IsTrue result → self.new ≡ with_seat_of number seat false self.old }
        ensures unchanged { result ≡ false → self.new ≡ self.old }
    {
        let Some(place) = place_of(self.mounts.as_slice(), number) else {
            return false;
        };
        if !self.mounts[place].seats.is_out(seat) {
            return false;
        }
        self.mounts[place].seats.give_back(seat);
        true
    }
}

ghost use Rattle.std.specs.Prelude.{position};

/// The place of the mount of a number.
fn place_of(mounts: &[Mount], number: u64) -> Option<usize>
    ensures { result ≡ position (λ mount. mount.number == number) mounts.now }
{
    mounts.iter().position(|mount| mount.number == number)
}
