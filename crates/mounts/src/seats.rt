//! The seats of a mount.
ghost use Rattle.std.specs.Prelude.{◌≡◌, ◌<◌, ◌≤◌, ◌↔◌, false, true, not, length, replicate, count_by, slice_get, slice_set, IfOk, IsTrue, Some};
ghost use Rattle.std.specs.List.{AllByRecursion};

use std::alloc::{AllocError, Global};
use std::marker::Model;

/// The most seats that a mount may have.
pub const MAX_SEATS: usize = 1024;

/// The seats of a mount. A contract sees for each seat whether it is out.
#[derive(Drop)]
pub struct Seats {
    out: Vec<bool>,
    free: Vec<u16>,
}

impl Model for Seats {
    ghost use Rattle.std.specs.Prelude.{List, Bool};
    ghost use Rattle.std.specs.Vec.{vec_capacity};
    ghost use Rattle.mounts.specs.Seats.{AreFree};

    ghost Value = { List Bool };

    ghost view = { λ s. s.out.items };

    ghost invariant = { λ s. AreFree s.out.items s.free.items (vec_capacity s.free) };
}

impl Seats {
    /// So many seats, all of them free.
    pub(crate) fn new(alloc: Global, count: usize) -> Result<Seats, AllocError>
        requires { count ≤ 1024 }
        ensures { IfOk result (λ seats. seats ≡ replicate count false) }
    {
        let out = vec![in alloc; false; count]?;
        let free = all_below(alloc, count)?;
        Ok(Seats { out, free })
    }

    /// A copy, or out of memory. As here, there is room in it for each seat to be free.
    pub(crate) fn copy(&self, alloc: Global) -> Result<Seats, AllocError>
        ensures { IfOk result (λ copied. copied ≡ self.now) }
    {
        let out = Vec::from_slice(alloc, self.out.as_slice())?;
        let mut free = Vec::with_capacity(alloc, self.out.len())?;
        free.extend_from_slice(self.free.as_slice())?;
        Ok(Seats { out, free })
    }

    /// How many seats there are: at most `MAX_SEATS`.
    pub fn len(&self) -> usize
        ensures count { result ≡ length self.now }
        ensures most { result ≤ 1024 }
    {
        self.out.len()
    }

    /// Whether a seat is there and out, in one step.
    pub fn is_out(&self, seat: usize) -> bool
        ensures { IsTrue result ↔ (slice_get self.now seat ≡ Some true) }
    {
        seat < self.out.len() && self.out[seat]
    }

    /// Whether a seat is free, in one step.
    pub fn has_free(&self) -> bool
        ensures { IsTrue result ↔ (0 < count_by not self.now) }
    {
        !self.free.is_empty()
    }

    /// Takes a free seat. Takes no memory, and goes over no other seat.
    pub(crate) fn take(&mut self) -> usize
        requires { 0 < count_by not self.old }
        ensures free { slice_get self.old result ≡ Some false }
        ensures taken { self.new ≡ slice_set self.old result true }
    {
        let last = self.free.pop().unwrap();
        let seat = usize::from(last);
        self.out[seat] = true;
        seat
    }

    /// Gives back a seat that is out. Takes no memory, and goes over no other seat.
    pub(crate) fn give_back(&mut self, seat: usize)
        requires { slice_get self.old seat ≡ Some true }
        ensures { self.new ≡ slice_set self.old seat false }
    {
        self.out[seat] = false;
        self.free.push(seat as u16).unwrap();
    }
}

ghost use Rattle.std.specs.Vec.{vec_capacity};
ghost use Rattle.mounts.specs.Different.{AreDifferent};

/// The numbers below this one, in a list that has room for them.
fn all_below(alloc: Global, count: usize) -> Result<Vec<u16>, AllocError>
    requires { count ≤ 1024 }
    ensures below { IfOk result (λ all. AllByRecursion (λ seat. seat < count) all.items) }
    ensures once { IfOk result (λ all. AreDifferent all.items) }
    ensures len { IfOk result (λ all. length all.items ≡ count) }
    ensures room { IfOk result (λ all. count ≤ vec_capacity all) }
{
    let mut all = Vec::with_capacity(alloc, count)?;
    for seat in 0..count {
        all.push(seat as u16).unwrap();
    }
    Ok(all)
}
