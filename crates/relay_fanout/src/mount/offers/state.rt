//! Which offers are unused, and who is given one.
ghost use Rattle.std.specs.Prelude.{◌≡◌, ◌+◌, ◌-◌, ◌↔◌, IsTrue, IsSome, IsNone, IsErr, IfOk, OnOk, OnErr, Some, None};
ghost use Rattle.relay_fanout.specs.Offers.{AreAllTaken};

use crate::limits::MOST_OFFERS;
use std::marker::Model;

/// The limit of unused offers is reached.
#[derive(Debug, Drop)]
pub struct Busy;

/// The offers that no mount has used yet: at most four, of which one is kept. The others are being made or judged.
#[derive(Drop)]
pub struct UnusedOffers<T> {
    kept: Option<T>,
    /// How many callers have one, or make one.
    taken: usize,
}

impl<T> Model for UnusedOffers<T> {
    ghost use Rattle.std.specs.Prelude.{◌≤◌};
    ghost use Rattle.relay_fanout.specs.Offers.{Unused, unused};

    ghost Value = { Unused T };

    ghost view = { λ offers. record { kept = offers.kept; taken = offers.taken } };

    ghost invariant = { λ offers. unused (record { kept = offers.kept; taken = offers.taken }) ≤ 4 };
}

impl<T: Drop> UnusedOffers<T> {
    /// None is kept, and none is made.
    pub fn new() -> UnusedOffers<T>
        ensures { result ≡ record { kept = None; taken = 0 } }
    {
        UnusedOffers {
            kept: None,
            taken: 0,
        }
    }

    /// Returns whether none is kept and none may be made.
    pub fn are_all_taken(&self) -> bool
        ensures { IsTrue result ↔ AreAllTaken self.now }
    {
        self.kept.is_none() && self.taken >= MOST_OFFERS
    }

    /// Takes the one that is kept. `None` if none is kept: then the caller may make one.
    pub fn take(&mut self) -> Result<Option<T>, Busy>
        ensures busy { IsErr result ↔ AreAllTaken self.old }
        ensures kept_first { IfOk result (λ given. given ≡ self.old.kept) }
        ensures ok { OnOk result (self.new ≡ record { kept = None; taken = self.old.taken + 1 }) }
        ensures err { OnErr result (self.new ≡ self.old) }
    {
        if self.are_all_taken() {
            return Err(Busy);
        }
        self.taken += 1;
        Ok(self.kept.take())
    }

    /// Keeps an offer that opened no mount, if none is kept. Returns it if one is: then the caller drops it, and leaves.
    pub fn put(&mut self, offer: T) -> Option<T>
        ensures kept { IsNone self.old.kept → result ≡ None }
        ensures now_kept { IsNone self.old.kept → self.new ≡ record { kept = Some offer; taken = self.old.taken - 1 } }
        ensures back { IsSome self.old.kept → result ≡ Some offer }
        ensures same { IsSome self.old.kept → self.new ≡ self.old }
    {
        if self.kept.is_some() {
            return Some(offer);
        }
        self.leave();
        self.kept = Some(offer);
        None
    }

    /// Counts one unused offer fewer, since a mount uses it, it was dropped, or it couldn't be made.
    pub fn leave(&mut self)
        ensures { self.new ≡ record self.old { taken = self.old.taken - 1 } }
    {
        self.taken = self.taken.saturating_sub(1);
    }
}
