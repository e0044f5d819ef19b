//! The limits of log lines of each address in a second.
ghost use Rattle.std.specs.Prelude.{◌≡◌, ◌≢◌, ◌↔◌, ◌∷◌, [], ◌++◌, ◌<◌, ◌/◌, None, true, length, slice_get, slice_set, IfOk, IfSome, IfNone, IsSomeAnd, IsTrue};
ghost use Rattle.relay_log.specs.AddressRates.{AreBusy, TakesPlace, Tells, once_told, place_in};
ghost use Rattle.relay_log.specs.Rates.{MayTell, told_once_more};

use crate::limits::ADDRESSES;
use crate::line_rate::LineRate;
use networks::Address;
use std::alloc::{AllocError, Global};
use std::marker::Model;

/// What is known of an address.
#[derive(Clone, Copy, Debug, Drop)]
pub struct Known {
    address: Address,
    rate: LineRate,
}

/// How many lines of each address were logged in a second, for at most 256 addresses. The others share one rate.
///
/// Its model is what is known of these addresses, and the rate of the others.
pub struct LineRates {
    known: Vec<Known>,
    others: LineRate,
}

impl Model for LineRates {
    ghost use Rattle.std.specs.Prelude.{◌≤◌, length, vec_capacity};
    ghost use Rattle.relay_log.specs.AddressRates.{Rates};

    ghost Value = { Rates };

    ghost view = { λ r. record { known = r.known.items; others = r.others } };

    ghost invariant = { λ r. (length r.known.items ≤ 256) × (256 ≤ vec_capacity r.known) };
}

impl Drop for LineRates {
    fn drop(self) {
        let LineRates {
            known: _,
            others: _,
        } = self;
    }
}

impl LineRates {
    /// No line was logged yet.
    pub fn new(alloc: Global) -> Result<LineRates, AllocError>
        ensures { IfOk result (λ rates. rates ≡ record { known = []; others = record { second = 0; count = 0 } }) }
    {
        Ok(LineRates {
            known: Vec::with_capacity(alloc, ADDRESSES)?,
            others: LineRate::new(),
        })
    }

    /// Returns whether a line of this address may be logged at this moment, in milliseconds. A line that may be logged is
    /// counted: at the address's own rate, in a place that may have been that of an address that had no line in this second, or
    /// at the rate of the others if all places are taken by addresses that had one.
    #[tactic(auto, using(crate::proofs::Rating::written_back))]
    pub fn tell(&mut self, address: Address, now: u64) -> bool
        ensures known { IfSome (place_in address self.old.known) (λ place. IsSomeAnd (slice_get self.old.known place) (λ known. IsTrue result ↔ MayTell known.rate now)) }
        ensures told { IfSome (place_in address self.old.known) (λ place. IsTrue result → IsSomeAnd (slice_get self.old.known place) (λ known.
            self.new ≡ record self.old { known = slice_set self.old.known place (record known { rate = told_once_more known.rate now }) })) }
        ensures same { (IsTrue result → ⊥) → self.new ≡ self.old }
        ensures added { place_in address self.old.known ≡ None → length self.old.known < 256
            → (result ≡ true) × (self.new ≡ record self.old { known = self.old.known ++ once_told address now ∷ [] }) }
        ensures taken { place_in address self.old.known ≡ None → length self.old.known ≡ 256 → (AreBusy self.old.known (now / 1000) → ⊥)
            → (result ≡ true) × TakesPlace self.old self.new address now }
        ensures others { place_in address self.old.known ≡ None → length self.old.known ≡ 256 → AreBusy self.old.known (now / 1000)
            → Tells self.old self.new self.old.others now result (λ rate. record self.old { others = rate }) }
    {
        match place_of(self.known.as_slice(), address) {
            Some(place) => self.known[place].rate.tell(now),
            None => self.tell_new(address, now),
        }
    }

    /// Returns whether a line of an address of which nothing is known may be logged, and counts it. The address takes a place of its
    /// own, or that of the first address that had no line in this second.
    fn tell_new(&mut self, address: Address, now: u64) -> bool
        ensures added { length self.old.known < 256 → (result ≡ true) × (self.new ≡ record self.old { known = self.old.known ++ once_told address now ∷ [] }) }
        ensures taken { length self.old.known ≡ 256 → (AreBusy self.old.known (now / 1000) → ⊥) → (result ≡ true) × TakesPlace self.old self.new address now }
        ensures others { length self.old.known ≡ 256 → AreBusy self.old.known (now / 1000)
            → Tells self.old self.new self.old.others now result (λ rate. record self.old { others = rate }) }
        ensures same { (IsTrue result → ⊥) → self.new ≡ self.old }
    {
        let second = now / 1_000;
        let rate = LineRate { second, count: 1 };
        if self.known.len() < ADDRESSES {
            self.known.push_reserved(Known { address, rate });
            return true;
        }
        match place_of_quiet(self.known.as_slice(), second) {
            Some(place) => {
                self.known[place] = Known { address, rate };
                true
            }
            None => self.others.tell(now),
        }
    }
}

/// Returns the place of an address. `None` if nothing is known of it.
fn place_of(known: &[Known], address: Address) -> Option<usize>
    ensures { result ≡ place_in address known.now }
{
    known.iter().position(|known| known.address == address)
}

/// Returns the place of the first address that had no line in this second. `None` if each had one.
fn place_of_quiet(known: &[Known], second: u64) -> Option<usize>
    ensures found { IfSome result (λ place. IsSomeAnd (slice_get known.now place) (λ known. known.rate.second ≢ second)) }
    ensures none { IfNone result (AreBusy known.now second) }
    ensures busy { AreBusy known.now second → result ≡ None }
{
    for (place, known) in known.iter().enumerate() {
        if known.rate.second != second {
            return Some(place);
        }
    }
    None
}
