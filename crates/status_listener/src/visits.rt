//! The connections of a listener.
ghost use Rattle.std.specs.Prelude.{◌≡◌, ◌≤◌, ◌<◌, ◌↔◌, ◌++◌, ◌∷◌, [], None, All, Contains, IfSome, IfNone, IfOk, IsSomeAnd, IsTrue, filter, length, map, remove, slice_get, slice_set, vec_capacity};
ghost use Rattle.status_listener.specs.Visits.{begun, come_to, giving_way, has_time, oldest_asking, oldest_closing, place_of};

use crate::limits::MOST_VISITS;
use crate::phase::Phase;
use crate::visit::Visit;
use std::alloc::{AllocError, Global};

/// The connections of a listener, in the order in which they came: at most 64.
#[derive(Drop)]
pub(crate) struct Visits<P> {
    pub(crate) list: Vec<Visit<P>>,
    ghost most: { length list.items ≤ 64 },
    ghost room: { 64 ≤ vec_capacity list },
}

impl<P: Drop> Visits<P> {
    /// Takes the room for 64.
    pub(crate) fn new(alloc: Global) -> Result<Visits<P>, AllocError>
        ensures { IfOk result (λ visits. visits.list.items ≡ []) }
    {
        Ok(Visits {
            list: Vec::with_capacity(alloc, MOST_VISITS)?,
        })
    }

    /// Makes room for one more: if there are 64, the oldest that hasn't sent its whole request is closed, or else the oldest whose answer
    /// is written. Returns false if all of them wait for their answer, and changes nothing then.
    pub(crate) fn make_room(&mut self) -> bool
        ensures room { length self.old.list.items < 64 → self.new.list.items ≡ self.old.list.items }
        ensures oldest { length self.old.list.items ≡ 64 → IfSome (giving_way self.old.list.items) (λ place. self.new.list.items ≡ remove self.old.list.items place) }
        ensures none { length self.old.list.items ≡ 64 → giving_way self.old.list.items ≡ None → self.new.list.items ≡ self.old.list.items }
        ensures has { IsTrue result ↔ (length self.new.list.items < 64) }
    {
        if self.list.len() < MOST_VISITS {
            return true;
        }
        match self.giving_way() {
            Some(place) => {
                self.list.remove(place);
                true
            }
            None => false,
        }
    }

    /// Returns the place of the one that gives way to a new one.
    fn giving_way(&self) -> Option<usize>
        ensures is { result ≡ giving_way self.now.list.items }
        ensures within { IfSome result (λ place. place < length self.now.list.items) }
    {
        match self.oldest_asking() {
            Some(place) => Some(place),
            None => self.oldest_closing(),
        }
    }

    /// Returns the place of the oldest whose answer is written.
    fn oldest_closing(&self) -> Option<usize>
        ensures is { result ≡ oldest_closing self.now.list.items }
        ensures within { IfSome result (λ place. place < length self.now.list.items) }
    {
        self.list.iter().position(|visit| visit.phase.is_closing())
    }

    /// Returns the place of the oldest that hasn't sent its whole request.
    fn oldest_asking(&self) -> Option<usize>
        ensures is { result ≡ oldest_asking self.now.list.items }
        ensures within { IfSome result (λ place. place < length self.now.list.items) }
    {
        self.list.iter().position(|visit| visit.asks())
    }

    /// Adds a connection that comes at this moment, in milliseconds.
    pub(crate) fn add(&mut self, token: usize, peer: P, now: u64)
        requires { length self.old.list.items < 64 }
        ensures { self.new.list.items ≡ self.old.list.items ++ begun token peer now ∷ [] }
    {
        self.list.push_reserved(Visit::begun(token, peer, now));
    }

    /// Returns the place of the connection with this token.
    pub(crate) fn place_of(&self, token: usize) -> Option<usize>
        ensures is { result ≡ place_of token self.now.list.items }
        ensures within { IfSome result (λ place. place < length self.now.list.items) }
    {
        self.list.iter().position(|visit| visit.token == token)
    }

    /// The connection at this place has come to this phase at this moment, in milliseconds. It is closed if it has come to none.
    pub(crate) fn come_to(&mut self, place: usize, phase: Option<Phase>, now: u64)
        requires { place < length self.old.list.items }
        ensures phase { IfSome phase (λ next. IsSomeAnd (slice_get self.old.list.items place) (λ visit. self.new.list.items ≡ slice_set self.old.list.items place (come_to next now visit))) }
        ensures closed { IfNone phase (self.new.list.items ≡ remove self.old.list.items place) }
    {
        match phase {
            Some(phase) => self.list[place].set_phase(phase, now),
            None => {
                self.list.remove(place);
            }
        }
    }

    /// Closes each connection whose time is over at this moment, in milliseconds.
    pub(crate) fn close_due(&mut self, now: u64)
        ensures { self.new.list.items ≡ filter (has_time now) self.old.list.items }
    {
        self.list.retain(|visit| visit.has_time(now));
    }

    /// Returns when the time of the next is over, in milliseconds. `None` if there is none.
    pub(crate) fn next_due(&self) -> Option<u64>
        ensures first { IfSome result (λ due. All (λ visit. due ≤ visit.due) self.now.list.items) }
        ensures one { IfSome result (Contains (map (λ visit. visit.due) self.now.list.items)) }
        ensures none { IfNone result (self.now.list.items ≡ []) }
    {
        self.list.iter().map(|visit| visit.due()).min()
    }
}
