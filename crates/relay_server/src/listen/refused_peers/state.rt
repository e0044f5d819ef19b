//! Which refused peers stay, and until when.
ghost use Rattle.std.specs.Prelude.{◌≡◌, ◌↔◌, ◌∷◌, [], ◌++◌, ◌<◌, ◌≤◌, length, None, IfOk, IfSome, IfNone};
ghost use Rattle.std.specs.Option.{option_to_list};
ghost use Rattle.relay_server.specs.Leavings.{next_moment, NoneIsDue};

use crate::limits::REFUSED_PEERS;
use relay_log::Refusing;
use std::alloc::{AllocError, Global};
use std::collections::VecDeque;
use std::marker::Model;
use std::sync::Wait;

/// A refused peer that stays until a moment, in milliseconds.
#[derive(Drop)]
pub(super) struct Leaver<P> {
    pub(super) peer: P,
    pub(super) due: u64,
}

/// The refused peers that stay, at most 64, the one that has stayed longest first. Allocates no memory after it is made.
#[derive(Drop)]
pub(super) struct State<P> {
    leaving: VecDeque<Leaver<P>>,
}

/// When the next peer is to be closed, of which the thread that closes it wasn't told. It has no `Drop`, so that it ends in `set`.
pub(super) struct NextDue {
    moment: Option<u64>,
}

impl NextDue {
    /// Sets the moment, if a peer stays.
    pub(super) fn set(self, rt: &impl Wait, refusing: &Refusing) {
        let NextDue { moment } = self;
        if let Some(moment) = moment {
            refusing.wake_at(rt, moment);
        }
    }
}

impl<P> Model for State<P> {
    ghost use Rattle.std.specs.Prelude.{◌≡◌, ◌≤◌, List};
    ghost use Rattle.std.specs.VecDeque.{deque_capacity, deque_len};
    ghost use Rattle.relay_server.specs.declared.listen.refused_peers.state.Leaver.{Leaver};

    ghost Value = { List (Leaver P) };

    ghost view = { λ s. s.leaving.items };

    ghost invariant = { λ s. (deque_len s.leaving ≤ 64) × (deque_capacity s.leaving ≡ 64) };
}

impl<P: Drop> State<P> {
    /// None stays.
    pub(super) fn new(alloc: Global) -> Result<State<P>, AllocError>
        ensures { IfOk result (λ state. state ≡ []) }
    {
        Ok(State {
            leaving: VecDeque::with_capacity(alloc, REFUSED_PEERS)?,
        })
    }

    /// Puts a peer in. Returns the first one if it has to make room.
    pub(super) fn put(&mut self, peer: P, due: u64) -> Option<Leaver<P>>
        ensures new { self.old ++ record { peer = peer; due = due } ∷ [] ≡ option_to_list result ++ self.new }
        ensures none { result ≡ None ↔ length self.old < 64 }
    {
        let first = if self.leaving.len() >= REFUSED_PEERS {
            self.leaving.pop_front()
        } else {
            None
        };
        self.leaving.push_back_reserved(Leaver { peer, due });
        first
    }

    /// Takes the first one out, if it is to be closed at this moment. Returns when the next one is, too.
    pub(super) fn take_due(&mut self, now: u64) -> (Option<Leaver<P>>, NextDue)
        ensures new { self.old ≡ option_to_list result.0 ++ self.new }
        ensures some { IfSome result.0 (λ first. first.due ≤ now) }
        ensures none { IfNone result.0 (NoneIsDue self.old now) }
        ensures next { result.1.moment ≡ next_moment self.new }
    {
        let first = match self.next() {
            Some(due) if due <= now => self.leaving.pop_front(),
            _ => None,
        };
        let next = NextDue {
            moment: self.next(),
        };
        (first, next)
    }

    /// Returns when the first one is to be closed.
    fn next(&self) -> Option<u64>
        ensures { result ≡ next_moment self.now }
    {
        match self.leaving.front() {
            Some(first) => Some(first.due),
            None => None,
        }
    }
}
