ghost use Rattle.std.specs.Prelude.{◌≡◌, ◌≤◌, IfOk, IfSome, IfNone};
ghost use Rattle.ring_steps.specs.declared.calls.Actor.TheVariants.{P, Seat};
ghost use Rattle.ring_steps.specs.Agreeing.{Agrees, GoesOn};
ghost use Rattle.ring_steps.specs.Bounds.{HasRoom};
ghost use Rattle.ring_steps.specs.Faults.{HasCall};
ghost use Rattle.ring_steps.specs.Runs.{At, start};
ghost use Rattle.ring_steps.specs.Scripts.{IsGoodScript, calls_of};
ghost use Rattle.ring_steps.specs.Slots.{Invariant};

use crate::calls::{Actor, Stepped};
use crate::ring::Ring;
use crate::script::Script;
use std::alloc::{AllocError, Global};
use std::marker::Model;

/// A ring in use, with how many calls of each actor were answered.
pub(crate) struct Progress {
    ring: Ring,
    publisher: usize,
    seats: Vec<usize>,
}

impl Model for Progress {
    ghost Value = { At };

    ghost view = { λ p. record { ring = p.ring; publisher = p.publisher; seats = p.seats.items } };
}

impl Drop for Progress {
    fn drop(self) {
        let Progress {
            ring: _,
            publisher: _,
            seats: _,
        } = self;
    }
}

impl Progress {
    /// An empty ring, and no call answered.
    pub(crate) fn new(alloc: Global, keep: u64, seats: u16) -> Result<Progress, AllocError>
        requires low { 1 ≤ keep }
        requires high { keep ≤ 4095 }
        ensures { IfOk result (λ progress. progress ≡ start keep seats) }
    {
        Ok(Progress {
            ring: Ring::new(alloc, keep, seats)?,
            publisher: 0,
            seats: vec![in alloc; 0; usize::from(seats)]?,
        })
    }

    /// The next step of this actor, or `None` where it doesn't exist or has no call left.
    pub(crate) fn step(
        &mut self,
        script: &Script,
        actor: Actor,
    ) -> Result<Option<Stepped>, AllocError>
        requires invariant { Invariant self.old.ring }
        requires room { HasRoom self.old.ring }
        requires agrees { Agrees (calls_of script.now) self.old }
        requires good { IsGoodScript (calls_of script.now) }
        ensures goes_on { IfOk result (λ r. IfSome r (GoesOn (calls_of script.now) self.old actor self.new)) }
        ensures none { IfOk result (λ r. IfNone r (¬ HasCall (calls_of script.now) self.old actor)) }
        ensures stays { IfOk result (λ r. IfNone r (self.new ≡ self.old)) }
    {
        match actor {
            Actor::P => self.publisher_step(script),
            Actor::Seat(seat) => self.seat_step(script, seat),
        }
    }

    /// The publisher's next step.
    fn publisher_step(&mut self, script: &Script) -> Result<Option<Stepped>, AllocError>
        requires invariant { Invariant self.old.ring }
        requires room { HasRoom self.old.ring }
        requires agrees { Agrees (calls_of script.now) self.old }
        requires good { IsGoodScript (calls_of script.now) }
        ensures goes_on { IfOk result (λ r. IfSome r (GoesOn (calls_of script.now) self.old P self.new)) }
        ensures none { IfOk result (λ r. IfNone r (¬ HasCall (calls_of script.now) self.old P)) }
        ensures stays { IfOk result (λ r. IfNone r (self.new ≡ self.old)) }
    {
        let calls = script.publisher.as_slice();
        let next = self.publisher;
        if next >= calls.len() {
            return Ok(None);
        }
        let stepped = self.ring.publisher_step(&calls[next])?;
        self.publisher = next + usize::from(stepped.answer.is_some());
        Ok(Some(stepped))
    }

    /// This seat's next step.
    fn seat_step(&mut self, script: &Script, seat: u16) -> Result<Option<Stepped>, AllocError>
        requires invariant { Invariant self.old.ring }
        requires room { HasRoom self.old.ring }
        requires agrees { Agrees (calls_of script.now) self.old }
        requires good { IsGoodScript (calls_of script.now) }
        ensures goes_on { IfOk result (λ r. IfSome r (GoesOn (calls_of script.now) self.old (Seat seat) self.new)) }
        ensures none { IfOk result (λ r. IfNone r (¬ HasCall (calls_of script.now) self.old (Seat seat))) }
        ensures stays { IfOk result (λ r. IfNone r (self.new ≡ self.old)) }
    {
        let seats = script.seats.as_slice();
        let place = usize::from(seat);
        if place >= seats.len() {
            return Ok(None);
        }
        let calls = seats[place].as_slice();
        let next = self.seats[place];
        if next >= calls.len() {
            return Ok(None);
        }
        let stepped = self.ring.seat_step(seat, calls[next])?;
        self.seats[place] = next + usize::from(stepped.answer.is_some());
        Ok(Some(stepped))
    }
}
