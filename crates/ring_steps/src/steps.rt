ghost use Rattle.std.specs.Prelude.{◌≡◌, ◌<◌, ◌≤◌, length, IfOk, OnErr, OnOk};
ghost use Rattle.ring_steps.specs.Ring.{seat_at, cursor, place, word};
ghost use Rattle.ring_steps.specs.Bounds.{SeatBounds, PublisherBounds, HasRoom, SeatReady, PublisherReady};
ghost use Rattle.ring_steps.specs.Step.{outcome, SeatStep, PublisherStep, read_on, write_on};
ghost use Rattle.ring_steps.specs.Slots.{Invariant};

use crate::calls::{PublisherCall, SeatCall, Stepped};
use crate::ring::Ring;
use crate::views::{PublisherPhase, SeatPhase};
use std::alloc::AllocError;

impl Ring {
    /// One step of a seat within this call. Without memory nothing changes.
    pub fn seat_step(&mut self, seat: u16, call: SeatCall) -> Result<Stepped, AllocError>
        requires ready { SeatReady self.old seat call }
        requires invariant { Invariant self.old }
        requires room { HasRoom self.old }
        ensures step { IfOk result (λ r. SeatStep self.old seat call (outcome self.new r)) }
        ensures invariant { Invariant self.new }
        ensures err { OnErr result (self.new ≡ self.old) }
    {
        self.seat_goes_on(usize::from(seat), call)
    }

    /// The same, for the caller to tell what it keeps.
    #[tactic(auto, using(crate::proofs::Bounds::seat_bounds, crate::proofs::Bounds::reading_pin, crate::proofs::Bounds::failed_pin))]
    fn seat_goes_on(&mut self, seat: usize, call: SeatCall) -> Result<Stepped, AllocError>
        requires ready { SeatReady self.old seat call }
        requires invariant { Invariant self.old }
        requires room { HasRoom self.old }
        ensures step { IfOk result (λ r. SeatStep self.old seat call (outcome self.new r)) }
        ensures err { OnErr result (self.new ≡ self.old) }
    {
        let phase = self.seats[seat].phase;
        match (phase, call) {
            (SeatPhase::Out, SeatCall::Attach { back }) => Ok(self.attach(seat, back)),
            (SeatPhase::Between, SeatCall::Detach) => Ok(self.detach(seat)),
            (SeatPhase::Between, SeatCall::Take) => Ok(self.first_load(seat)),
            (SeatPhase::Found, SeatCall::Take) => Ok(self.pin(seat)),
            (SeatPhase::Holding, SeatCall::Take) => Ok(self.read_length(seat)),
            (SeatPhase::Reading, SeatCall::Take) => self.read_on(seat),
            (SeatPhase::Failed, SeatCall::Take) => Ok(self.unpin_failed(seat)),
            (SeatPhase::Missed, SeatCall::Take) => Ok(self.second_load(seat)),
            _ => unreachable!(),
        }
    }

    /// The read of the next byte, or the unpin after the last one.
    fn read_on(&mut self, seat: usize) -> Result<Stepped, AllocError>
        requires bounds { SeatBounds self.old seat }
        requires pinned { 1 ≤ (word self.old (place self.old (cursor (seat_at self.old seat)))).pins }
        ensures step { IfOk result (λ r. outcome self.new r ≡ read_on self.old seat (seat_at self.old seat)) }
        ensures err { OnErr result (self.new ≡ self.old) }
    {
        if self.seats[seat].read.len() < self.seats[seat].length {
            self.read_byte(seat)
        } else {
            self.unpin(seat)
        }
    }

    /// One step of the publisher within this call. Without memory nothing changes.
    pub fn publisher_step(&mut self, call: &PublisherCall) -> Result<Stepped, AllocError>
        requires ready { PublisherReady self.old call.now }
        requires invariant { Invariant self.old }
        requires room { HasRoom self.old }
        ensures step { IfOk result (λ r. PublisherStep self.old call.now (outcome self.new r)) }
        ensures invariant { Invariant self.new }
        ensures err { OnErr result (self.new ≡ self.old) }
    {
        self.publisher_goes_on(call)
    }

    /// The same, for the caller to tell what it keeps.
    #[tactic(auto, using(crate::proofs::Bounds::publisher_bounds))]
    fn publisher_goes_on(&mut self, call: &PublisherCall) -> Result<Stepped, AllocError>
        requires ready { PublisherReady self.old call.now }
        requires invariant { Invariant self.old }
        requires room { HasRoom self.old }
        ensures step { IfOk result (λ r. PublisherStep self.old call.now (outcome self.new r)) }
        ensures err { OnErr result (self.new ≡ self.old) }
    {
        match call {
            PublisherCall::Close => Ok(self.close()),
            PublisherCall::Publish(packet) => match self.publisher.phase {
                PublisherPhase::Between => self.begin(packet),
                PublisherPhase::Begun => Ok(self.write_length()),
                PublisherPhase::Filling => self.write_on(),
                PublisherPhase::Finished => self.append(),
            },
        }
    }

    /// The write of the next byte, or the finish after the last one.
    fn write_on(&mut self) -> Result<Stepped, AllocError>
        requires bounds { PublisherBounds self.old }
        ensures step { IfOk result (λ r. outcome self.new r ≡ write_on self.old) }
        ensures err { OnErr result (self.new ≡ self.old) }
    {
        if self.publisher.written < self.publisher.packet.len() {
            self.write_byte()
        } else {
            Ok(self.finish())
        }
    }
}
