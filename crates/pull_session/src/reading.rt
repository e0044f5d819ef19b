//! What servers send.

ghost use Rattle.std.specs.Prelude.{◌≡◌, ◌⊎◌, Some, None, IsSome};
ghost use Rattle.rtsp_client.specs.declared.asked.Side.TheVariants.{Source, Target};
ghost use Rattle.pull_session.specs.Passing.{EndsByFault, KeepsPassage, PassState, Passes, ReadsTarget, StaysUnread, TakesUnit, TakesUnits, pass_state};

use crate::reason::Reason;
use crate::session::PullSession;
use rtsp_client::Side;
use rtsp_message::{Fault, Fed, Received, Request, Status, Unit};

impl PullSession {
    /// These bytes of a side came at this moment. After the client's end they are dropped.
    #[tactic(auto, using(crate::proofs::TargetReplies::keeps_none))]
    pub fn read(&mut self, side: Side, bytes: &[u8], now: u64)
        ensures frames { side ≡ Source → self.old.client.end ≡ None → Passes bytes.now now self.old self.new ⊎ StaysUnread self.old self.new }
        ensures ended { IsSome self.old.client.end → self.new ≡ self.old }
        ensures target { side ≡ Target → ReadsTarget self.old self.new }
        ensures mount { self.new.mount ≡ self.old.mount }
    {
        if self.client.end().is_some() {
            return;
        }
        match side {
            Side::Source => self.read_source(bytes, now),
            Side::Target => self.read_target(bytes, now),
        }
    }

    /// These bytes of the source came.
    pub(crate) fn read_source(&mut self, bytes: &[u8], now: u64)
        ensures frames { Passes bytes.now now self.old self.new ⊎ StaysUnread self.old self.new }
        ensures mount { self.new.mount ≡ self.old.mount }
    {
        match self.source_line.reader.feed(bytes) {
            Ok(fed) => self.take_fed(fed, now),
            Err(_) => self.fail(Reason::OutOfMemory, Side::Source),
        }
    }

    /// Takes what was read of the source.
    pub(crate) fn take_fed(&mut self, fed: Fed, now: u64)
        ensures takes { (after : PassState) × TakesUnits fed.units.items now (pass_state self.old) after × EndsByFault fed.fault after (pass_state self.new) }
        ensures source { self.new.source ≡ record self.old.source { waiting = self.new.source.waiting } }
        ensures target { self.new.target ≡ record self.old.target { waiting = self.new.target.waiting } }
        ensures mount { self.new.mount ≡ self.old.mount }
    {
        let Fed { units, fault } = fed;
        self.take_source_units(units, now);
        if let Some(fault) = fault {
            self.fault_source(fault);
        }
    }

    /// The source's stream can't be read on. After a redirect that of the old connection doesn't matter any more.
    fn fault_source(&mut self, fault: Fault)
        ensures ends { EndsByFault (Some fault) (pass_state self.old) (pass_state self.new) }
        ensures source { self.new.source ≡ self.old.source }
        ensures target { self.new.target ≡ self.old.target }
        ensures mount { self.new.mount ≡ self.old.mount }
    {
        if self.next_place.is_none() {
            let side = Side::Source;
            self.fail(Reason::Faulty { side, fault }, side);
        }
    }

    /// These bytes of the target came.
    #[tactic(auto, using(crate::proofs::TargetReplies::keeps_none, crate::proofs::TargetReplies::keeps_same))]
    fn read_target(&mut self, bytes: &[u8], now: u64)
        ensures target { ReadsTarget self.old self.new }
        ensures mount { self.new.mount ≡ self.old.mount }
    {
        match self.target_line.reader.feed(bytes) {
            Ok(Fed { units, fault }) => {
                self.take_target_units(units, now);
                if let Some(fault) = fault {
                    let side = Side::Target;
                    self.fail(Reason::Faulty { side, fault }, side);
                }
            }
            Err(_) => self.fail(Reason::OutOfMemory, Side::Target),
        }
    }

    /// Takes what the source sent.
    fn take_source_units(&mut self, units: Vec<Unit>, now: u64)
        ensures takes { TakesUnits units.items now (pass_state self.old) (pass_state self.new) }
        ensures source { self.new.source ≡ record self.old.source { waiting = self.new.source.waiting } }
        ensures target { self.new.target ≡ record self.old.target { waiting = self.new.target.waiting } }
        ensures mount { self.new.mount ≡ self.old.mount }
    {
        for unit in units {
            self.take_source_unit(unit, now);
        }
    }

    /// Takes a frame or a message of the source.
    fn take_source_unit(&mut self, unit: Unit, now: u64)
        ensures takes { TakesUnit unit now (pass_state self.old) (pass_state self.new) }
        ensures source { self.new.source ≡ record self.old.source { waiting = self.new.source.waiting } }
        ensures target { self.new.target ≡ record self.old.target { waiting = self.new.target.waiting } }
        ensures mount { self.new.mount ≡ self.old.mount }
    {
        match unit {
            Unit::Frame(frame) => self.take_frame(&frame, now),
            Unit::Message(message) => self.take_message(Side::Source, Unit::Message(message), now),
        }
    }

    /// Takes what the target sent. Frames of it are dropped.
    #[tactic(auto, using(crate::proofs::TargetReplies::keeps_none, crate::proofs::TargetReplies::keeps_more))]
    fn take_target_units(&mut self, units: Vec<Unit>, now: u64)
        ensures target { ReadsTarget self.old self.new }
        ensures mount { self.new.mount ≡ self.old.mount }
    {
        for unit in units {
            self.take_message(Side::Target, unit, now);
        }
    }

    /// Takes a message of a side. After a redirect what the old connection still brings is dropped.
    #[tactic(auto, using(crate::proofs::TargetReplies::keeps_same, crate::proofs::TargetReplies::keeps_none))]
    fn take_message(&mut self, side: Side, unit: Unit, now: u64)
        ensures target { side ≡ Source → self.new.target ≡ self.old.target }
        ensures watch { self.new.watch ≡ self.old.watch }
        ensures source { self.new.source ≡ record self.old.source { waiting = self.new.source.waiting } }
        ensures other { side ≡ Target → self.new.source ≡ self.old.source }
        ensures passage { side ≡ Target → KeepsPassage self.old.client.passage self.new.client.passage }
        ensures mount { self.new.mount ≡ self.old.mount }
    {
        if side == Side::Source && self.next_place.is_some() {
            return;
        }
        match Received::from(unit) {
            Received::Frame(_) => {}
            Received::Reply(reply) => self.take_reply(side, &reply, now),
            Received::Request(request) => self.take_request(side, &request),
        }
    }

    /// Replies to a request of a server. While too much waits for that server, its requests have no reply.
    fn take_request(&mut self, side: Side, request: &Request)
        ensures target { side ≡ Source → self.new.target ≡ self.old.target }
        ensures watch { self.new.watch ≡ self.old.watch }
        ensures source { self.new.source ≡ record self.old.source { waiting = self.new.source.waiting } }
        ensures other { side ≡ Target → self.new.source ≡ self.old.source }
        ensures passage { self.new.client.passage ≡ self.old.client.passage }
        ensures mount { self.new.mount ≡ self.old.mount }
    {
        if self.line(side).waiting.is_full() {
            return;
        }
        let is_options = request.method.as_slice() == b"OPTIONS".as_slice();
        let status = if self.client.asks(is_options) == 200 {
            Status::Ok
        } else {
            Status::NotImplemented
        };
        let put = match side {
            Side::Source => self.source_line.waiting.put_reply(status, request.cseq),
            Side::Target => self.target_line.waiting.put_reply(status, request.cseq),
        };
        if put.is_err() {
            self.fail(Reason::OutOfMemory, side);
        }
    }
}
