//! What a client sends.
ghost use Rattle.std.specs.Prelude.{◌≡◌, ◌⊎◌, ◌≤◌, IfNone, IfSome, None, Some, is_some};
ghost use Rattle.rtsp_client.specs.Asking.{IsIdle};
ghost use Rattle.rtsp_client.specs.Clients.{asked_of, asked_pair, due, keepalive_method, method_of, number_at, repeats, session_at, source_due, step_or_keepalive, teardown_due, waiting_at, with_end};
ghost use Rattle.rtsp_client.specs.Runs.{Goes, idles, runs_out, sends};
ghost use Rattle.rtsp_client.specs.Steps.{asked_at, track_in};
ghost use Rattle.rtsp_client.specs.TargetCourse.{ask_of};
ghost use Rattle.rtsp_client.specs.declared.ask.Method.TheVariants.{SetUp};

use crate::ask::{Ask, Method};
use crate::asked::{Asked, Side};
use crate::awaits::Awaits;
use crate::client::Client;
use crate::connection::Connection;
use crate::end::End;
use crate::keepalive::KeepaliveMethod;
use transport_header::ChannelPair;

impl Client {
    /// Returns a request that is to be sent at this moment, in milliseconds. `None` if there is none: a program calls it until then.
    ///
    /// The client ends if all numbers of a connection were used.
    pub fn next(&mut self, now: u64) -> Option<Ask>
        ensures due { IfSome result (λ ask. due ask.side self.old now ≡ Some ask.asked) }
        ensures number { IfSome result (λ ask. ask.number ≡ number_at ask.side self.old) }
        ensures method { IfSome result (λ ask. ask.method ≡ method_of ask.asked self.old) }
        ensures session { IfSome result (λ ask. ask.has_session ≡ is_some (session_at ask.side self.old)) }
        ensures again { IfSome result (λ ask. ask.is_repeat ≡ repeats ask.side self.old) }
        ensures is { IfSome result (λ ask. ask ≡ ask_of ask.side ask.asked self.old) }
        ensures asked { IfSome result (λ ask. self.new ≡ asked_of ask.side ask.asked now self.old) }
        ensures none { IfNone result (IsIdle self.old now self.new) }
        ensures goes { IfSome result (λ ask. Goes (sends ask.side ask.asked ask.number) self.old self.new) }
        ensures rests { IfNone result (Goes idles self.old self.new ⊎ Goes (runs_out Side.Source) self.old self.new ⊎ Goes (runs_out Side.Target) self.old self.new) }
    {
        if let Some(asked) = self.due(Side::Source, now) {
            return self.ask(Side::Source, asked, now);
        }
        let asked = self.due(Side::Target, now)?;
        self.ask(Side::Target, asked, now)
    }

    /// Returns what is to be sent to a side.
    fn due(&self, side: Side, now: u64) -> Option<Asked>
        ensures { result ≡ due side self.now now }
    {
        if self.end.is_some() || self.connection(side).is_waiting() {
            return None;
        }
        if self.is_stopping {
            return self.teardown_due(side);
        }
        match side {
            Side::Source => self.source_due(now),
            Side::Target => self.step_or_keepalive(Side::Target, now),
        }
    }

    /// Returns TEARDOWN if a side's session is open.
    fn teardown_due(&self, side: Side) -> Option<Asked>
        ensures { result ≡ teardown_due (session_at side self.now) side }
    {
        if self.connection(side).is_open() {
            Some(Asked::TearDown(side))
        } else {
            None
        }
    }

    /// Returns what is to be sent to the source if no request waits for its reply.
    fn source_due(&self, now: u64) -> Option<Asked>
        ensures { result ≡ source_due self.now.awaits self.now now }
    {
        match self.awaits {
            Awaits::Nothing => self.step_or_keepalive(Side::Source, now),
            Awaits::Again { asked } => Some(asked),
            Awaits::Description | Awaits::Connection | Awaits::Password { .. } => None,
        }
    }

    /// Returns what the step asks a side for, or else a request that keeps its session alive.
    fn step_or_keepalive(&self, side: Side, now: u64) -> Option<Asked>
        ensures { result ≡ step_or_keepalive (asked_at side self.now.place.step) side self.now now }
    {
        let asked = self.progress.step().asked_at(side);
        if asked.is_some() {
            return asked;
        }
        if self.connection(side).is_due(now) {
            Some(Asked::KeepAlive(side))
        } else {
            None
        }
    }

    /// Returns a request that is sent to a side. `None` if all its numbers were used, which ends the client.
    fn ask(&mut self, side: Side, asked: Asked, now: u64) -> Option<Ask>
        requires free { waiting_at side self.old ≡ None }
        ensures side { IfSome result (λ ask. ask.side ≡ side) }
        ensures asked { IfSome result (λ ask. ask.asked ≡ asked) }
        ensures number { IfSome result (λ ask. ask.number ≡ number_at side self.old) }
        ensures method { IfSome result (λ ask. ask.method ≡ method_of asked self.old) }
        ensures session { IfSome result (λ ask. ask.has_session ≡ is_some (session_at side self.old)) }
        ensures again { IfSome result (λ ask. ask.is_repeat ≡ repeats side self.old) }
        ensures is { IfSome result (λ ask. ask ≡ ask_of side asked self.old) }
        ensures sent { IfSome result (λ ask. self.new ≡ asked_of side asked now self.old) }
        ensures used_up { IfNone result (4_294_967_295 ≤ number_at side self.old) }
        ensures ends { IfNone result (self.new ≡ with_end (End.NumbersUsedUp side) self.old) }
    {
        let method = self.method(asked);
        let has_session = self.connection(side).is_open();
        let is_repeat = self.repeats(side);
        let Some(number) = self.number(side, asked, now) else {
            self.end = Some(End::NumbersUsedUp { side });
            return None;
        };
        Some(Ask {
            side,
            method,
            asked,
            number,
            has_session,
            is_repeat,
        })
    }

    /// Returns whether a request that is due to a side is one that was challenged.
    fn repeats(&self, side: Side) -> bool
        ensures { result ≡ repeats side self.now }
    {
        match side {
            Side::Source => matches!(self.awaits, Awaits::Again { .. }) && !self.is_stopping,
            Side::Target => false,
        }
    }

    /// Returns the number of a request that is sent to a side.
    fn number(&mut self, side: Side, asked: Asked, now: u64) -> Option<u32>
        ensures number { IfSome result (λ number. number ≡ number_at side self.old) }
        ensures sent { IfSome result (λ number. self.new ≡ asked_of side asked now self.old) }
        ensures used_up { IfNone result (waiting_at side self.old ≡ None → 4_294_967_295 ≤ number_at side self.old) }
        ensures none { IfNone result (self.new ≡ self.old) }
    {
        match side {
            Side::Source => {
                let number = self.source.ask(asked, now)?;
                self.awaits = Awaits::Nothing;
                Some(number)
            }
            Side::Target => self.target.ask(asked, now),
        }
    }

    /// Returns the method of a request, with what its headers say.
    fn method(&self, asked: Asked) -> Method
        ensures { result ≡ method_of asked self.now }
    {
        match asked {
            Asked::Options => Method::Options,
            Asked::Describe => Method::Describe,
            Asked::SetUp | Asked::SetUpTarget => self.set_up_method(),
            Asked::Announce => Method::Announce,
            Asked::Record => Method::Record,
            Asked::Play => Method::Play,
            Asked::KeepAlive(side) => keepalive_method(self.connection(side)),
            Asked::TearDown(_) => Method::TearDown,
        }
    }

    /// Returns SETUP of the track that is set up.
    fn set_up_method(&self) -> Method
        ensures { result ≡ SetUp (track_in self.now.place.step) (asked_pair (track_in self.now.place.step)) }
    {
        Method::SetUp {
            track: self.progress.track(),
            channels: self.asked_pair(),
        }
    }

    /// Returns the channels that are asked for the track that is set up.
    pub(crate) fn asked_pair(&self) -> ChannelPair
        ensures { result ≡ asked_pair (track_in self.now.place.step) }
    {
        let first = 2 * self.progress.track() as u8;
        ChannelPair {
            first,
            second: first + 1,
        }
    }
}

/// Returns the method that keeps a connection's session alive.
fn keepalive_method(connection: &Connection) -> Method
    ensures { result ≡ keepalive_method connection.now.keepalive }
{
    match connection.keepalive {
        Some(keepalive) => match keepalive.method() {
            KeepaliveMethod::GetParameter => Method::GetParameter,
            KeepaliveMethod::Options => Method::Options,
        },
        None => Method::Options,
    }
}
