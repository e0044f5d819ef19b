//! What a reply means for a client.
ghost use Rattle.std.specs.Prelude.{◌≡◌, None, IsSome};
ghost use Rattle.rtsp_client.specs.Clients.{waiting_at};
ghost use Rattle.rtsp_client.specs.Replies.{IsFollowed, IsTakenFrom, LeavesOutTrack, StepIsDone, Steps, TakesOf, answered_of, keepalive_side, keepalive_turn, kept_alive, options_at, refusal, teardown_side};
ghost use Rattle.rtsp_client.specs.Requests.{IsReply};
ghost use Rattle.rtsp_client.specs.Runs.{Goes, takes};
ghost use Rattle.rtsp_client.specs.declared.requests.Reply.{Reply};
ghost use Rattle.rtsp_client.specs.SettingUp.{IsEnd};

use crate::asked::{Asked, Side};
use crate::awaits::Awaits;
use crate::client::Client;
use crate::end::End;
use crate::reply_facts::ReplyFacts;
use crate::requests::Reply;
use crate::step::Step;
use crate::turn::Turn;
use crate::verdict::Verdict;

impl Client {
    /// A reply comes from a side at this moment, in milliseconds. Returns what the program does with it.
    ///
    /// After the client's end each reply is passed over.
    pub fn replied(&mut self, side: Side, reply: ReplyFacts, now: u64) -> Turn
        ensures ended { IsSome self.old.end → (self.new ≡ self.old) × (result ≡ Turn.PassesOver) }
        ensures taken { self.old.end ≡ None → IsTakenFrom side reply now self.old self.new result }
        ensures goes { self.old.end ≡ None → (answer : Reply) × Goes (takes side answer) self.old self.new }
    {
        if self.end.is_some() {
            return Turn::PassesOver;
        }
        match self.answered(side, reply.number, reply.status) {
            Reply::Of { asked, verdict } => self.takes(side, asked, verdict, reply, now),
            Reply::Other => Turn::PassesOver,
        }
    }

    /// Returns what a reply with this number and status is.
    fn answered(&mut self, side: Side, number: Option<u32>, status: u16) -> Reply
        ensures is { IsReply (waiting_at side self.old) number status result }
        ensures done { self.new ≡ answered_of side result self.old }
    {
        match side {
            Side::Source => self.source.replied(number, status),
            Side::Target => self.target.replied(number, status),
        }
    }

    /// Takes the reply of a side to a request.
    fn takes(
        &mut self,
        from: Side,
        asked: Asked,
        verdict: Verdict,
        reply: ReplyFacts,
        now: u64,
    ) -> Turn
        ensures { TakesOf from asked verdict reply now self.old self.new result }
    {
        if let Some(side) = keepalive_side(asked) {
            return self.kept_alive(side, verdict);
        }
        if let Some(side) = teardown_side(asked) {
            return self.torn_down(side, verdict);
        }
        if self.progress.step().asked_at(from) != Some(asked) {
            return Turn::PassesOver;
        }
        self.steps(asked, verdict, reply, now)
    }

    /// Takes the reply to a request that keeps a session alive.
    fn kept_alive(&mut self, side: Side, verdict: Verdict) -> Turn
        ensures state { self.new ≡ kept_alive verdict side self.old }
        ensures turn { result ≡ keepalive_turn verdict side }
    {
        match verdict {
            Verdict::Challenged => {
                self.awaits = Awaits::Password {
                    asked: Asked::KeepAlive(side),
                };
                Turn::Challenged
            }
            Verdict::TargetAsksPassword => self.ends(End::TargetAsksPassword),
            Verdict::SessionGone => self.ends(End::SessionGone { side }),
            Verdict::UsesOptions => {
                self.use_options(side);
                Turn::GoesOn
            }
            _ => Turn::GoesOn,
        }
    }

    /// From now on OPTIONS keeps a side's session alive.
    pub(crate) fn use_options(&mut self, side: Side)
        ensures { self.new ≡ options_at side self.old }
    {
        match side {
            Side::Source => self.source.use_options(),
            Side::Target => self.target.use_options(),
        }
    }

    /// Takes the reply to the step's request.
    fn steps(&mut self, asked: Asked, verdict: Verdict, reply: ReplyFacts, now: u64) -> Turn
        ensures { Steps verdict asked reply now self.old self.new result }
    {
        match verdict {
            Verdict::GoesOn => self.step_done(reply, now),
            Verdict::Follows => self.follows(),
            Verdict::LeavesOut => self.leaves_out(reply.status),
            Verdict::Challenged => {
                self.awaits = Awaits::Password { asked };
                Turn::Challenged
            }
            Verdict::TargetAsksPassword => self.ends(End::TargetAsksPassword),
            Verdict::Refused => self.ends(refusal(asked, reply.status)),
            Verdict::Waits | Verdict::SessionGone | Verdict::UsesOptions | Verdict::Over => {
                Turn::GoesOn
            }
        }
    }

    /// What the step asked for has succeeded.
    fn step_done(&mut self, reply: ReplyFacts, now: u64) -> Turn
        ensures { StepIsDone self.old.place.step reply now self.old self.new result }
    {
        match self.progress.step() {
            Step::Options => {
                self.has_get_parameter = reply.has_get_parameter;
                self.progress.done();
                Turn::GoesOn
            }
            Step::Describe => {
                self.awaits = Awaits::Description;
                Turn::ReadsDescription
            }
            Step::SetUp { .. } => self.sets_up(Side::Source, reply, now),
            Step::SetUpTarget { .. } => self.sets_up(Side::Target, reply, now),
            Step::Announce | Step::Record | Step::Play => {
                self.progress.done();
                Turn::GoesOn
            }
            Step::Passing => Turn::GoesOn,
        }
    }

    /// The description is elsewhere.
    fn follows(&mut self) -> Turn
        ensures { IsFollowed self.old self.new result }
    {
        if self.redirects.follow() {
            self.awaits = Awaits::Connection;
            Turn::Redirects
        } else {
            self.ends(End::TooManyRedirects)
        }
    }

    /// The track that was asked for is refused with this status.
    fn leaves_out(&mut self, status: u16) -> Turn
        ensures { LeavesOutTrack self.old.place.step status self.old self.new result }
    {
        let Step::SetUp { track } = self.progress.step() else {
            return Turn::GoesOn;
        };
        if self.progress.left_out().is_err() {
            return self.ends(End::AllTracksRefused { status });
        }
        Turn::LeavesOut { track, status }
    }

    /// The client ends. It hadn't yet.
    pub(crate) fn ends(&mut self, end: End) -> Turn
        ensures { IsEnd end self.old self.new result }
    {
        self.end = Some(end);
        Turn::Ends(end)
    }
}

/// Returns whose session a request keeps alive, if it is sent for that.
fn keepalive_side(asked: Asked) -> Option<Side>
    ensures { result ≡ keepalive_side asked }
{
    match asked {
        Asked::KeepAlive(side) => Some(side),
        _ => None,
    }
}

/// Returns whose session a request ends, if it is sent for that.
fn teardown_side(asked: Asked) -> Option<Side>
    ensures { result ≡ teardown_side asked }
{
    match asked {
        Asked::TearDown(side) => Some(side),
        _ => None,
    }
}

/// Returns why a client ends if a step's request is refused with this status.
fn refusal(asked: Asked, status: u16) -> End
    ensures { result ≡ refusal asked status }
{
    match asked {
        Asked::Describe => End::DescribeRefused { status },
        Asked::Play => End::PlayRefused { status },
        _ => End::TargetRefused { asked, status },
    }
}
