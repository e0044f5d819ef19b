//! What a reply means for a client.
ghost use Rattle.std.specs.Prelude.{◌≡◌};
ghost use Rattle.rtsp_client.specs.declared.asked.Asked.TheVariants.{Options, Describe, SetUp, Announce, SetUpTarget, Record, Play, KeepAlive, TearDown};
ghost use Rattle.rtsp_client.specs.Table.{verdict_of};

use crate::asked::{Asked, Side};
use crate::status_class::StatusClass;

/// What a reply means for a client.
#[derive(Clone, Copy, Debug, PartialEq, Eq, Drop)]
pub enum Verdict {
    /// The reply is still to come.
    Waits,
    /// What was asked for is done.
    GoesOn,
    /// The description is elsewhere.
    Follows,
    /// The track is left out.
    LeavesOut,
    /// The source asks for a password.
    Challenged,
    /// The target asks for a password, which ends the client.
    TargetAsksPassword,
    /// The server has no such session, which ends the client.
    SessionGone,
    /// Sessions are kept alive by OPTIONS from now on.
    UsesOptions,
    /// It is refused, which ends the client.
    Refused,
    /// The session has ended.
    Over,
}

impl Verdict {
    /// Returns what a reply of this class means for a request.
    pub fn of(asked: Asked, class: StatusClass) -> Verdict
        ensures { result ≡ verdict_of asked class }
    {
        match asked {
            Asked::Options => options(class),
            Asked::Describe => describe(class),
            Asked::SetUp => set_up(class),
            Asked::Play => play(class),
            Asked::Announce | Asked::SetUpTarget | Asked::Record => of_target(class),
            Asked::KeepAlive(side) => keep_alive(side, class),
            Asked::TearDown(side) => tear_down(side, class),
        }
    }
}

fn options(class: StatusClass) -> Verdict
    ensures { result ≡ verdict_of Options class }
{
    match class {
        StatusClass::Provisional => Verdict::Waits,
        StatusClass::Unauthorized => Verdict::Challenged,
        _ => Verdict::GoesOn,
    }
}

fn describe(class: StatusClass) -> Verdict
    ensures { result ≡ verdict_of Describe class }
{
    match class {
        StatusClass::Provisional => Verdict::Waits,
        StatusClass::Success => Verdict::GoesOn,
        StatusClass::Moved => Verdict::Follows,
        StatusClass::Unauthorized => Verdict::Challenged,
        _ => Verdict::Refused,
    }
}

fn set_up(class: StatusClass) -> Verdict
    ensures { result ≡ verdict_of SetUp class }
{
    match class {
        StatusClass::Provisional => Verdict::Waits,
        StatusClass::Success => Verdict::GoesOn,
        StatusClass::Unauthorized => Verdict::Challenged,
        _ => Verdict::LeavesOut,
    }
}

fn play(class: StatusClass) -> Verdict
    ensures { result ≡ verdict_of Play class }
{
    match class {
        StatusClass::Provisional => Verdict::Waits,
        StatusClass::Success => Verdict::GoesOn,
        StatusClass::Unauthorized => Verdict::Challenged,
        _ => Verdict::Refused,
    }
}

fn of_target(class: StatusClass) -> Verdict
    ensures announce { result ≡ verdict_of Announce class }
    ensures set_up { result ≡ verdict_of SetUpTarget class }
    ensures recording { result ≡ verdict_of Record class }
{
    match class {
        StatusClass::Provisional => Verdict::Waits,
        StatusClass::Success => Verdict::GoesOn,
        StatusClass::Unauthorized => Verdict::TargetAsksPassword,
        _ => Verdict::Refused,
    }
}

fn keep_alive(side: Side, class: StatusClass) -> Verdict
    ensures { result ≡ verdict_of (KeepAlive side) class }
{
    match class {
        StatusClass::Provisional => Verdict::Waits,
        StatusClass::Success => Verdict::GoesOn,
        StatusClass::NoSession => Verdict::SessionGone,
        StatusClass::Unauthorized => match side {
            Side::Source => Verdict::Challenged,
            Side::Target => Verdict::TargetAsksPassword,
        },
        _ => Verdict::UsesOptions,
    }
}

fn tear_down(side: Side, class: StatusClass) -> Verdict
    ensures { result ≡ verdict_of (TearDown side) class }
{
    match class {
        StatusClass::Provisional => Verdict::Waits,
        _ => Verdict::Over,
    }
}
