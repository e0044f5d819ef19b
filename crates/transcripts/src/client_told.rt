//! What is told of a client.

use case_texts::{Fault, Told};
use rtsp_client::{Ask, Asked, ChannelFault, End, Method, SessionFault, Side, Turn};
use std::alloc::AllocError;

fn side_name(side: Side) -> &'static str {
    match side {
        Side::Source => "source",
        Side::Target => "target",
    }
}

/// Tells a request that is to be sent.
pub fn tell_ask(ask: &Ask, told: &mut Told) -> Result<(), AllocError> {
    let number = ask.number;
    told.word(side_name(ask.side).as_bytes())?;
    told.word(method_name(ask.method).as_bytes())?;
    let mut line = Vec::from_slice(
        told.alloc(),
        format!(in told.alloc(); "{number}")?.as_bytes(),
    )?;
    if let Method::SetUp { track, channels } = ask.method {
        let first = channels.first;
        let second = channels.second;
        line.extend_from_slice(format!(in told.alloc();
            " track {track} {first}-{second}"
        )?.as_bytes())?;
    }
    if ask.has_session {
        line.extend_from_slice(b" session")?;
    }
    if ask.is_repeat {
        line.extend_from_slice(b" again")?;
    }
    told.fact(&line)
}

fn method_name(method: Method) -> &'static str {
    match method {
        Method::Options => "OPTIONS",
        Method::Describe => "DESCRIBE",
        Method::SetUp { .. } => "SETUP",
        Method::Announce => "ANNOUNCE",
        Method::Record => "RECORD",
        Method::Play => "PLAY",
        Method::GetParameter => "GET_PARAMETER",
        Method::TearDown => "TEARDOWN",
    }
}

/// Tells what a program does next.
pub fn tell_turn(turn: Turn, told: &mut Told) -> Result<(), Fault> {
    match turn {
        Turn::GoesOn => Ok(told.fact(b"goes on")?),
        Turn::PassesOver => Ok(told.fact(b"passed over")?),
        Turn::ReadsDescription => Ok(told.fact(b"description")?),
        Turn::Redirects => Ok(told.fact(b"elsewhere")?),
        Turn::Challenged => Ok(told.fact(b"challenged")?),
        Turn::LeavesOut { track, status } => {
            Ok(told.fact(format!(in told.alloc(); "left out {track} {status}")?.as_bytes())?)
        }
        Turn::Ends(end) => tell_end(Some(end), told),
    }
}

/// Tells why a client has ended, if it has.
pub fn tell_end(end: Option<End>, told: &mut Told) -> Result<(), Fault> {
    let Some(end) = end else {
        return Ok(told.fact(b"goes on")?);
    };
    told.word(b"ends:")?;
    told.word(end_words(end).as_bytes())?;
    match end {
        End::DescribeRefused { status }
        | End::AllTracksRefused { status }
        | End::TargetRefused { status, .. }
        | End::PlayRefused { status } => {
            Ok(told.fact(format!(in told.alloc(); "{status}")?.as_bytes())?)
        }
        End::Channels { side, .. }
        | End::Session { side, .. }
        | End::SessionGone { side }
        | End::NumbersUsedUp { side }
        | End::StreamEnded { side }
        | End::ConnectionLost { side } => Ok(told.fact(side_name(side).as_bytes())?),
        _ => Ok(told.fact(b".")?),
    }
}

/// The words for an end.
fn end_words(end: End) -> &'static str {
    match end {
        End::DescribeRefused { .. } => "DESCRIBE refused",
        End::TooManyRedirects => "too many redirects",
        End::DescriptionUnusable => "bad description",
        End::NoUsableTrack => "no usable track",
        End::AllTracksRefused { .. } => "all tracks refused",
        End::Channels { fault, .. } => channel_words(fault),
        End::Session { fault, .. } => session_words(fault),
        End::TargetRefused { asked, .. } => refused_words(asked),
        End::TargetAsksPassword => "the target asks for a password",
        End::PasswordRefused => "password refused",
        End::SessionGone { .. } => "session gone",
        End::PlayRefused { .. } => "PLAY refused",
        End::NoReply { .. } => "no reply",
        End::NumbersUsedUp { .. } => "numbers used up",
        End::StreamEnded { .. } => "stream ended",
        End::ConnectionLost { .. } => "connection lost",
        End::Stopped => "stopped",
    }
}

fn channel_words(fault: ChannelFault) -> &'static str {
    match fault {
        ChannelFault::NotInterleaved => "not interleaved",
        ChannelFault::Unreadable => "unreadable channels",
        ChannelFault::OfAnotherTrack => "channels of another track",
    }
}

fn session_words(fault: SessionFault) -> &'static str {
    match fault {
        SessionFault::Missing => "no session",
        SessionFault::TooLong => "a long session",
    }
}

fn refused_words(asked: Asked) -> &'static str {
    match asked {
        Asked::Announce => "ANNOUNCE refused",
        Asked::SetUpTarget => "SETUP refused",
        _ => "RECORD refused",
    }
}
