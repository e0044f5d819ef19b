//! Why a try ends.

use rtsp_auth::{ChoiceFault, FieldFault};
use rtsp_client::{Asked, ChannelFault, End, SessionFault, Side};
use rtsp_message::Fault;
use source_sdp::AnnounceError;
use source_urls::{ControlFault, UrlFault};
use std::fmt;

/// Why a source's description can't be used, beside what the client itself finds.
#[derive(Clone, Copy, Debug, PartialEq, Eq, Drop)]
pub enum DescriptionFault {
    /// It has more than 65,536 bytes.
    TooLong,
    /// The URI of its session can't be made.
    SessionUri(ControlFault),
    /// What would be announced for it is no description that a relay takes.
    CannotAnnounce(AnnounceError),
}

/// Why a source's challenge isn't answered.
#[derive(Clone, Copy, Debug, PartialEq, Eq, Drop)]
pub enum LoginFault {
    /// There is no password.
    NoPassword,
    /// No challenge can be answered.
    NoKnownChallenge,
    /// The challenges can't be read.
    Challenge(ChoiceFault),
    /// The answer can't be written.
    Answer(FieldFault),
    /// The password would be sent as it is (Basic) to another host than that of the source's URL.
    OtherHost,
    /// The password is refused.
    Refused,
}

/// Why a try ends. The first reason counts.
#[derive(Clone, Copy, Debug, PartialEq, Eq, Drop)]
pub enum Reason {
    /// The client ended.
    Client(End),
    /// What a server sends is no RTSP.
    Faulty { side: Side, fault: Fault },
    /// No frame came that goes on to the target for this number of milliseconds.
    Silent { milliseconds: u64 },
    /// The target took no byte for 20 seconds.
    TargetStalled,
    /// The source's description can't be used.
    Description(DescriptionFault),
    /// The source asks for a password.
    Login(LoginFault),
    /// The source's description is elsewhere, and the URL of that place can't be used. `None`: it has no Location.
    BadRedirect(Option<UrlFault>),
    /// A request can't be written.
    RequestTooLong { asked: Asked },
    OutOfMemory,
}

/// The word for a side.
fn side_word(side: Side) -> &'static str {
    match side {
        Side::Source => "source",
        Side::Target => "target",
    }
}

/// The name of a request.
fn asked_word(asked: Asked) -> &'static str {
    match asked {
        Asked::Options => "OPTIONS",
        Asked::Describe => "DESCRIBE",
        Asked::SetUp | Asked::SetUpTarget => "SETUP",
        Asked::Announce => "ANNOUNCE",
        Asked::Record => "RECORD",
        Asked::Play => "PLAY",
        Asked::KeepAlive(_) => "keepalive",
        Asked::TearDown(_) => "TEARDOWN",
    }
}

/// What is wrong with a track's channels.
fn channels_word(fault: ChannelFault) -> &'static str {
    match fault {
        ChannelFault::NotInterleaved => "no RTP over TCP",
        ChannelFault::Unreadable => "unreadable channels",
        ChannelFault::OfAnotherTrack => "channels of another track",
    }
}

/// What is wrong with a session.
fn session_word(fault: SessionFault) -> &'static str {
    match fault {
        SessionFault::Missing => "no session",
        SessionFault::TooLong => "session identifier longer than 512 bytes",
    }
}

/// Writes why a client ended.
fn write_end<W: fmt::Write>(end: End, f: &mut fmt::Formatter<W>) -> fmt::Result {
    match end {
        End::DescribeRefused { status } => write!(f, "source refused DESCRIBE: {status}"),
        End::TooManyRedirects => write!(f, "more than 3 redirects"),
        End::DescriptionUnusable => write!(f, "unusable description"),
        End::NoUsableTrack => write!(f, "no usable track"),
        End::AllTracksRefused { status } => write!(
            f,
            "source refused SETUP of all tracks: {status}"
        ),
        End::Channels { side, fault } => {
            write!(f, "{} gave {}", side_word(side), channels_word(fault))
        }
        End::Session { side, fault } => {
            write!(f, "{} gave {}", side_word(side), session_word(fault))
        }
        End::TargetRefused { asked, status } => {
            write!(f, "target refused {}: {status}", asked_word(asked))
        }
        End::TargetAsksPassword => write!(f, "target asks for a password"),
        End::PasswordRefused => write!(f, "password refused"),
        End::SessionGone { side } => write!(f, "session gone at {}", side_word(side)),
        End::PlayRefused { status } => write!(f, "source refused PLAY: {status}"),
        End::NoReply { asked } => write!(
            f,
            "no reply to {} from {} for 10 s",
            asked_word(asked),
            side_word(asked.side())
        ),
        End::NumbersUsedUp { side } => write!(f, "no request number left at {}", side_word(side)),
        End::StreamEnded { side } => write!(f, "{} closed the connection", side_word(side)),
        End::ConnectionLost { side } => write!(f, "connection to {} lost", side_word(side)),
        End::Stopped => write!(f, "stopped"),
    }
}

/// Writes why a challenge isn't answered.
fn write_login<W: fmt::Write>(fault: LoginFault, f: &mut fmt::Formatter<W>) -> fmt::Result {
    match fault {
        LoginFault::NoPassword => write!(f, "source asks for a password"),
        LoginFault::NoKnownChallenge => write!(f, "source asks for an unknown way to log in"),
        LoginFault::Challenge(fault) => write!(f, "source's challenge: {fault}"),
        LoginFault::Answer(fault) => write!(f, "answer to the source's challenge: {fault}"),
        LoginFault::OtherHost => write!(f, "password not sent to another host (Basic)"),
        LoginFault::Refused => write!(f, "password refused"),
    }
}

/// Writes why a description can't be used.
fn write_description<W: fmt::Write>(
    fault: DescriptionFault,
    f: &mut fmt::Formatter<W>,
) -> fmt::Result {
    match fault {
        DescriptionFault::TooLong => write!(f, "description longer than 65536 bytes"),
        DescriptionFault::SessionUri(fault) => write!(f, "description: {fault}"),
        DescriptionFault::CannotAnnounce(fault) => write!(f, "{fault}"),
    }
}

impl fmt::Display for Reason {
    fn fmt<W: fmt::Write>(&self, f: &mut fmt::Formatter<W>) -> fmt::Result {
        match *self {
            Reason::Client(end) => write_end(end, f),
            Reason::Faulty { side, fault } => {
                write!(
                    f,
                    "stream fault {} of {}: {fault}",
                    fault.number(),
                    side_word(side)
                )
            }
            Reason::Silent { milliseconds } => {
                write!(f, "no frame for {} s", milliseconds / 1_000)
            }
            Reason::TargetStalled => write!(f, "target took nothing for 20 s"),
            Reason::Description(fault) => write_description(fault, f),
            Reason::Login(fault) => write_login(fault, f),
            Reason::BadRedirect(Some(fault)) => write!(f, "redirect: {fault}"),
            Reason::BadRedirect(None) => write!(f, "redirect without a place"),
            Reason::RequestTooLong { asked } => { write!(f, "{} can't be sent", asked_word(asked)) }
            Reason::OutOfMemory => write!(f, "out of memory"),
        }
    }
}
