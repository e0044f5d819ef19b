//! Why a try has ended.
ghost use Rattle.std.specs.Prelude.{◌↔◌, IsTrue};
ghost use Rattle.relay_pull.specs.Ends.{IsGoodEnd, IsStop};

use pull_session::{LoginFault, Reason};
use rtsp_auth::CredentialsFault;
use rtsp_client::{End, Side};
use source_urls::UrlFault;
use std::fmt;
use std::io::ErrorKind;

/// Why a try has ended.
#[derive(Clone, Copy, Debug, PartialEq, Eq, Drop)]
pub enum TryEnd {
    /// The host of this side has no address, or its lookup failed.
    NotFound { side: Side, kind: ErrorKind },
    /// No address of this side could be connected to, the last one for this reason.
    NotConnected { side: Side, kind: ErrorKind },
    /// The system has no means to wait on sockets.
    NoSystem(ErrorKind),
    /// The user's name or the password can't be sent.
    Credentials(CredentialsFault),
    /// A URL can't be used.
    Url(UrlFault),
    OutOfMemory,
    /// The system has no random numbers.
    NoRandomSource,
    /// The connection to this side was lost, as the system says for this reason.
    Lost { side: Side, kind: ErrorKind },
    /// The session of the try has ended.
    Session(Reason),
}

impl TryEnd {
    /// Returns whether the source has refused the password.
    pub fn is_refused_password(self) -> bool {
        matches!(
            self,
            TryEnd::Credentials(_)
                | TryEnd::Session(Reason::Login(LoginFault::Refused))
                | TryEnd::Session(Reason::Client(End::PasswordRefused))
        )
    }

    /// Returns whether the source has ended its stream, or the program was to stop.
    pub fn is_good(self) -> bool
        ensures { IsTrue result ↔ IsGoodEnd self }
    {
        matches!(
            self,
            TryEnd::Session(Reason::Client(End::StreamEnded { side: Side::Source }))
                | TryEnd::Session(Reason::Client(End::Stopped))
        )
    }

    /// Returns whether the program was to stop.
    pub fn is_stop(self) -> bool
        ensures { IsTrue result ↔ IsStop self }
    {
        matches!(self, TryEnd::Session(Reason::Client(End::Stopped)))
    }
}

/// The word for a side.
fn side_word(side: Side) -> &'static str {
    match side {
        Side::Source => "source",
        Side::Target => "target",
    }
}

impl fmt::Display for TryEnd {
    fn fmt<W: fmt::Write>(&self, f: &mut fmt::Formatter<W>) -> fmt::Result {
        match *self {
            TryEnd::NotFound { side, kind } => {
                write!(f, "no address of the {}: {kind}", side_word(side))
            }
            TryEnd::NotConnected { side, kind } => {
                write!(f, "no connection to the {}: {kind}", side_word(side))
            }
            TryEnd::NoSystem(kind) => write!(f, "sockets can't be waited on: {kind}"),
            TryEnd::Credentials(fault) => write!(f, "password: {fault}"),
            TryEnd::Url(fault) => write!(f, "{fault}"),
            TryEnd::OutOfMemory => write!(f, "out of memory"),
            TryEnd::NoRandomSource => write!(f, "no random source"),
            TryEnd::Lost { side, kind } => {
                write!(f, "connection to the {} lost: {kind}", side_word(side))
            }
            TryEnd::Session(reason) => write!(f, "{reason}"),
        }
    }
}
