//! Why a media section is left out.
ghost use Rattle.std.specs.Prelude.{◌≡◌};

use std::fmt;

/// Why a media section is left out.
#[derive(Clone, Copy, Debug, PartialEq, Eq, Drop)]
pub enum Reason {
    /// Its `m=` line has a NUL or a CR inside, or names no media, port, protocol and formats (RFC 4566, 5.14 and 9).
    Unreadable,
    /// It is neither audio nor video.
    OtherMedia,
    /// Its protocol isn't `RTP/AVP`.
    OtherProtocol,
    /// It has `a=sendonly`, so it is for the client to send (RFC 4566, 6).
    SendOnly,
    /// It has no control that names a track, and neither has an earlier track (RFC 2326, C.1.1).
    NoControl,
    /// `MAX_TRACKS` tracks are before it.
    TooManyTracks,
}

impl fmt::Display for Reason {
    ghost use Rattle.std.specs.Prelude.{Some};
    ghost use Rattle.source_sdp.specs.Reason.{reason_text};

    ghost output = { λ reason. Some (reason_text reason) };

    fn fmt<W: fmt::Write>(&self, f: &mut fmt::Formatter<W>) -> fmt::Result {
        match self {
            Reason::Unreadable => write!(f, "unreadable media line"),
            Reason::OtherMedia => write!(f, "neither audio nor video"),
            Reason::OtherProtocol => write!(f, "not RTP/AVP"),
            Reason::SendOnly => write!(f, "for the client to send"),
            Reason::NoControl => write!(f, "no control"),
            Reason::TooManyTracks => write!(f, "too many tracks"),
        }
    }
}
