//! What a request is checked for, and whether it is accepted or refused.
//!
//! The order of the checks is defined in `specs/Checks.antt` (`checks_of`), and `by_method` makes them in that order, one list
//! for each method. The checks themselves:
//!
//! - of any request: `any_request` (its number, version, method, what it requires, its URI) and `session_and_state` (that its
//!   Session field names the connection's session, and the method fits the state);
//! - what the URI names: `named_mount` (of a DESCRIBE or a SETUP), `named_session` (of a PLAY, RECORD, PAUSE or TEARDOWN);
//! - a method's own: `announce`, `setup`, `playing` (PLAY, RECORD, PAUSE and TEARDOWN), and in `by_method` those of DESCRIBE
//!   and GET_PARAMETER; `fields` reads Accept and Content-Type for them.
//!
//! `asking` is a request with what is known for it. It ends as `accepted`, with what the checks found out, or with a `refusal`.
mod accepted;
mod announce;
mod any_request;
mod asking;
mod by_method;
mod fields;
mod named_mount;
mod named_session;
mod playing;
mod refusal;
mod session_and_state;
mod setup;

use crate::method::Method;
pub(crate) use accepted::Accepted;
pub use any_request::sound_method;
pub(crate) use refusal::Refusal;

/// What a request is checked for (RFC 2326, 10 to 12). Each method has its list of checks, in the order that
/// `specs/Checks.antt` defines (`checks_of`), and the first that a request doesn't pass decides how it is refused.
#[derive(Clone, Copy, Debug, PartialEq, Eq, Drop)]
pub enum Check {
    /// Its number can be read (12.17).
    HasCSeq,
    /// It is of RTSP 1.0 (3.1).
    HasVersion,
    /// Its method is one of `Method` (10).
    HasMethod,
    /// It requires no option (12.32).
    RequiresNothing,
    /// Its URI can be read, and is `*` only where the method may ask the server itself (6.1).
    HasUri(Method),
    /// Its Session field names the connection's session, and stands where one is needed (12.37).
    HasItsSession(Method),
    /// Its URI names what the method is about.
    NamesAStream(Method),
    /// The method is allowed in the session's state (A.2).
    FitsState(Method),
    /// A GET_PARAMETER asks for no parameter (10.8).
    HasNoBody,
    /// The Accept field, if any, has descriptions in it (12.1).
    AcceptsSdp,
    /// The connection owns no mount, and the URI's path is a name that is free (10.3).
    MayAnnounce,
    /// The Content-Type field, if any, is that of descriptions (12.16).
    HasSdpType,
    /// The body is a description, of however many tracks (C).
    IsDescription,
    /// The description has no more tracks than a mount may have.
    HasFewTracks,
    /// One more mount may be made.
    HasRoomForMount,
    /// The connection owns no mount but the one that is named.
    OwnsNoOther,
    /// A track is named, and not several at once (10.4).
    NamesATrack,
    /// A spec of the Transport field is acceptable (12.39).
    HasTransport,
    /// Nobody but the mount's owner asks to record.
    MayRecord,
    /// A session number is left.
    HasRoomForSession,
    /// The session isn't for recording.
    IsForPlaying,
    /// The session is for recording.
    IsForRecording,
    /// The URI names all of the session's tracks (10.5 to 10.7).
    IsAggregate,
    /// A session that begins to play gets a seat.
    HasFreeSeat,
}
