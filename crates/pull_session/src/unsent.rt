//! Why a request isn't sent.

use crate::reason::{DescriptionFault, LoginFault, Reason};
use request_text::RequestFault;
use rtsp_auth::FieldFault;
use rtsp_client::Asked;
use source_sdp::AnnounceError;

/// Why a request isn't sent.
pub(crate) enum Unsent {
    OutOfMemory,
    Announce(AnnounceError),
    Login(FieldFault),
    TooLong,
}

/// Returns why a try ends whose request isn't sent.
pub(crate) fn reason_of(fault: Unsent, asked: Asked) -> Reason {
    match fault {
        Unsent::OutOfMemory => Reason::OutOfMemory,
        Unsent::Announce(fault) => Reason::Description(DescriptionFault::CannotAnnounce(fault)),
        Unsent::Login(fault) => Reason::Login(LoginFault::Answer(fault)),
        Unsent::TooLong => Reason::RequestTooLong { asked },
    }
}

/// Why a request without an answer to a challenge isn't sent.
pub(crate) fn login_unsent(fault: FieldFault) -> Unsent {
    match fault {
        FieldFault::OutOfMemory => Unsent::OutOfMemory,
        other => Unsent::Login(other),
    }
}

/// Why a request that isn't written isn't sent.
pub(crate) fn text_unsent(fault: RequestFault) -> Unsent {
    match fault {
        RequestFault::OutOfMemory => Unsent::OutOfMemory,
        _ => Unsent::TooLong,
    }
}
