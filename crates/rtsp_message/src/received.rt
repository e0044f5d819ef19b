//! What a client receives from a server.

use crate::request::Request;
use crate::response::Response;
use crate::unit::Unit;
use interleaved::Frame;

/// What a client receives from a server (RFC 2326, 4 and 10.12).
#[derive(Drop)]
pub enum Received {
    Reply(Response),
    /// A request of the server's own.
    Request(Request),
    Frame(Frame),
}

/// A message whose start line begins with `RTSP/` is a reply, any other a request.
impl From<Unit> for Received {
    ghost use Rattle.std.specs.Prelude.{◌≡◌};
    ghost use Rattle.rtsp_message.specs.ServerStream.{received};

    ghost from_gives = { λ unit it. it ≡ received unit };

    fn from(unit: Unit) -> Received {
        match unit {
            Unit::Frame(frame) => Received::Frame(frame),
            Unit::Message(message) if message.method.as_slice().starts_with(b"RTSP/") => {
                Received::Reply(message.into_response())
            }
            Unit::Message(message) => Received::Request(message),
        }
    }
}
