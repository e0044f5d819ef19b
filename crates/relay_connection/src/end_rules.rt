//! What decides how a connection ends.
ghost use Rattle.std.specs.Prelude.{◌≡◌, ◌↔◌, IsTrue};
ghost use Rattle.relay_connection.specs.Endings.{HasLastText, failure_of as failure_by};

use relay_accounts::{ConnectionEnd, WireFailure};

/// Whether a connection that ends so was sent a last text, which its peer is given a moment to read. `is_stranded` if its session
/// expired while it played.
pub(crate) fn has_last_text(is_stranded: bool, end: ConnectionEnd) -> bool
    ensures { IsTrue result ↔ HasLastText is_stranded end }
{
    match end {
        ConnectionEnd::StreamFault(_) | ConnectionEnd::OutOfMemory => true,
        ConnectionEnd::Expired => is_stranded,
        _ => false,
    }
}

/// How the system has ended a connection that was sent frames when it ended, or not. A reset is an end like others of a peer that
/// was sent none.
pub(crate) fn failure_of(failure: Option<WireFailure>, was_sent_frames: bool) -> Option<WireFailure>
    ensures { result ≡ failure_by failure was_sent_frames }
{
    match failure {
        Some(WireFailure::Reset) if !was_sent_frames => None,
        failure => failure,
    }
}
