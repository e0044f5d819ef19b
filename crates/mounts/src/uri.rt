//! Request URIs (RFC 2326, 6.1).
ghost use Rattle.std.specs.Prelude.{MatchResult};
ghost use Rattle.mounts.specs.Uri.{IsRefused, IsUri};

use crate::fault::UriFault;
use crate::target::{Target, read_target};
use std::alloc::Global;

/// A request URI.
#[derive(Drop)]
pub enum Uri {
    /// `*`: the request is about the server itself.
    Star,
    /// An absolute URI.
    At(Target),
}

/// Reads a request URI: `*`, or a URL of scheme `rtsp` whose path is empty or begins with a slash (RFC 2326, 3.2 and
/// 6.1), by the definition of a URL that the crate `url` has. The host isn't looked at. `BadUri` comes exactly for a
/// text that is neither.
pub fn read_uri(alloc: Global, text: &[u8]) -> Result<Uri, UriFault>
    ensures { MatchResult result (IsUri text.now) (IsRefused text.now) }
{
    if text == b"*".as_slice() {
        return Ok(Uri::Star);
    }
    Ok(Uri::At(read_target(alloc, text)?))
}
