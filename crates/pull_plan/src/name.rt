//! The name that a target's URL gives a stream.
ghost use Rattle.std.specs.Prelude.{◌≡◌};
ghost use Rattle.pull_plan.specs.Names.{name_in};

use base_syntax::cut;

/// How many bytes `rtsp://` has.
const SCHEME_BYTES: usize = 7;

/// Returns the name of the mount that a target's URL names: its path without the first slash. The URL is one that was accepted, as
/// `rtsp://127.0.0.1:8554/door`.
pub fn name_of(uri: &[u8]) -> &[u8]
    ensures { result.now ≡ name_in uri.now }
{
    let Some(rest) = uri.get(SCHEME_BYTES..) else {
        return b"";
    };
    match cut(rest, b'/') {
        (_, Some(name)) => name,
        (_, None) => b"",
    }
}
