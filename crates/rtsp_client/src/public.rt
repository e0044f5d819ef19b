//! The methods that a server says it has (RFC 2326, 12.28).
ghost use Rattle.std.specs.Prelude.{◌≡◌};
ghost use Rattle.rtsp_client.specs.PublicFields.{names_method};

use base_syntax::{cut_unquoted, trim};

/// Returns whether a Public field's value names a method. The names are compared byte for byte (RFC 2326, 6.1).
pub fn has_method(public: &[u8], method: &[u8]) -> bool
    ensures { result ≡ names_method method.now public.now }
{
    let mut rest = Some(public);
    while let Some(methods) = rest {
        let (part, others) = cut_unquoted(methods, b',');
        if trim(part) == method {
            return true;
        }
        rest = others;
    }
    false
}
