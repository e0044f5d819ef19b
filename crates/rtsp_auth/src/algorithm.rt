//! The hash functions of Digest.
ghost use Rattle.std.specs.Prelude.{◌≡◌, IfOk};
ghost use Rattle.std.specs.String.{string_bytes};
ghost use Rattle.rtsp_auth.specs.Digest.{hash_text};

use md5::{Digest as Md5Digest, Md5};
use sha2::{Digest as Sha2Digest, Sha256};
use std::alloc::{AllocError, Global};

/// A hash function of Digest (RFC 7616, 3.2: `algorithm`).
#[derive(Clone, Copy, Debug, PartialEq, Eq, Drop)]
pub enum Algorithm {
    /// MD5 (RFC 1321), also if a challenge names no algorithm.
    Md5,
    /// SHA-256 (FIPS 180-4).
    Sha256,
}

/// Returns the hash of a text, in lower-case hexadecimal digits.
pub(crate) fn hash_text(
    alloc: Global,
    algorithm: Algorithm,
    text: &[u8],
) -> Result<String, AllocError>
    ensures { IfOk result (λ digits. string_bytes digits ≡ hash_text algorithm text.now) }
{
    match algorithm {
        Algorithm::Md5 => hex::encode(alloc, Md5::digest(text)),
        Algorithm::Sha256 => hex::encode(alloc, Sha256::digest(text)),
    }
}
