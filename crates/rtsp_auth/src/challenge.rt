//! Challenges of a server that can be answered.
ghost use Rattle.std.specs.Prelude.{◌≡◌};

use crate::algorithm::Algorithm;
use base_syntax::Bytes;

/// A challenge of Digest (RFC 7616, 3.3).
#[derive(Debug, Drop)]
pub struct DigestChallenge {
    /// The realm, without the quotes and backslashes of its quoted string.
    pub realm: Bytes,
    /// The nonce, likewise.
    pub nonce: Bytes,
    /// What the answer repeats, likewise, if the challenge has it.
    pub opaque: Option<Bytes>,
    /// The hash function.
    pub algorithm: Algorithm,
    /// Whether the challenge names the algorithm, which the answer then repeats.
    pub is_named: bool,
    /// Whether the challenge offers `qop` with `auth`.
    pub has_qop: bool,
    /// Whether the server says that the refused answer was right, but for a nonce that is too old.
    pub is_stale: bool,
}

impl DigestChallenge {
    /// Returns its nonce.
    pub(crate) fn into_nonce(self) -> Bytes
        ensures { result ≡ self.nonce }
    {
        self.nonce
    }
}

/// A challenge that can be answered.
#[derive(Debug, Drop)]
pub enum Challenge {
    /// User name and password as they are (RFC 7617).
    Basic,
    /// A hash of them (RFC 7616).
    Digest(DigestChallenge),
}
