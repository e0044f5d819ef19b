//! The data of a frame.
ghost use Rattle.std.specs.Prelude.{◌≡◌, ◌↔◌, length, IsTrue, IfOk, MatchResult};

use base_syntax::Bytes;
use std::alloc::{AllocError, Global};
use std::marker::Model;

/// The data of a frame (RFC 2326, 10.12): a list of its own, or a part of the block of memory that a connection's bytes were
/// read into. Contracts see its bytes alone.
///
/// A part keeps its whole block in memory until the last part of it is dropped, so it is dropped once the frame was published.
#[derive(Debug)]
pub struct Payload {
    data: Data,
}

impl Drop for Payload {
    fn drop(self) {
        let Payload { data: _ } = self;
    }
}

#[derive(Debug, Drop)]
enum Data {
    Owned(Bytes),
    Cut(bytes::Bytes),
}

impl Model for Payload {
    ghost use Rattle.std.specs.Prelude.{ℕ, List};

    ghost Value = { List ℕ };

    ghost use Rattle.interleaved.specs.Payloads.{bytes_of};

    ghost view = { λ payload. bytes_of payload.data };
}

/// Takes no memory.
impl From<Bytes> for Payload {
    ghost from_gives = { λ list payload. payload ≡ list };

    fn from(list: Bytes) -> Payload {
        Payload {
            data: Data::Owned(list),
        }
    }
}

/// Takes no memory.
impl From<bytes::Bytes> for Payload {
    ghost from_gives = { λ part payload. payload ≡ part };

    fn from(part: bytes::Bytes) -> Payload {
        Payload {
            data: Data::Cut(part),
        }
    }
}

impl Payload {
    pub fn as_slice(&self) -> &[u8]
        ensures { result.now ≡ self.now }
    {
        match &self.data {
            Data::Owned(list) => list.as_slice(),
            Data::Cut(part) => part.as_slice(),
        }
    }

    pub fn len(&self) -> usize
        ensures { result ≡ length self.now }
    {
        self.as_slice().len()
    }

    pub fn is_empty(&self) -> bool
        ensures { IsTrue result ↔ (length self.now ≡ 0) }
    {
        self.len() == 0
    }

    /// A list of its own with the same bytes.
    pub fn copy(&self, alloc: Global) -> Result<Payload, AllocError>
        ensures { IfOk result (λ copied. copied ≡ self.now) }
    {
        Ok(Payload::from(Bytes::from_slice(alloc, self.as_slice())?))
    }

    /// Gives the list back that it was made from. Takes no memory, so what was cut out of a block is returned as it is, as
    /// `Err`.
    pub fn into_vec(self) -> Result<Vec<u8>, Payload>
        ensures { MatchResult result (λ list. list.items ≡ self) (λ payload. payload ≡ self) }
    {
        let Payload { data } = self;
        match data {
            Data::Owned(list) => Ok(list.into_vec()),
            Data::Cut(part) => Err(Payload::from(part)),
        }
    }
}
