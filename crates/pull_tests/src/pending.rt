//! Bytes that a peer has sent.
ghost use Rattle.std.specs.Prelude.{length};
ghost use Rattle.relay_pull.specs.Moving.{IsWithin};

use relay_pull::Moved;
use std::alloc::Global;

/// Bytes that a peer has sent, of which some are read.
#[derive(Drop)]
pub(crate) struct Pending {
    bytes: Vec<u8>,
    read: usize,
}

impl Pending {
    /// Nothing was sent.
    pub(crate) fn new(alloc: Global) -> Pending {
        Pending {
            bytes: Vec::new(alloc),
            read: 0,
        }
    }

    /// The peer sends these bytes. Without memory they are lost, and the test that misses them fails.
    pub(crate) fn put(&mut self, bytes: &[u8]) {
        let _ = self.bytes.extend_from_slice(bytes);
    }

    /// The peer sends this number of bytes, each of them this one.
    pub(crate) fn put_same(&mut self, count: u16, byte: u8) {
        let length = self.bytes.len().saturating_add(usize::from(count));
        let _ = self.bytes.resize(length, byte);
    }

    /// Returns the bytes that aren't read.
    fn rest(&self) -> &[u8] {
        match self.bytes.get(self.read..) {
            Some(rest) => rest,
            None => b"",
        }
    }

    /// Reads as many bytes as are there, and fit.
    pub(crate) fn read(&mut self, buf: &mut [u8]) -> Moved
        ensures { IsWithin result (length buf.new) }
    {
        let rest = self.rest();
        let count = rest.len().min(buf.len());
        if count == 0 {
            return Moved::Later;
        }
        buf[..count].copy_from_slice(&rest[..count]);
        self.read = self.read.saturating_add(count);
        Moved::Bytes(count)
    }
}
