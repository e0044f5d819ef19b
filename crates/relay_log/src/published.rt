//! The mounts that exist, for log lines.
ghost use Rattle.std.specs.Prelude.{◌≡◌, ◌↔◌, length, slice_get, All, IsTrue, IfOk, IfSome, IfNone, IsSomeAnd};
ghost use Rattle.relay_log.specs.Names.{IsNamedBy, IsNoLongerName};

use base_syntax::Bytes;
use mounts::MAX_MOUNTS;
use std::alloc::{AllocError, Global};
use std::net::SocketAddr;
use std::sync::{Mutex, Wait};

/// A mount that exists, and the peer that publishes it.
#[derive(Drop)]
pub(crate) struct PublishedMount {
    conn: u64,
    pub(crate) name: Bytes,
    pub(crate) peer: SocketAddr,
}

impl PublishedMount {
    /// Returns a copy. The only error is out of memory.
    fn copy(&self, alloc: Global) -> Result<PublishedMount, AllocError>
        ensures { IfOk result (λ copied. copied ≡ self.now) }
    {
        Ok(PublishedMount {
            conn: self.conn,
            name: Bytes::from_slice(alloc, self.name.as_slice())?,
            peer: self.peer,
        })
    }

    /// Returns whether a path is the mount's name, or begins with it and a slash.
    fn is_named_by(&self, path: &[u8]) -> bool
        ensures { IsTrue result ↔ IsNamedBy self.now.name path.now }
    {
        let name = self.name.as_slice();
        match path.strip_prefix(name) {
            Some(rest) => rest.is_empty() || rest.first() == Some(&b'/'),
            None => false,
        }
    }
}

/// The mounts that exist, with the addresses of their publishers, for the log lines of refusals. The book decides by its own
/// state. The lock is held for a walk over the mounts, and no other is taken meanwhile.
pub struct PublishedMounts {
    alloc: Global,
    mounts: Mutex<Vec<PublishedMount>>,
}

impl Drop for PublishedMounts {
    fn drop(self) {
        let PublishedMounts {
            alloc: _,
            mounts: _,
        } = self;
    }
}

impl PublishedMounts {
    /// No mount exists.
    pub fn new(alloc: Global) -> Result<PublishedMounts, AllocError> {
        Ok(PublishedMounts {
            alloc,
            mounts: Mutex::new(Vec::with_capacity(alloc, MAX_MOUNTS)?),
        })
    }

    /// A connection of this peer has announced a mount. Without memory for it, log lines don't have it.
    pub(crate) fn add(&self, rt: &impl Wait, conn: u64, name: &[u8], peer: SocketAddr) {
        if let Ok(name) = Bytes::from_slice(self.alloc, name) {
            let _ = self
                .mounts
                .lock(rt)
                .push(PublishedMount { conn, name, peer });
        }
    }

    /// The mount of a connection has ended.
    pub(crate) fn remove(&self, rt: &impl Wait, conn: u64) {
        self.mounts.lock(rt).retain(|mount| mount.conn != conn);
    }

    /// Returns the mount that a path names: the whole path is its name, or else the longest prefix before a slash that is one.
    pub(crate) fn find(&self, rt: &impl Wait, path: &[u8]) -> Option<PublishedMount> {
        let mounts = self.mounts.lock(rt);
        let place = longest_named(mounts.as_slice(), path)?;
        mounts.get(place)?.copy(self.alloc).ok()
    }
}

/// Returns the place of the mount of the longest name that a path names. `None` if it names none.
fn longest_named(mounts: &[PublishedMount], path: &[u8]) -> Option<usize>
    ensures named { IfSome result (λ place. IsSomeAnd (slice_get mounts.now place) (λ mount. IsNamedBy mount.name path.now)) }
    ensures longest { IfSome result (λ place. IsSomeAnd (slice_get mounts.now place) (λ mount. All (IsNoLongerName (length mount.name) path.now) mounts.now)) }
    ensures none { IfNone result (All (IsNoLongerName 0 path.now) mounts.now) }
{
    let mut found = None;
    let mut longest = 0;
    for (place, mount) in mounts.iter().enumerate() {
        let length = mount.name.len();
        if length <= longest || !mount.is_named_by(path) {
            continue;
        }
        longest = length;
        found = Some(place);
    }
    found
}
