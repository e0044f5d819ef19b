//! A mount.
ghost use Rattle.std.specs.Prelude.{◌≡◌, IfOk};

use crate::seats::Seats;
use base_syntax::Bytes;
use sdp::Description;
use std::alloc::{AllocError, Global};

/// A live mount (RFC 2326, 10.3: an ANNOUNCE posts the description of a presentation).
pub struct Mount {
    /// 1 to 2^63, and never used again.
    pub number: u64,
    /// The connection that announced it.
    pub owner: u64,
    /// What its URI's path says: 1 to `MAX_NAME` bytes.
    pub name: Bytes,
    pub description: Description,
    pub seats: Seats,
}

impl Drop for Mount {
    fn drop(self) {
        let Mount {
            number: _,
            owner: _,
            name: _,
            description: _,
            seats: _,
        } = self;
    }
}

impl Mount {
    /// A copy, or out of memory. The description is shared.
    fn copy(&self, alloc: Global) -> Result<Mount, AllocError>
        ensures { IfOk result (λ copied. copied ≡ self.now) }
    {
        Ok(Mount {
            number: self.number,
            owner: self.owner,
            name: Bytes::from_slice(alloc, self.name.as_slice())?,
            description: self.description.copy()?,
            seats: self.seats.copy(alloc)?,
        })
    }
}

/// Copies of mounts, in their order.
pub(crate) fn copy_mounts(alloc: Global, mounts: &[Mount]) -> Result<Vec<Mount>, AllocError>
    ensures { IfOk result (λ copied. copied.items ≡ mounts.now) }
{
    let mut copied = Vec::with_capacity(alloc, mounts.len())?;
    for mount in mounts {
        copied.push(mount.copy(alloc)?)?;
    }
    Ok(copied)
}
