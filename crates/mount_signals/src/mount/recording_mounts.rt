//! The mounts that are being recorded, by number, under their lock.
mod state;

use crate::mount::mount_signal::MountSignal;
use crate::wake::wake_signal::{Asked, Cleared};
use base_syntax::Items;
use state::MountList;
pub(crate) use state::RecordingMount;
use std::alloc::{AllocError, Global};
use std::sync::{Arc, Mutex, Wait};
use transport_header::Point;

/// The mounts that are being recorded, each with the signal of its packets.
///
/// Its lock is held for a walk over the mounts, and no other lock is taken meanwhile. The room for the most mounts that may
/// exist is allocated beforehand.
pub struct RecordingMounts {
    mounts: Mutex<MountList>,
}

impl Drop for RecordingMounts {
    fn drop(self) {
        let RecordingMounts { mounts: _ } = self;
    }
}

impl RecordingMounts {
    /// No mount is being recorded, and at most `most` will be.
    pub fn new(alloc: Global, most: usize) -> Result<RecordingMounts, AllocError> {
        Ok(RecordingMounts {
            mounts: Mutex::new(MountList::new(alloc, most)?),
        })
    }

    /// Adds a mount that is being recorded. If memory is refused, its points aren't reported and the waking thread doesn't wake
    /// its players.
    pub fn add(
        &self,
        rt: &impl Wait,
        mount: u64,
        signal: &Arc<MountSignal, Global>,
    ) -> Result<(), AllocError> {
        let signal = Arc::try_clone(signal)?;
        self.mounts.lock(rt).add(RecordingMount { mount, signal })
    }

    /// Removes a mount that has ended.
    pub fn remove(&self, rt: &impl Wait, mount: u64) {
        self.mounts.lock(rt).remove(mount);
    }

    /// Returns how many mounts are being recorded.
    pub fn len(&self, rt: &impl Wait) -> usize {
        self.mounts.lock(rt).as_slice().len()
    }

    /// Returns the points of a mount's tracks. The list is empty if the mount isn't recorded.
    pub fn points(
        &self,
        rt: &impl Wait,
        alloc: Global,
        mount: u64,
    ) -> Result<Items<Option<Point>>, AllocError> {
        match self.signal_of(rt, mount)? {
            Some(signal) => signal.points(rt, alloc),
            None => Ok(Items::empty(alloc)),
        }
    }

    fn signal_of(
        &self,
        rt: &impl Wait,
        mount: u64,
    ) -> Result<Option<Arc<MountSignal, Global>>, AllocError> {
        let mounts = self.mounts.lock(rt);
        for recorded in mounts.as_slice().iter() {
            if recorded.mount == mount {
                return Ok(Some(Arc::try_clone(&recorded.signal)?));
            }
        }
        Ok(None)
    }

    /// Asks each mount for its marks after the wake signal was cleared, and wakes the players of those that packets came to, except
    /// those that a writer has.
    pub(crate) fn ask(&self, rt: &impl Wait, cleared: Cleared) -> Asked {
        let mounts = self.mounts.lock(rt);
        cleared.ask(mounts.as_slice())
    }
}
