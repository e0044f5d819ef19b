//! Which mounts are being recorded.
ghost use Rattle.std.specs.Prelude.{◌≡◌, ◌<◌, ◌++◌, ◌∷◌, [], filter, length, IsOk, IfOk, OnOk, OnErr};

use crate::mount::mount_signal::MountSignal;
use std::alloc::{AllocError, Global};
use std::marker::Model;
use std::sync::Arc;

/// A mount that is being recorded.
#[derive(Drop)]
pub(crate) struct RecordingMount {
    pub(super) mount: u64,
    pub(crate) signal: Arc<MountSignal, Global>,
}

/// The mounts that are being recorded, with room for as many as it was made for.
///
/// Its model has them, in the order in which they were added, and for how many it was made.
#[derive(Drop)]
pub(super) struct MountList {
    mounts: Vec<RecordingMount>,
    most: usize,
}

impl Model for MountList {
    ghost use Rattle.std.specs.Prelude.{◌≤◌, vec_capacity};
    ghost use Rattle.mount_signals.specs.RecordingMounts.{Recorded};

    ghost Value = { Recorded };

    ghost view = { λ l. record { mounts = l.mounts.items; most = l.most } };

    ghost invariant = { λ l. l.most ≤ vec_capacity l.mounts };
}

impl MountList {
    ghost use Rattle.mount_signals.specs.RecordingMounts.{is_other};

    /// No mount is being recorded. Takes the room for `most` mounts.
    pub(super) fn new(alloc: Global, most: usize) -> Result<MountList, AllocError>
        ensures { IfOk result (λ list. list ≡ record { mounts = []; most = most }) }
    {
        Ok(MountList {
            mounts: Vec::with_capacity(alloc, most)?,
            most,
        })
    }

    /// Adds a mount after the others. Takes no memory while there are fewer than it was made for. Those that have ended and aren't
    /// removed yet may make them more.
    pub(super) fn add(&mut self, mount: RecordingMount) -> Result<(), AllocError>
        ensures within { length self.old.mounts < self.old.most → IsOk result }
        ensures added { OnOk result (self.new ≡ record self.old { mounts = self.old.mounts ++ mount ∷ [] }) }
        ensures refused { OnErr result (self.new ≡ self.old) }
    {
        self.mounts.push(mount)?;
        Ok(())
    }

    /// Removes the mount of this number, if it is here. The others stay as they are.
    pub(super) fn remove(&mut self, mount: u64)
        ensures listed { self.new.mounts ≡ filter (is_other mount) self.old.mounts }
        ensures most { self.new.most ≡ self.old.most }
    {
        self.mounts.retain(|recorded| recorded.mount != mount);
    }

    /// Returns the mounts.
    pub(super) fn as_slice(&self) -> &[RecordingMount]
        ensures { result.now ≡ self.now.mounts }
    {
        self.mounts.as_slice()
    }
}
