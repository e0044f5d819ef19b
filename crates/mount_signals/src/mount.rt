//! What a mount's publisher and its players share, with its counts, and the mounts that are being recorded.
//!
//! `MountSignal`'s locks are held for a copy or a change of a few words, `RecordingMounts`' for a walk over the mounts; no other lock
//! is taken meanwhile.
pub(crate) mod attached_tap;
pub(crate) mod marks;
pub(crate) mod mount_signal;
pub(crate) mod player_figures;
pub(crate) mod recording_mounts;
pub(crate) mod tallies;
pub(crate) mod wakeups_read;
