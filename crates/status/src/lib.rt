//! The figures of a server's mounts and players, as values: for reports, and for any other query.
#![tactic(auto)]

mod mount_status;
mod player_status;
mod snapshot;

pub use mount_status::{MountLine, MountStatus, TrackStatus, silent_seconds};
pub use player_status::{PlayerLine, PlayerStatus, PlayerTold};
pub use snapshot::Snapshot;
