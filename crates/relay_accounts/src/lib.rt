//! What became of a connection's packets, and how it ended: the frames that come in between its requests, what is counted
//! of them and of a player's packets, and which end is reported.
#![tactic(auto)]

mod counts;
mod ending;
mod handover;
mod header_end;
mod incoming;
mod last_activity;
mod mount_tally;
mod outcome;
mod seat_account;

pub use counts::Counts;
pub use ending::{ConnectionEnd, FrameEnd, WireFailure, end_by, end_of, status_of};
pub use handover::{HandedOver, Handover};
pub use header_end::HeaderEnd;
pub use incoming::{publish_frames, skip_frames};
pub use last_activity::LastActivity;
pub use mount_tally::MountTally;
pub use outcome::{Outcome, Part};
pub use seat_account::{SeatAccount, lost_so_far};
