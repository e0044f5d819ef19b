//! What the sequence numbers of a track's RTP packets show of losses before the relay (RFC 3550, 5.1, A.1 and A.3).
#![tactic(auto)]

mod counts;
mod header;
pub mod laws;
mod tracks;

pub use counts::SequenceCounts;
pub use header::rtp_numbers;
pub use tracks::TrackCounts;
