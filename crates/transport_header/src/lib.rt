//! The headers of RTSP 1.0 (RFC 2326) that set a session's delivery up: Transport (12.39), read, chosen
//! from and written; Session (12.37), read and written; RTP-Info (12.33), written.
//!
//! A header's value is bytes, in which 0x80 to 0xFF may stand too.
#![tactic(auto)]

mod channels;
mod chosen;
pub mod laws;
mod parameter;
mod point;
mod read;
mod rtp_info;
mod session;
mod spec;
mod track_channels;

pub use channels::Channels;
pub use chosen::{Chosen, choose, put_transport};
pub use point::Point;
pub use read::read_transport;
pub use rtp_info::{InfoEntry, put_rtp_info};
pub use session::{put_session, read_session, read_session_timeout};
pub use spec::{ChannelPair, Mode, Protocol, Spec};
pub use track_channels::{MOST_TRACKS, TrackChannels};
