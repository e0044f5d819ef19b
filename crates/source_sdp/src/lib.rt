//! The description that an RTSP server gives in answer to DESCRIBE, read leniently (RFC 4566; RFC 2327; RFC 2326, C.1), and the
//! description that is announced for it, which `sdp::read` accepts.
#![tactic(auto)]

mod announce_error;
mod control;
mod description;
mod field;
mod heading;
mod keeping;
pub mod laws;
mod left_out;
mod lines;
mod media;
mod read_error;
mod reading;
mod reason;
mod room;
mod section;
mod sorting;
mod track;
mod words;
mod writing;

pub use announce_error::AnnounceError;
pub use description::SourceDescription;
pub use left_out::LeftOut;
pub use media::Media;
pub use read_error::ReadError;
pub use reading::read;
pub use reason::Reason;
pub use track::SourceTrack;

/// The most bytes of a description that is read.
pub const MAX_DESCRIPTION_BYTES: usize = 65_536;

/// The most bytes of a description that is announced: a relay takes no longer one.
pub const MAX_ANNOUNCED_BYTES: usize = 65_536;

/// The most tracks that are taken from a description: as many as `sdp::read` accepts.
pub const MAX_TRACKS: usize = 16;
