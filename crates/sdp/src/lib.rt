//! Session descriptions (RFC 4566) as RTSP 1.0 uses them (RFC 2326, C.1.1): read from what a publisher announces,
//! and written for players with this server's controls.
#![tactic(auto)]

mod description;
mod fault;
mod field;
pub mod laws;
mod media;
mod port;
mod reading;
mod sections;
mod track;
mod words;
mod writing;

pub use description::Description;
pub use fault::SdpFault;
pub use reading::read;
pub use sections::Sections;
pub use track::Track;
pub use writing::write;

/// The most tracks that a description may have.
pub const MAX_TRACKS: usize = 16;
