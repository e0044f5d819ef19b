//! The mounts of a relay, and which of them a request's URI names (RFC 2326, 3.2, 6.1 and C.1.1). Which stream a URI
//! means is decided here and nowhere else.
#![tactic(auto)]

mod fault;
pub mod laws;
mod mount;
mod mounts;
mod names;
mod seats;
mod target;
mod tracks;
mod uri;

pub use fault::UriFault;
pub use mount::Mount;
pub use mounts::{MAX_MOUNTS, Mounts};
pub use names::{MAX_NAME, ends_in_track, is_name, rest_after};
pub use seats::{MAX_SEATS, Seats};
pub use target::{Target, resource_text};
pub use tracks::track_number;
pub use uri::{Uri, read_uri};
