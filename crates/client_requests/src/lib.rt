//! The requests that a client of RTSP servers sends (RFC 2326, 10): which URI, Transport and body each `Ask` of `rtsp_client` has.
#![tactic(auto)]

mod client_request;
mod places;
mod texts;

pub use client_request::ClientRequest;
pub use places::Places;
