//! The URIs of the requests that a client of an RTSP server sends (RFC 2326, 3.2, 6.1 and C.1.1): what an operator writes as the source
//! or the target of a stream, and the URIs of tracks and sessions by their control attributes. Bytes in, bytes out.
#![tactic(auto)]

mod control;
mod control_fault;
mod fault;
mod host;
pub mod laws;
mod parts;
mod port;
mod scheme;
mod source;
mod target;
mod uri_text;

pub use control::{base_of, control_uri};
pub use control_fault::ControlFault;
pub use fault::UrlFault;
pub use source::{Source, read_source};
pub use target::{Target, read_target};
