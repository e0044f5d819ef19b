//! The text of the requests that a client sends to servers of RTSP 1.0 (RFC 2326, 6): values in, bytes out.
#![tactic(auto)]

mod asked;
mod checks;
mod fault;
mod fields;
pub mod laws;
mod method;
mod request_text;

pub use asked::Asked;
pub use fault::RequestFault;
pub use method::Method;
pub use request_text::{RequestText, put_request};
