//! Messages of RTSP 1.0 (RFC 2326, sections 4 to 7): requests and frames from a stream of bytes, in whatever pieces it
//! comes, and the text of replies.
#![tactic(auto)]

mod byte_class;
mod cutting;
mod fault;
mod frames;
mod head;
mod headers;
mod intake;
mod judging;
mod known;
pub mod laws;
mod lines;
mod look;
mod part;
mod peer;
mod peer_reader;
mod piece;
mod plain;
mod reader;
mod received;
mod reply;
mod request;
mod response;
mod status;
mod store;
mod unit;

pub use byte_class::ByteClass;
pub use fault::Fault;
pub use headers::{Header, Headers};
pub use intake::{Intake, Next};
pub use peer::Peer;
pub use peer_reader::{Fed, PeerReader};
pub use plain::put_plain;
pub use reader::Reader;
pub use received::Received;
pub use reply::{Fields, Reply, put_reply};
pub use request::Request;
pub use response::Response;
pub use status::Status;
pub use store::Store;
pub use unit::Unit;

/// The most bytes that a head may have, its empty line included.
pub const MAX_HEAD: usize = 8192;

/// The most bytes that a body may have.
pub const MAX_BODY: usize = 65_536;
