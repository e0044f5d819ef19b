//! What a stream is made of.
use crate::request::Request;
use interleaved::Frame;

/// What a connection's stream is made of (RFC 2326, 4 and 10.12).
#[derive(Drop)]
pub enum Unit {
    Message(Request),
    Frame(Frame),
}
