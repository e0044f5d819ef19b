//! Who sends a stream.

/// Who sends a stream. A client's messages are requests; a server's are replies, and requests too (RFC 2326, 4 and 10).
#[derive(Clone, Copy, Debug, PartialEq, Eq)]
pub enum Peer {
    Client,
    Server,
}
