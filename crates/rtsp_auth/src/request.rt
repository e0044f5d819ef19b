//! What an answer is for.

/// The request that an answer is for.
#[derive(Clone, Copy, Debug, PartialEq, Eq)]
pub struct Request<'a> {
    /// Its method, as `DESCRIBE` (RFC 2326, 6.1).
    pub method: &'a [u8],
    /// The URI of its request line, byte for byte.
    pub uri: &'a [u8],
    /// The host that it is sent to: after a redirect (RFC 2326, 10.10) that of the new URL.
    pub host: &'a [u8],
}
