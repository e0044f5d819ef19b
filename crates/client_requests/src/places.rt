//! Where the requests of a client go.

/// Where the requests of a client go, and the description that it announces.
#[derive(Clone, Copy, Drop)]
pub struct Places<'a> {
    /// The URI of the source: of OPTIONS and DESCRIBE.
    pub source: &'a [u8],
    /// The URI of the source's session: of PLAY, TEARDOWN and what keeps it alive (RFC 2326, C.1.1).
    pub session: &'a [u8],
    /// The URI of the source's track that is set up next.
    pub track: &'a [u8],
    /// The URI of the target's mount: of all requests to the target but SETUP.
    pub target: &'a [u8],
    /// The description that is announced.
    pub description: &'a [u8],
}
