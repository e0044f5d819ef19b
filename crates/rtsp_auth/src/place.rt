//! Where a byte of a field is, for the quoted strings in it (RFC 7230, 3.2.6).
ghost use Rattle.std.specs.Prelude.{◌≡◌};
ghost use Rattle.rtsp_auth.specs.Pieces.{cuts, place_after};

/// Where a byte is.
#[derive(Clone, Copy, Debug, PartialEq, Eq, Drop)]
pub(crate) enum Place {
    /// In no quoted string.
    Outside,
    /// In a quoted string.
    Quoted,
    /// In a quoted string, after a backslash.
    Escaped,
}

impl Place {
    /// Returns where the next byte is.
    pub(crate) fn after(self, byte: u8) -> Place
        ensures { result ≡ place_after self byte }
    {
        match (self, byte) {
            (Place::Outside, b'"') => Place::Quoted,
            (Place::Outside, _) => Place::Outside,
            (Place::Quoted, b'"') => Place::Outside,
            (Place::Quoted, b'\\') => Place::Escaped,
            (Place::Quoted, _) => Place::Quoted,
            (Place::Escaped, _) => Place::Quoted,
        }
    }

    /// Returns whether a byte is a comma that ends a piece.
    pub(crate) fn cuts(self, byte: u8) -> bool
        ensures { result ≡ cuts self byte }
    {
        match self {
            Place::Outside => byte == b',',
            Place::Quoted => false,
            Place::Escaped => false,
        }
    }
}
