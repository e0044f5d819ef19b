//! What a decision is handed beside the request.

use base_syntax::Items;
use std::alloc::{AllocError, Global};
use transport_header::Point;

/// What a decision is handed beside the request.
#[derive(Drop)]
pub struct Given {
    /// The last eight digits of the identifier of a session that begins (RFC 2326, 3.4).
    pub word: u32,
    /// Where the packets of each track of the session's mount stand, by the track's number (RFC 2326, 12.33). A track
    /// that has no place here has no point.
    pub points: Items<Option<Point>>,
    /// The moment at which the request came, in milliseconds: by it a session expires (RFC 2326, 12.37).
    pub now: u64,
}

impl Given {
    ghost use Rattle.std.specs.Prelude.{◌≡◌, IfOk};

    /// A copy, or out of memory.
    pub fn copy(&self, alloc: Global) -> Result<Given, AllocError>
        ensures { IfOk result (λ copied. copied ≡ self.entry.now) }
    {
        Ok(Given {
            word: self.word,
            points: Items::new(Vec::from_slice(alloc, self.points.as_slice())?),
            now: self.now,
        })
    }
}
