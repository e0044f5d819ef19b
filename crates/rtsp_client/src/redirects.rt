//! How often a description was elsewhere (RFC 2326, 11.3).
ghost use Rattle.std.specs.Prelude.{◌≡◌, ◌+◌, ◌<◌, ◌↔◌, IsTrue};

use crate::limits::MOST_REDIRECTS;

/// How many redirects a client has followed, at most three: a server may send it round in a circle.
#[derive(Clone, Copy, Debug, PartialEq, Eq, Drop)]
pub struct Redirects {
    pub(crate) followed: u8,
}

impl Redirects {
    /// None was followed.
    pub fn new() -> Redirects
        ensures { result ≡ record { followed = 0 } }
    {
        Redirects { followed: 0 }
    }

    /// Returns whether one more is followed. It is counted if so.
    pub fn follow(&mut self) -> bool
        ensures follows { IsTrue result ↔ (self.old.followed < 3) }
        ensures counted { IsTrue result → self.new ≡ record { followed = self.old.followed + 1 } }
        ensures same { (IsTrue result → ⊥) → self.new ≡ self.old }
    {
        if self.followed < MOST_REDIRECTS {
            self.followed += 1;
            return true;
        }
        false
    }
}
