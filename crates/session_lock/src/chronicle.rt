//! All that has happened, as only proofs read it.
ghost use Rattle.std.specs.Prelude.{◌≡◌, List, [], ◌∷◌};
ghost use Rattle.std.specs.Borrow.{ftrue};

use std::marker::{Model, PhantomData};

/// A list of all that has happened, newest first. It has no bytes, and its methods do nothing: a clause reads it as `items`.
/// Nothing but what is proved of the book ties it to anything.
#[derive(Drop)]
pub(crate) struct Chronicle<T> {
    of: PhantomData<T>,
    pub(crate) ghost items: { List T },
}

impl<T> Model for Chronicle<T> {
    ghost also_owns = { λ _. ftrue };
}

// It owns nothing.
unsafe impl<T: Send> Send for Chronicle<T> {}

impl<T> Chronicle<T> {
    /// Nothing has happened.
    pub(crate) fn new() -> Chronicle<T>
        ensures { result.items ≡ [] }
    {
        Chronicle { of: PhantomData }
    }

    /// What has happened with this.
    pub(crate) fn and(&self, newest: &T) -> Chronicle<T>
        ensures { result.items ≡ newest.now ∷ self.now.items }
    {
        Chronicle { of: PhantomData }
    }
}
