//! Lists that contracts see as lists.
ghost use Rattle.std.specs.Prelude.{◌≡◌, ◌↔◌, ◌++◌, ◌∷◌, [], length, IsTrue, IfOk, IfSome, IfNone, OnOk, OnErr};

use std::alloc::{AllocError, Global};
use std::marker::Model;

/// Values in order, which contracts see as their list.
#[derive(Debug, Drop)]
pub struct Items<T> {
    items: Vec<T>,
}

/// Bytes of a text or of a packet, which contracts see as their list. They need not be UTF-8: a header value may hold
/// 0x80 to 0xFF.
pub type Bytes = Items<u8>;

impl<T> Model for Items<T> {
    ghost use Rattle.std.specs.Prelude.{List};

    ghost Value = { List T };

    ghost view = { λ list. list.items.items };
}

impl<T> Items<T> {
    /// These items. Takes no memory.
    pub fn new(items: Vec<T>) -> Items<T>
        ensures { result ≡ items.items }
    {
        Items { items }
    }

    /// No items. Takes no memory.
    pub fn empty(alloc: Global) -> Items<T>
        ensures { result ≡ [] }
    {
        Items::new(Vec::new(alloc))
    }

    /// Gives the items back. Takes no memory.
    pub fn into_vec(self) -> Vec<T>
        ensures { result.items ≡ self }
    {
        let Items { items } = self;
        items
    }

    pub fn as_slice(&self) -> &[T]
        ensures { result.now ≡ self.now }
    {
        self.items.as_slice()
    }

    pub fn len(&self) -> usize
        ensures { result ≡ length self.now }
    {
        self.items.len()
    }

    pub fn is_empty(&self) -> bool
        ensures { IsTrue result ↔ (length self.now ≡ 0) }
    {
        self.len() == 0
    }
}

impl<T: Drop> Items<T> {
    /// Adds an item after the others.
    pub fn push(&mut self, item: T) -> Result<(), AllocError>
        ensures ok { OnOk result (self.new ≡ self.old ++ item ∷ []) }
        ensures err { OnErr result (self.new ≡ self.old) }
    {
        self.items.push(item)?;
        Ok(())
    }

    /// Takes the last item off, if there is one.
    pub fn pop(&mut self) -> Option<T>
        ensures some { IfSome result (λ item. self.old ≡ self.new ++ item ∷ []) }
        ensures none { IfNone result ((self.old ≡ []) × (self.new ≡ [])) }
    {
        self.items.pop()
    }

    /// Drops all items.
    pub fn clear(&mut self)
        ensures { self.new ≡ [] }
    {
        self.items.clear();
    }
}

impl Items<u8> {
    ghost use Rattle.std.specs.Prelude.{◌<◌, slice_set};

    /// A copy of these bytes.
    pub fn from_slice(alloc: Global, bytes: &[u8]) -> Result<Bytes, AllocError>
        ensures { IfOk result (λ copied. copied ≡ bytes.now) }
    {
        Ok(Items::new(Vec::from_slice(alloc, bytes)?))
    }

    /// Writes the byte at a place that is there.
    pub fn set(&mut self, place: usize, byte: u8)
        requires { place < length self.old }
        ensures { self.new ≡ slice_set self.old place byte }
    {
        self.items[place] = byte;
    }
}
