//! The bytes of a stream that wait, and how often they were looked at.
ghost use Rattle.std.specs.Prelude.{◌≡◌, ◌+◌, ◌-◌, ◌*◌, ◌<◌, ◌≤◌, ◌++◌, [], max, length, take, drop, slice_index, vec_capacity, IfOk, OnOk, OnErr, IfSome, IfNone};
ghost use Rattle.std.specs.Io.BufRead.{Rests};
ghost use Rattle.std.specs.Borrow.{sem};
ghost use Rattle.base_syntax.specs.Lines.{HasNoLf};
ghost use Rattle.rtsp_message.specs.Stores.{looked_more, passed, between, IsFirstLf};

use base_syntax::cut;
use std::alloc::{AllocError, Global};
use std::marker::Model;
use std::mem;

/// Bytes that are looked at only through it: it counts the looks, and the count stays at 2^64 - 1 once it is there.
#[derive(Drop)]
pub struct Store {
    bytes: Vec<u8>,
    looked: u64,
}

impl Model for Store {
    ghost use Rattle.std.specs.Prelude.{vec_capacity};
    ghost use Rattle.rtsp_message.specs.Stores.{StoreState};

    ghost Value = { StoreState };

    ghost view = { λ s. record { bytes = s.bytes.items; looked = s.looked; room = vec_capacity s.bytes } };
}

impl Store {
    ghost use Rattle.rtsp_message.specs.contracts.store.Store.{the_row};

    pub fn new(alloc: Global) -> Store
        ensures { result ≡ record { bytes = []; looked = 0; room = 0 } }
    {
        Store {
            bytes: Vec::new(alloc),
            looked: 0,
        }
    }

    pub fn allocator(&self) -> Global {
        *self.bytes.allocator()
    }

    pub fn len(&self) -> usize
        ensures { result ≡ length self.now.bytes }
    {
        self.bytes.len()
    }

    /// How many looks were made.
    pub fn looked(&self) -> u64
        ensures { result ≡ self.now.looked }
    {
        self.looked
    }

    /// For how many bytes it holds memory.
    pub fn room(&self) -> usize
        ensures { result ≡ self.now.room }
    {
        self.bytes.capacity()
    }

    /// One look at a byte.
    pub fn at(&mut self, place: usize) -> u8
        requires { place < length self.old.bytes }
        ensures byte { result ≡ slice_index self.old.bytes place }
        ensures counts { self.new ≡ looked_more self.old 1 }
    {
        self.count(1);
        self.bytes[place]
    }

    /// The place of the first LF from this place on. Each byte that it passes over is a look, the LF too.
    pub fn find_lf(&mut self, from: usize) -> Option<usize>
        requires { from ≤ length self.old.bytes }
        ensures some { IfSome result (IsFirstLf self.old.bytes from) }
        ensures none { IfNone result (HasNoLf (drop from self.old.bytes)) }
        ensures counts { self.new ≡ looked_more self.old (passed self.old.bytes from result) }
    {
        let found = first_lf(self.bytes.as_slice(), from);
        let end = match found {
            Some(place) => place + 1,
            None => self.bytes.len(),
        };
        self.count(end - from);
        found
    }

    /// The bytes from one place up to another. Each of them is a look.
    pub fn line(&mut self, from: usize, to: usize) -> &[u8]
        requires in_order { from ≤ to }
        requires within { to ≤ length self.old.bytes }
        ensures bytes { result.now ≡ between self.old.bytes from to }
        ensures* counts { sem 𝓛 (Rests the_row self.entry (λ new. new ≡ looked_more self.old (to - from))) }
    {
        self.count(to - from);
        &self.bytes[from..to]
    }

    /// The bytes from one place up to another, to be cut out as they are: this counts as no look.
    pub fn whole(&self, from: usize, to: usize) -> &[u8]
        requires in_order { from ≤ to }
        requires within { to ≤ length self.now.bytes }
        ensures { result.now ≡ between self.now.bytes from to }
    {
        &self.bytes[from..to]
    }

    /// Puts a piece after the bytes. Where these had no room for it, they get twice as much, so that bytes that come one
    /// by one are moved a few times at most; the buffer before is handed out, for `take_back`.
    pub fn put(&mut self, piece: &[u8]) -> Result<Option<Vec<u8>>, AllocError>
        ensures bytes { OnOk result (self.new.bytes ≡ self.old.bytes ++ piece.now) }
        ensures looked { self.new.looked ≡ self.old.looked }
        ensures room { OnOk result (self.new.room ≤ max self.old.room (2 * length self.new.bytes)) }
        ensures moves { IfOk result (λ before. IfSome before (λ buffer. self.old.room < length self.old.bytes + length piece.now)) }
        ensures doubles { IfOk result (λ before. IfSome before (λ buffer. 2 * length self.old.bytes ≤ self.new.room)) }
        ensures same { IfOk result (λ before. IfNone before (self.new.room ≡ self.old.room)) }
        ensures before { IfOk result (λ before. IfSome before (λ buffer. (buffer.items ≡ self.old.bytes) × (vec_capacity buffer ≡ self.old.room))) }
        ensures err { OnErr result (self.new ≡ self.old) }
    {
        let len = self.bytes.len();
        if piece.len() <= self.bytes.capacity() - len {
            push_all(&mut self.bytes, piece);
            return Ok(None);
        }
        let room = len.saturating_add(piece.len()).saturating_add(len);
        let larger = joined(*self.bytes.allocator(), room, self.bytes.as_slice(), piece)?;
        Ok(Some(mem::replace(&mut self.bytes, larger)))
    }

    /// Takes the last piece back: there were `len` bytes, and `put` handed `before` out.
    pub fn take_back(&mut self, before: Option<Vec<u8>>, len: usize)
        ensures same { IfNone before (self.new ≡ record self.old { bytes = take len self.old.bytes }) }
        ensures before { IfSome before (λ buffer. self.new ≡ record { bytes = buffer.items; looked = self.old.looked; room = vec_capacity buffer }) }
    {
        match before {
            Some(buffer) => self.bytes = buffer,
            None => self.bytes.truncate(len),
        }
    }

    /// Sets the count back, after a piece was refused.
    pub fn back_to(&mut self, count: u64)
        ensures { self.new ≡ record self.old { looked = count } }
    {
        self.looked = count;
    }

    /// Cuts the first `len` bytes off. The others get a buffer in just the room that they need.
    pub fn cut(&mut self, len: usize) -> Result<(), AllocError>
        requires { len ≤ length self.old.bytes }
        ensures bytes { OnOk result (self.new.bytes ≡ drop len self.old.bytes) }
        ensures room { OnOk result (self.new.room ≡ length self.new.bytes) }
        ensures looked { self.new.looked ≡ self.old.looked }
        ensures err { OnErr result (self.new ≡ self.old) }
    {
        let rest = &self.bytes[len..];
        self.bytes = joined(*self.bytes.allocator(), rest.len(), rest, &[])?;
        Ok(())
    }

    /// Lets all bytes go, and their room.
    pub fn clear(&mut self)
        ensures { self.new ≡ record { bytes = []; looked = self.old.looked; room = 0 } }
    {
        self.bytes = Vec::new(*self.bytes.allocator());
    }

    /// Counts looks at bytes that it doesn't hold.
    pub fn count(&mut self, more: usize)
        ensures { self.new ≡ looked_more self.old more }
    {
        self.looked = self.looked.saturating_add(more as u64);
    }
}

/// The place of the first LF from this place on.
fn first_lf(bytes: &[u8], from: usize) -> Option<usize>
    requires { from ≤ length bytes.now }
    ensures some { IfSome result (IsFirstLf bytes.now from) }
    ensures none { IfNone result (HasNoLf (drop from bytes.now)) }
{
    let (line, behind) = cut(&bytes[from..], b'\n');
    behind?;
    Some(from + line.len())
}

/// Puts bytes into the room of a buffer.
fn push_all(buffer: &mut Vec<u8>, bytes: &[u8])
    requires { length buffer.old.items + length bytes.now ≤ vec_capacity buffer.old }
    ensures items { buffer.new.items ≡ buffer.old.items ++ bytes.now }
    ensures room { vec_capacity buffer.new ≡ vec_capacity buffer.old }
{
    for byte in bytes {
        buffer.push_reserved(*byte);
    }
}

/// A buffer of so much room with both, one after the other. More room than was asked for counts as no memory.
fn joined(alloc: Global, room: usize, front: &[u8], back: &[u8]) -> Result<Vec<u8>, AllocError>
    ensures items { IfOk result (λ buffer. buffer.items ≡ front.now ++ back.now) }
    ensures room { IfOk result (λ buffer. vec_capacity buffer ≡ room) }
{
    let mut buffer = Vec::with_capacity(alloc, room)?;
    buffer.extend_from_slice(front)?;
    buffer.extend_from_slice(back)?;
    if buffer.capacity() != room {
        return Err(AllocError);
    }
    Ok(buffer)
}
