//! A buffer that is written at its end and read from its front.
ghost use Rattle.std.specs.Prelude.{◌≡◌, ◌+◌, ◌*◌, ◌≤◌, ◌++◌, [], max, length, take, drop, vec_capacity, IfOk, OnOk, OnErr};

use std::alloc::{AllocError, Global};
use std::marker::Model;
use std::mem;

/// Bytes that are appended at the end and dropped at the front.
#[derive(Drop)]
pub(crate) struct Buffer {
    block: Vec<u8>,
    /// The place of the first byte in the block.
    first: usize,
    /// The place after the last byte.
    end: usize,
}

impl Model for Buffer {
    ghost use Rattle.std.specs.Prelude.{◌≡◌, ◌≤◌, drop, length, vec_capacity};
    ghost use Rattle.outgoing.specs.Buffers.{BufferState, stretch};

    ghost Value = { BufferState };

    ghost view = { λ b. record { bytes = stretch b.block.items b.first b.end; free = drop b.end b.block.items; room = vec_capacity b.block } };

    ghost invariant = { λ b. (b.first ≤ b.end) × (b.end ≤ length b.block.items) };
}

impl Buffer {
    /// Returns a buffer without bytes. Takes no memory.
    pub(crate) fn new(alloc: Global) -> Buffer
        ensures { result ≡ record { bytes = []; free = []; room = 0 } }
    {
        Buffer {
            block: Vec::new(alloc),
            first: 0,
            end: 0,
        }
    }

    /// Returns how many bytes it has.
    pub(crate) fn len(&self) -> usize
        ensures { result ≡ length self.now.bytes }
    {
        self.end - self.first
    }

    /// Returns for how many bytes it holds memory.
    pub(crate) fn room(&self) -> usize
        ensures { result ≡ self.now.room }
    {
        self.block.capacity()
    }

    /// Returns its bytes.
    pub(crate) fn as_slice(&self) -> &[u8]
        ensures { result.now ≡ self.now.bytes }
    {
        &self.block[self.first..self.end]
    }

    /// Appends both, one after the other.
    pub(crate) fn append(&mut self, head: &[u8], tail: &[u8]) -> Result<(), AllocError>
        ensures bytes { OnOk result (self.new.bytes ≡ self.old.bytes ++ (head.now ++ tail.now)) }
        ensures room { OnOk result (self.new.room ≤ max self.old.room (2 * length self.new.bytes)) }
        ensures free { OnOk result (length head.now + length tail.now ≤ length self.old.free
            → self.new.free ≡ drop (length head.now + length tail.now) self.old.free) }
        ensures err { OnErr result (self.new ≡ self.old) }
    {
        self.reserve(head.len() + tail.len())?;
        self.append_reserved(head, tail);
        Ok(())
    }

    /// Makes room for more bytes. If there is none, it moves to a block of twice the length that its bytes have then.
    fn reserve(&mut self, more: usize) -> Result<(), AllocError>
        ensures bytes { self.new.bytes ≡ self.old.bytes }
        ensures free { OnOk result (more ≤ length self.new.free) }
        ensures fits { more ≤ length self.old.free → self.new ≡ self.old }
        ensures room { OnOk result (self.new.room ≤ max self.old.room (2 * (length self.old.bytes + more))) }
        ensures err { OnErr result (self.new ≡ self.old) }
    {
        if more <= self.block.len() - self.end {
            return Ok(());
        }
        let len = self.end - self.first;
        let needed = len.checked_add(more).ok_or(AllocError)?;
        let room = needed.checked_mul(2).ok_or(AllocError)?;
        let bytes = &self.block[self.first..self.end];
        self.block = block_of(*self.block.allocator(), room, bytes)?;
        self.first = 0;
        self.end = len;
        Ok(())
    }

    /// Appends both into the room that there is.
    fn append_reserved(&mut self, head: &[u8], tail: &[u8])
        requires { length head.now + length tail.now ≤ length self.old.free }
        ensures bytes { self.new.bytes ≡ self.old.bytes ++ (head.now ++ tail.now) }
        ensures free { self.new.free ≡ drop (length head.now + length tail.now) self.old.free }
        ensures room { self.new.room ≡ self.old.room }
    {
        self.end = put_both(&mut self.block, self.end, head, tail);
    }

    /// Drops its bytes, and takes another block in place of its own.
    pub(crate) fn swap(&mut self, block: &mut Vec<u8>)
        ensures bytes { self.new.bytes ≡ [] }
        ensures free { self.new.free ≡ block.old.items }
        ensures room { self.new.room ≡ vec_capacity block.old }
        ensures block { length self.old.free ≤ length block.new.items }
        ensures block_room { vec_capacity block.new ≡ self.old.room }
    {
        mem::swap(&mut self.block, block);
        self.first = 0;
        self.end = 0;
    }

    /// Returns the room after its bytes.
    pub(crate) fn free(&self) -> &[u8]
        ensures { result.now ≡ self.now.free }
    {
        &self.block[self.end..]
    }

    /// Appends this number of the bytes that are after its own, the first of them overwritten by the head.
    pub(crate) fn extend(&mut self, head: &[u8], len: usize)
        requires head { length head.now ≤ len }
        requires within { len ≤ length self.old.free }
        ensures bytes { self.new.bytes ≡ self.old.bytes ++ (head.now ++ drop (length head.now) (take len self.old.free)) }
        ensures free { self.new.free ≡ drop len self.old.free }
        ensures room { self.new.room ≡ self.old.room }
    {
        let _end = put_at(&mut self.block, self.end, head);
        self.end += len;
    }

    /// Drops the first bytes. The others are moved to the block's front once they are at most as many as were dropped there.
    pub(crate) fn drop_front(&mut self, count: usize)
        requires { count ≤ length self.old.bytes }
        ensures bytes { self.new.bytes ≡ drop count self.old.bytes }
        ensures room { self.new.room ≡ self.old.room }
    {
        self.first += count;
        let len = self.end - self.first;
        if len <= self.first {
            move_to_front(&mut self.block, self.first, len);
            self.first = 0;
            self.end = len;
        }
    }

    /// Drops all bytes, and keeps the room.
    pub(crate) fn clear(&mut self)
        ensures bytes { self.new.bytes ≡ [] }
        ensures room { self.new.room ≡ self.old.room }
    {
        self.first = 0;
        self.end = 0;
    }
}

/// Returns a block of this length that begins with the bytes. More room than was asked for counts as out of memory.
fn block_of(alloc: Global, room: usize, bytes: &[u8]) -> Result<Vec<u8>, AllocError>
    requires { length bytes.now ≤ room }
    ensures front { IfOk result (λ block. take (length bytes.now) block.items ≡ bytes.now) }
    ensures len { IfOk result (λ block. length block.items ≡ room) }
    ensures room { IfOk result (λ block. vec_capacity block ≡ room) }
{
    let mut block = Vec::with_capacity(alloc, room)?;
    block.extend_from_slice(bytes)?;
    block.resize(room, 0)?;
    if block.capacity() != room {
        return Err(AllocError);
    }
    Ok(block)
}

/// Writes bytes at a place. Returns the place after them.
fn put_at(block: &mut [u8], at: usize, bytes: &[u8]) -> usize
    requires { at + length bytes.now ≤ length block.old }
    ensures end { result ≡ at + length bytes.now }
    ensures front { take result block.new ≡ take at block.old ++ bytes.now }
    ensures back { drop result block.new ≡ drop result block.old }
{
    let end = at + bytes.len();
    block[at..end].copy_from_slice(bytes);
    end
}

/// Writes both at a place, one after the other. Returns the place after them.
fn put_both(block: &mut [u8], at: usize, head: &[u8], tail: &[u8]) -> usize
    requires { at + (length head.now + length tail.now) ≤ length block.old }
    ensures end { result ≡ at + (length head.now + length tail.now) }
    ensures front { take result block.new ≡ take at block.old ++ (head.now ++ tail.now) }
    ensures back { drop result block.new ≡ drop result block.old }
{
    let middle = put_at(block, at, head);
    put_at(block, middle, tail)
}

/// Copies the bytes from a place on to the front, if they don't overlap it.
fn move_to_front(block: &mut [u8], from: usize, len: usize)
    requires apart { len ≤ from }
    requires within { from + len ≤ length block.old }
    ensures { take len block.new ≡ take len (drop from block.old) }
{
    let (front, back) = block.split_at_mut(from);
    front[..len].copy_from_slice(&back[..len]);
}
