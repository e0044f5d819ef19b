//! What waits to be written on a client's connection.
ghost use Rattle.std.specs.Prelude.{◌≡◌, ◌↔◌, ◌+◌, ◌<◌, ◌≤◌, ◌^◌, ◌++◌, [], drop, length, take, true, vec_capacity, IfErr, IsTrue, OnErr, OnOk};
ghost use Rattle.interleaved.specs.Frame.{FrameBegins};
ghost use Rattle.request_text.specs.Faults.{IsFault};
ghost use Rattle.request_text.specs.Sending.{Asking, Framed};
ghost use Rattle.outgoing.specs.Items.{CanPut, Replies, Sends};
ghost use Rattle.outgoing.specs.Queues.{Puts, Takes, bytes_waiting, frame_count, waiting_item};

use crate::buffer::Buffer;
use crate::marks::{Mark, drop_whole};
use interleaved::{FRAME_HEAD, PutFault, frame_head};
use request_text::{RequestFault, RequestText, put_request};
use rtsp_message::{Status, put_plain};
use std::alloc::{AllocError, Global};
use std::collections::VecDeque;
use std::marker::Model;

/// With this number of waiting bytes it is full. More can be put: the caller decides.
pub const MOST_WAITING_BYTES: usize = 262_144;

/// Requests, replies and frames that wait to be written on a connection, in order.
///
/// The system takes as many bytes at a time as it likes. Of the first item that waits, some bytes may be taken already.
#[derive(Drop)]
pub struct Outgoing {
    /// The texts of the items that wait, the first one whole.
    buffer: Buffer,
    marks: VecDeque<Mark>,
    /// How many bytes of the first item were taken.
    begun: usize,
    /// How many of the items are frames.
    frames: usize,
}

impl Model for Outgoing {
    ghost use Rattle.outgoing.specs.Queues.{Queue};
    ghost use Rattle.outgoing.specs.Kept.{IsKept, items_of};

    ghost Value = { Queue };

    ghost view = { λ o. record { items = items_of o.buffer.bytes o.marks.items; begun = o.begun; room = o.buffer.room; free = o.buffer.free } };

    ghost invariant = { λ o. IsKept o.buffer.bytes o.marks.items o.begun o.frames };
}

impl Outgoing {
    /// Returns a queue in which nothing waits. Takes no memory.
    pub fn new(alloc: Global) -> Outgoing
        ensures { result ≡ record { items = []; begun = 0; room = 0; free = [] } }
    {
        Outgoing {
            buffer: Buffer::new(alloc),
            marks: VecDeque::new(alloc),
            begun: 0,
            frames: 0,
        }
    }

    /// Appends a request. After an error nothing changed.
    pub fn put_request(&mut self, request: &RequestText<'_>) -> Result<(), RequestFault>
        ensures ok { OnOk result (Puts (waiting_item (Sends (Asking request.now))) self.old self.new) }
        ensures sendable { OnOk result (CanPut (Sends (Asking request.now))) }
        ensures fault { IfErr result (λ fault. IsFault request.now fault) }
        ensures err { OnErr result (self.new ≡ self.old) }
    {
        let _number = request.number;
        let mut text = Vec::new(*self.marks.allocator());
        put_request(&mut text, request)?;
        self.put(b"", text.as_slice(), false)?;
        Ok(())
    }

    /// Appends a frame (RFC 2326, 10.12). After an error nothing changed.
    pub fn put_frame(&mut self, channel: u8, payload: &[u8]) -> Result<(), PutFault>
        ensures ok { OnOk result (Puts (waiting_item (Sends (Framed (record { channel = channel; payload = payload.now })))) self.old self.new) }
        ensures sendable { OnOk result (CanPut (Sends (Framed (record { channel = channel; payload = payload.now })))) }
        ensures too_long { (result ≡ Err PutFault.TooLong) ↔ (65_535 < length payload.now) }
        ensures err { OnErr result (self.new ≡ self.old) }
    {
        let Ok(len) = u16::try_from(payload.len()) else {
            return Err(PutFault::TooLong);
        };
        self.put(&frame_head(channel, len), payload, true)?;
        Ok(())
    }

    /// Appends a reply without a body, to a request that a server sent. After an error nothing changed.
    pub fn put_reply(&mut self, status: Status, cseq: Option<u32>) -> Result<(), AllocError>
        ensures ok { OnOk result (Puts (waiting_item (Replies status cseq)) self.old self.new) }
        ensures sendable { OnOk result (CanPut (Replies status cseq)) }
        ensures err { OnErr result (self.new ≡ self.old) }
    {
        let mut text = [0; 128];
        let len = put_plain(&mut text, status, cseq);
        self.put(b"", &text[..len], false)
    }

    /// Appends an item whose text is both, one after the other. After an error nothing changed.
    fn put(&mut self, head: &[u8], tail: &[u8], is_frame: bool) -> Result<(), AllocError>
        requires { 0 < length head.now + length tail.now }
        ensures ok { OnOk result (Puts (record { text = head.now ++ tail.now; is_frame = is_frame }) self.old self.new) }
        ensures free { OnOk result (length head.now + length tail.now ≤ length self.old.free
            → self.new.free ≡ drop (length head.now + length tail.now) self.old.free) }
        ensures err { OnErr result (self.new ≡ self.old) }
    {
        let mark = Mark {
            len: head.len() + tail.len(),
            is_frame,
        };
        self.marks.reserve(1)?;
        self.buffer.append(head, tail)?;
        self.marks.push_back_reserved(mark);
        self.frames += mark.frames();
        Ok(())
    }

    /// Appends a frame that is in the room after what waits, `at` bytes after it, but on this channel. Its bytes are copied only if `at`
    /// isn't 0. After an error nothing changed.
    pub fn put_in_place(&mut self, at: usize, len: usize, channel: u8) -> Result<(), PutFault>
        requires { FrameBegins (drop at self.old.free) len }
        ensures ok { OnOk result (Puts (waiting_item (Sends (Framed (record { channel = channel; payload = drop 4 (take len (drop at self.old.free)) })))) self.old self.new) }
        ensures sendable { OnOk result (CanPut (Sends (Framed (record { channel = channel; payload = drop 4 (take len (drop at self.old.free)) })))) }
        ensures free { OnOk result (drop at self.new.free ≡ drop (at + len) self.old.free) }
        ensures err { OnErr result (self.new ≡ self.old) }
    {
        let Ok(size) = u16::try_from(len - FRAME_HEAD) else {
            return Err(PutFault::TooLong);
        };
        let head = frame_head(channel, size);
        if at == 0 {
            self.adopt(&head, len)?;
        } else {
            self.put_from(at, &head, len)?;
        }
        Ok(())
    }

    /// Appends the first bytes of the room after what waits as a frame with this head.
    fn adopt(&mut self, head: &[u8], len: usize) -> Result<(), AllocError>
        requires head { 0 < length head.now }
        requires len { length head.now ≤ len }
        requires within { len ≤ length self.old.free }
        ensures ok { OnOk result (Puts (record { text = head.now ++ drop (length head.now) (take len self.old.free); is_frame = true }) self.old self.new) }
        ensures free { OnOk result (self.new.free ≡ drop len self.old.free) }
        ensures err { OnErr result (self.new ≡ self.old) }
    {
        let frame = Mark {
            len,
            is_frame: true,
        };
        self.marks.reserve(1)?;
        self.buffer.extend(head, len);
        self.marks.push_back_reserved(frame);
        self.frames += 1;
        Ok(())
    }

    /// Appends bytes of the room after what waits, `at` bytes after it, as a frame with this head.
    fn put_from(&mut self, at: usize, head: &[u8], len: usize) -> Result<(), AllocError>
        requires head { 0 < length head.now }
        requires len { length head.now ≤ len }
        requires within { at + len ≤ length self.old.free }
        ensures ok { OnOk result (Puts (record { text = head.now ++ drop (length head.now) (take len (drop at self.old.free)); is_frame = true }) self.old self.new) }
        ensures free { OnOk result (drop at self.new.free ≡ drop (at + len) self.old.free) }
        ensures err { OnErr result (self.new ≡ self.old) }
    {
        let alloc = *self.marks.allocator();
        let tail = &self.buffer.free()[at + head.len()..at + len];
        let tail = Vec::from_slice(alloc, tail)?;
        self.put(head, tail.as_slice(), true)
    }

    /// Returns the bytes that wait.
    pub fn waiting(&self) -> &[u8]
        ensures { result.now ≡ bytes_waiting self.now }
    {
        &self.buffer.as_slice()[self.begun..]
    }

    /// Drops the first `count` of the bytes that wait, which the system took. Returns how many frames' last bytes were among them.
    pub fn took(&mut self, count: usize) -> u64
        requires { count ≤ length (bytes_waiting self.old) }
        ensures takes { Takes count result self.old self.new }
        ensures waiting { bytes_waiting self.new ≡ drop count (bytes_waiting self.old) }
    {
        // Its length bounds the sum.
        let _len = self.buffer.len();
        let begun = self.begun + count;
        let taken = drop_whole(&mut self.marks, begun);
        self.buffer.drop_front(taken.len);
        self.begun = begun - taken.len;
        self.frames -= taken.frames;
        taken.frames as u64
    }

    /// Returns how many frames wait, one that was begun included.
    pub fn frames(&self) -> usize
        ensures { result ≡ frame_count self.now.items }
    {
        self.frames
    }

    /// Returns whether 262,144 bytes or more wait.
    pub fn is_full(&self) -> bool
        ensures { IsTrue result ↔ (262_144 ≤ length (bytes_waiting self.now)) }
    {
        self.waiting().len() >= MOST_WAITING_BYTES
    }

    /// Returns whether nothing waits.
    pub fn is_empty(&self) -> bool
        ensures { IsTrue result ↔ (self.now.items ≡ []) }
    {
        self.marks.is_empty()
    }

    /// Returns the room after what waits. What is in it isn't sent.
    pub fn free(&self) -> &[u8]
        ensures { result.now ≡ self.now.free }
    {
        self.buffer.free()
    }

    /// Takes another block in place of its own, if nothing waits. All of it is free then.
    pub fn swap(&mut self, block: &mut Vec<u8>)
        requires { self.old.items ≡ [] }
        ensures same { self.new ≡ record self.old { room = vec_capacity block.old; free = block.old.items } }
        ensures block { length self.old.free ≤ length block.new.items }
        ensures block_room { vec_capacity block.new ≡ self.old.room }
    {
        self.buffer.swap(block);
    }

    /// Returns for how many bytes it holds memory. A put makes that at most twice the bytes of the items that wait then, if it
    /// wasn't more before.
    pub fn room(&self) -> usize
        ensures { result ≡ self.now.room }
    {
        self.buffer.room()
    }

    /// Drops everything that waits, and keeps the memory.
    pub fn clear(&mut self)
        ensures { self.new ≡ record { items = []; begun = 0; room = self.old.room; free = self.new.free } }
    {
        self.buffer.clear();
        self.marks.clear();
        self.begun = 0;
        self.frames = 0;
    }
}
