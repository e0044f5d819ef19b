//! A sink that gathers what is written.
ghost use Rattle.std.specs.Prelude.{◌≡◌, ◌+◌, ◌-◌, ◌<◌, ◌≤◌, ◌⊎◌, [], ◌++◌, true, false, drop, min, length, take, IfOk, OnOk, OnErr, IsTrue, ◌↔◌};
ghost use Rattle.std.specs.Io.KnownBytes.{Appends, Keeps};
ghost use Rattle.interleaved.specs.Gatherings.{gathered, Fills, PassesOn};

use crate::device::{Failed, Sink, TrySink};
use crate::whole_write::{WriteCut, write_all};
use std::marker::Model;
use std::mem;

/// A sink over another one, which keeps what is written in a buffer and passes it on in one write, at
/// `flush` or when the buffer is full. It has failed where the inner one has.
///
/// A contract sees the inner sink, the bytes that are kept, and the size of the buffer.
#[derive(Drop)]
pub struct Gathering<W: Sink> {
    inner: W,
    buffer: Vec<u8>,
    /// How many bytes are kept, at the front of the buffer.
    count: usize,
}

impl<W: Sink> Model for Gathering<W> {
    ghost use Rattle.std.specs.Prelude.{◌≤◌, take, vec_len};
    ghost use Rattle.interleaved.specs.Gatherings.{Gathered};

    ghost Value = { Gathered W };

    ghost view = { λ g. record { inner = g.inner; kept = take g.count g.buffer.items; size = vec_len g.buffer } };

    ghost invariant = { λ g. g.count ≤ vec_len g.buffer };
}

impl<W: Sink + Drop> Gathering<W> {
    /// A sink that keeps as many bytes as the buffer is long, and keeps none yet. With an empty buffer
    /// each write goes straight to the inner sink. Takes no memory.
    pub fn new(inner: W, buffer: Vec<u8>) -> Gathering<W>
        ensures { result ≡ record { inner = inner; kept = []; size = length buffer.items } }
    {
        Gathering {
            inner,
            buffer,
            count: 0,
        }
    }

    /// The inner sink.
    pub fn inner(&self) -> &W
        ensures { result.now ≡ self.now.inner }
    {
        &self.inner
    }

    /// Gives the inner sink back. What is still kept is dropped.
    pub fn into_inner(self) -> W
        ensures { result ≡ self.inner }
    {
        self.inner
    }

    /// How many bytes are kept.
    pub fn len(&self) -> usize
        ensures count { result ≡ length self.now.kept }
        ensures most { result ≤ self.now.size }
    {
        self.count
    }

    /// How many bytes it can keep.
    pub fn size(&self) -> usize
        ensures { result ≡ self.now.size }
    {
        self.buffer.len()
    }

    /// Changes its buffer for another one if it keeps nothing. Returns whether it does.
    pub fn swap_buffer(&mut self, other: &mut Vec<u8>) -> bool
        ensures empty { IsTrue result ↔ (self.old.kept ≡ []) }
        ensures swapped { result ≡ true → (self.new ≡ record self.old { size = length other.old.items }) × (length other.new.items ≡ self.old.size) }
        ensures same { result ≡ false → (self.new ≡ self.old) × (other.new ≡ other.old) }
    {
        if self.count > 0 {
            return false;
        }
        mem::swap(&mut self.buffer, other);
        true
    }

    /// Drops what is kept.
    pub fn clear(&mut self)
        ensures { self.new ≡ record self.old { kept = [] } }
    {
        self.count = 0;
    }

    /// Passes on all that is kept. `Failed` where the inner sink doesn't take it all, because it fails
    /// now or failed before: as much as it took has gone through then, and the rest is still kept.
    pub fn flush(&mut self) -> Result<(), Failed>
        ensures empty { OnOk result (self.new.kept ≡ []) }
        ensures through { OnOk result (Appends (W.written self.old.inner) (W.written self.new.inner) self.old.kept) }
        ensures working { OnOk result (W.failed self.new.inner ≡ W.failed self.old.inner) }
        ensures told { Keeps (gathered W.written self.old) (gathered W.written self.new) }
        ensures failed { OnErr result (W.failed self.new.inner ≡ true) }
        ensures only { OnErr result (0 < length self.old.kept) }
        ensures size { self.new.size ≡ self.old.size }
    {
        match write_all(&mut self.inner, &self.buffer[..self.count]) {
            Ok(()) => {
                self.count = 0;
                Ok(())
            }
            Err(WriteCut { written }) => {
                self.drop_front(written);
                Err(Failed)
            }
        }
    }
}

impl<W: TrySink + Drop> Gathering<W> {
    /// Passes on what the inner sink takes at once of all that is kept, by one write that doesn't wait, and says how many
    /// bytes that were; the rest is still kept. `Failed` where the inner sink fails now or failed before, and then all is
    /// still kept.
    pub fn try_flush(&mut self) -> Result<usize, Failed>
        ensures count { IfOk result (λ n. n ≤ length self.old.kept) }
        ensures through { IfOk result (λ n. Appends (W.written self.old.inner) (W.written self.new.inner) (take n self.old.kept)) }
        ensures rest { IfOk result (λ n. self.new.kept ≡ drop n self.old.kept) }
        ensures took { IfOk result (λ n. 0 < length self.old.kept → W.takes self.old.inner self.old.kept n self.new.inner) }
        ensures worked { OnOk result (0 < length self.old.kept → W.failed self.old.inner ≡ false) }
        ensures working { OnOk result (W.failed self.new.inner ≡ W.failed self.old.inner) }
        ensures told { Keeps (gathered W.written self.old) (gathered W.written self.new) }
        ensures failed { OnErr result (W.failed self.new.inner ≡ true) }
        ensures kept { OnErr result (self.new.kept ≡ self.old.kept) }
        ensures only { OnErr result (0 < length self.old.kept) }
        ensures size { self.new.size ≡ self.old.size }
    {
        if self.count == 0 {
            return Ok(0);
        }
        let taken = self.inner.try_write(&self.buffer[..self.count])?;
        self.drop_front(taken);
        Ok(taken)
    }
}

impl<W: Sink> Gathering<W> {
    // The first so many of the bytes that are kept have gone.
    fn drop_front(&mut self, gone: usize)
        requires { gone ≤ length self.old.kept }
        ensures { self.new ≡ record self.old { kept = drop gone self.old.kept } }
    {
        self.buffer.copy_within(gone..self.count, 0);
        self.count -= gone;
    }

    // Keeps as many bytes as there is room for, and says how many.
    fn keep(&mut self, bytes: &[u8]) -> usize
        ensures count { result ≡ min (self.old.size - length self.old.kept) (length bytes.now) }
        ensures kept { self.new ≡ record self.old { kept = self.old.kept ++ take result bytes.now } }
    {
        let room = self.buffer.len() - self.count;
        let taken = bytes.len().min(room);
        self.buffer[self.count..self.count + taken].copy_from_slice(&bytes[..taken]);
        self.count += taken;
        taken
    }
}

impl<W: Sink + Drop> Sink for Gathering<W> {
    ghost written = { gathered W.written };

    ghost failed = { λ g. W.failed g.inner };

    /// Keeps as many bytes as there is room for. A full buffer is passed on first; bytes that there is
    /// room for are kept, and the inner sink isn't written to.
    fn write(&mut self, bytes: &[u8]) -> Result<usize, Failed>
        ensures count { IfOk result (λ n. n ≤ length bytes.now) }
        ensures progress { IfOk result (λ n. 0 < length bytes.now → 0 < n) }
        ensures bytes { IfOk result (λ n. Appends (gathered W.written self.old) (gathered W.written self.new) (take n bytes.now)) }
        ensures working { OnOk result ((W.failed self.old.inner ≡ false) × (W.failed self.new.inner ≡ false)) }

        ensures refused { OnErr result (W.failed self.new.inner ≡ true) }
        ensures refused_moves_none { OnErr result (Keeps (gathered W.written self.old) (gathered W.written self.new)) }
        ensures stays { W.failed self.old.inner ≡ true → self.new ≡ self.old }

        ensures waits { OnOk result (length self.old.kept + length bytes.now ≤ self.old.size → self.new ≡ record self.old { kept = self.old.kept ++ bytes.now }) }
        ensures fills { IfOk result (λ n. length self.old.kept < self.old.size → Fills self.old bytes.now n self.new) }
        ensures passes { IfOk result (λ n. length self.old.kept ≡ self.old.size → 0 < self.old.size → 0 < length bytes.now
            → PassesOn W.written self.old bytes.now n self.new) }
        ensures only { OnErr result ((W.failed self.old.inner ≡ true) ⊎ (length self.old.kept ≡ self.old.size) × (0 < length bytes.now)) }
        ensures size { self.new.size ≡ self.old.size }
    {
        if self.inner.has_failed() {
            return Err(Failed);
        }
        if bytes.is_empty() {
            return Ok(0);
        }
        if self.count == self.buffer.len() {
            self.flush()?;
        }
        if self.buffer.is_empty() {
            return self.inner.write(bytes);
        }
        Ok(self.keep(bytes))
    }

    fn has_failed(&self) -> bool {
        self.inner.has_failed()
    }
}
