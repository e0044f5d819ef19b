//! A sink in memory.
ghost use Rattle.std.specs.Prelude.{◌≡◌, ◌↔◌, ◌+◌, ◌<◌, ◌++◌, [], Some, true, false, min, length, take, IfOk, OnOk, OnErr, IsErr};
ghost use Rattle.interleaved.specs.Devices.{RefusesWrite};

use crate::device::{Failed, Sink, TrySink};
use std::alloc::{AllocError, Global};
use std::marker::Model;

/// A sink that keeps what is written in memory, and fails when it is full. It takes no memory once
/// it is made.
#[derive(Drop)]
pub struct ListSink {
    bytes: Vec<u8>,
    room: usize,
    failed: bool,
}

impl Model for ListSink {
    ghost use Rattle.std.specs.Prelude.{◌≤◌, ◌+◌, vec_len, vec_capacity};
    ghost use Rattle.interleaved.specs.Devices.{RoomState};

    ghost Value = { RoomState };

    ghost view = { λ s. record { written = s.bytes.items; room = s.room; failed = s.failed } };

    ghost invariant = { λ s. vec_len s.bytes + s.room ≤ vec_capacity s.bytes };
}

impl ListSink {
    /// A sink that takes `room` bytes. The only error is out of memory.
    pub fn new(alloc: Global, room: usize) -> Result<ListSink, AllocError>
        ensures state { IfOk result (λ s. s ≡ record { written = []; room = room; failed = false }) }
        ensures written { IfOk result (λ s. ⟦<ListSink as Sink>⟧.written s ≡ Some []) }
    {
        let bytes = Vec::with_capacity(alloc, room)?;
        Ok(ListSink {
            bytes,
            room,
            failed: false,
        })
    }

    /// The bytes written so far.
    pub fn bytes(&self) -> &[u8]
        ensures { result.now ≡ self.now.written }
    {
        &self.bytes
    }

    /// The bytes written, without the sink.
    pub fn into_vec(self) -> Vec<u8>
        ensures { result.items ≡ self.written }
    {
        self.bytes
    }
}

impl Sink for ListSink {
    ghost written = { λ s. Some s.written };

    ghost failed = { λ s. s.failed };

    /// As many as there is room for. Refused exactly where `RefusesWrite` says.
    fn write(&mut self, bytes: &[u8]) -> Result<usize, Failed>
        ensures count { IfOk result (λ n. n ≡ min self.old.room (length bytes.now)) }
        ensures progress { IfOk result (λ n. 0 < length bytes.now → 0 < n) }
        ensures bytes { IfOk result (λ n. self.new.written ≡ self.old.written ++ take n bytes.now) }
        ensures room { IfOk result (λ n. self.new.room + n ≡ self.old.room) }
        ensures working { OnOk result ((self.old.failed ≡ false) × (self.new.failed ≡ false)) }

        ensures refused { OnErr result (self.new ≡ record self.old { failed = true }) }
        ensures refused_where { IsErr result ↔ RefusesWrite self.old (length bytes.now) }
    {
        if self.failed || (!bytes.is_empty() && self.room == 0) {
            self.failed = true;
            return Err(Failed);
        }
        let taken = bytes.len().min(self.room);
        self.bytes.extend_from_slice(&bytes[..taken]).unwrap();
        self.room -= taken;
        Ok(taken)
    }

    fn has_failed(&self) -> bool {
        self.failed
    }
}

impl TrySink for ListSink {
    ghost takes = { λ old bytes n _. n ≡ min old.room (length bytes) };

    /// As `write`: it never has to wait.
    fn try_write(&mut self, bytes: &[u8]) -> Result<usize, Failed> {
        self.write(bytes)
    }
}
