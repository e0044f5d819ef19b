//! Devices in memory, for tests.
ghost use Rattle.std.specs.Prelude.{◌≤◌};

use crate::moments::Dial;
use interleaved::TryWrite;
use std::alloc::Global;
use std::io;
use std::io::{Read, Write};
use std::process::Abort;
use std::sync::atomic::{AtomicBool, Ordering};
use std::sync::{Arc, Wait};
use std::time::Clock;
use test_kit::{Bytes, Count, wait_for};

/// A word by which a device is let on.
pub(crate) type Flag = Arc<AtomicBool, Global>;

/// A word that isn't set.
pub(crate) fn flag(rt: &impl Abort, alloc: Global) -> Flag {
    Arc::new(alloc, AtomicBool::new(false)).expect(rt, "memory")
}

/// Keeps what is written for the threads that share it.
#[derive(Drop)]
pub(crate) struct Written<R> {
    pub(crate) rt: R,
    pub(crate) bytes: Bytes,
    pub(crate) manner: Manner,
}

/// How a device takes what is written.
#[derive(Drop)]
pub(crate) enum Manner {
    /// It takes this number of bytes more, and then none.
    Room(usize),
    /// After `free` bytes it takes none until it is let on. It sets `waits`, and waits at most 10,000 turns of a millisecond.
    /// It counts the writes.
    Held {
        free: usize,
        waits: Flag,
        let_on: Flag,
        writes: Count,
    },
}

impl<R: Wait + Clock> Written<R> {
    /// Returns how many of `len` bytes are taken, after it has waited for its turn.
    fn taken(&mut self, len: usize) -> usize
        ensures { result ≤ len }
    {
        match &mut self.manner {
            Manner::Room(room) => {
                let count = len.min(*room);
                *room -= count;
                count
            }
            Manner::Held {
                free,
                waits,
                let_on,
                writes,
            } => {
                if self.bytes.lock(&self.rt).len() >= *free {
                    waits.store(true, Ordering::SeqCst);
                    wait_for(&self.rt, let_on);
                }
                writes.fetch_add(1, Ordering::SeqCst);
                len
            }
        }
    }
}

impl<R: Wait + Clock> Write for Written<R> {
    fn write(&mut self, buf: &[u8]) -> io::Result<usize> {
        let count = self.taken(buf.len());
        self.bytes.lock(&self.rt).extend_from_slice(&buf[..count])?;
        Ok(count)
    }

    fn flush(&mut self) -> io::Result<()> {
        Ok(())
    }
}

impl<R: Wait + Clock> TryWrite for Written<R> {}

/// Gives the first part, and the second after it is let on, for which it waits at most 10,000 turns of a millisecond.
#[derive(Drop)]
pub(crate) struct Staged<R> {
    rt: R,
    first: Vec<u8>,
    then: Vec<u8>,
    let_on: Flag,
    /// If there is one, the end comes after this is set, too.
    close: Option<Flag>,
    /// The clock by which its connection is served.
    pub(crate) clock: Dial,
    /// How many bytes were given.
    given: usize,
}

impl<R> Staged<R> {
    /// Nothing is given yet.
    pub(crate) fn new(rt: R, first: Vec<u8>, then: Vec<u8>, let_on: Flag) -> Staged<R> {
        Staged {
            rt,
            first,
            then,
            let_on,
            close: None,
            clock: Dial::STILL,
            given: 0,
        }
    }

    /// The end waits, too, for at most 10,000 turns of a millisecond.
    pub(crate) fn until(self, close: Flag) -> Staged<R> {
        Staged {
            close: Some(close),
            ..self
        }
    }

    /// The same, and its connection is served by this clock.
    pub(crate) fn timed(self, clock: Dial) -> Staged<R> {
        Staged { clock, ..self }
    }

    /// Returns what isn't given yet of the current part.
    fn rest(&self) -> &[u8] {
        let first = self.first.as_slice();
        if self.given < first.len() {
            &first[self.given..]
        } else {
            self.then.get(self.given - first.len()..).unwrap_or(b"")
        }
    }
}

impl<R: Clock> Read for Staged<R> {
    fn read(&mut self, buf: &mut [u8]) -> io::Result<usize> {
        if self.given >= self.first.len() {
            wait_for(&self.rt, &self.let_on);
        }
        if self.rest().is_empty() {
            if let Some(close) = &self.close {
                wait_for(&self.rt, close);
            }
        }
        let rest = self.rest();
        let count = rest.len().min(buf.len());
        buf[..count].copy_from_slice(&rest[..count]);
        self.given = self.given.saturating_add(count);
        Ok(count)
    }
}

/// Returns these parts, one after another.
pub(crate) fn joined(rt: &impl Abort, alloc: Global, parts: &[&[u8]]) -> Vec<u8> {
    let mut all = Vec::new(alloc);
    for part in parts {
        all.extend_from_slice(part).expect(rt, "memory");
    }
    all
}
