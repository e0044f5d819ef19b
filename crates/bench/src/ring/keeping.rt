//! What one thread puts packets into and reads them from: a ring, and buffers that are copied into and out of.
ghost use Rattle.std.specs.Prelude.{◌≡◌, ◌≤◌};

use crate::ring::timing::KEEP;
use anyhow::{Result, bail};
use cursor::{Lend, Taken, Tap, Visit};
use packet_ring::{Publisher, Subscriber, new};
use std::alloc::{AllocError, Global};

/// Keeps packets, which are read in the order in which they were put in.
pub trait Keeper {
    /// Whether the packet is kept now.
    fn put(&mut self, bytes: &[u8]) -> bool;

    /// Reads the next packet, and answers what this makes of a number that depends on all that was read before.
    fn read(&mut self, sum: u64) -> Option<u64>;
}

/// A sum over bytes of packets that were copied, with one byte of the next.
pub fn summed(sum: u64, bytes: &[u8]) -> u64 {
    let byte = bytes.get(sum as usize % bytes.len().max(1));
    sum.wrapping_mul(31)
        .wrapping_add(u64::from(*byte.unwrap_or(&0)))
}

/// Buffers of one length, side by side, that are used in turn.
#[derive(Drop)]
pub struct Buffers {
    bytes: Vec<u8>,
    lens: Vec<usize>,
    next_put: usize,
    next_read: usize,
    copy: Vec<u8>,
}

impl Buffers {
    pub fn new(alloc: Global, count: usize, size: usize) -> Result<Buffers, AllocError> {
        Ok(Buffers {
            bytes: vec![in alloc; 0; count.saturating_mul(size)]?,
            lens: vec![in alloc; 0; count]?,
            next_put: 0,
            next_read: 0,
            copy: vec![in alloc; 0; size]?,
        })
    }
}

/// The buffer after this one, of so many.
fn after(buffer: usize, count: usize) -> usize {
    let next = buffer.saturating_add(1);
    if next < count { next } else { 0 }
}

impl Keeper for Buffers {
    fn put(&mut self, bytes: &[u8]) -> bool {
        let buffer = self.next_put;
        self.next_put = after(buffer, self.lens.len());
        let start = buffer.saturating_mul(self.copy.len());
        let (Some(to), Some(kept)) = (
            self.bytes.as_mut_slice().get_mut(start..),
            self.lens.get_mut(buffer),
        ) else {
            return false;
        };
        let len = bytes.len().min(to.len());
        to[..len].copy_from_slice(&bytes[..len]);
        *kept = len;
        true
    }

    fn read(&mut self, sum: u64) -> Option<u64> {
        let buffer = self.next_read;
        self.next_read = after(buffer, self.lens.len());
        let from = self.bytes.get(buffer.saturating_mul(self.copy.len())..)?;
        let kept = *self.lens.get(buffer)?;
        let len = kept.min(from.len()).min(self.copy.len());
        let copy = &mut self.copy[..len];
        copy.copy_from_slice(&from[..len]);
        Some(summed(sum, copy))
    }
}

/// A ring with its one seat.
fn ring(alloc: Global, size: usize) -> Result<(Publisher, Subscriber)> {
    let (publisher, mut passes) = new(alloc, KEEP, 1, size.clamp(1, 65_535))?;
    let Some(pass) = passes.pop() else {
        bail!("a ring without its seat");
    };
    Ok((publisher, pass.attach()))
}

/// A ring whose packets are copied out.
#[derive(Drop)]
pub struct Copied {
    publisher: Publisher,
    reader: Subscriber,
    copy: Vec<u8>,
}

impl Copied {
    pub fn new(alloc: Global, size: usize) -> Result<Copied> {
        let (publisher, reader) = ring(alloc, size)?;
        let copy = vec![in alloc; 0; size]?;
        Ok(Copied {
            publisher,
            reader,
            copy,
        })
    }
}

impl Keeper for Copied {
    fn put(&mut self, bytes: &[u8]) -> bool {
        self.publisher.publish(0, bytes).is_ok()
    }

    fn read(&mut self, sum: u64) -> Option<u64> {
        if self.reader.packet_bytes() > self.copy.len() {
            return None;
        }
        match self.reader.take(&mut self.copy) {
            Taken::Packet { len, .. } => Some(summed(sum, &self.copy[..len])),
            Taken::Lost(_) | Taken::Empty | Taken::Ended => None,
        }
    }
}

/// A ring whose packets are seen where they lie, and no more.
#[derive(Drop)]
pub struct Seen {
    publisher: Publisher,
    reader: Subscriber,
}

impl Seen {
    pub fn new(alloc: Global, size: usize) -> Result<Seen> {
        let (publisher, reader) = ring(alloc, size)?;
        Ok(Seen { publisher, reader })
    }
}

impl Keeper for Seen {
    fn put(&mut self, bytes: &[u8]) -> bool {
        self.publisher.publish(0, bytes).is_ok()
    }

    fn read(&mut self, sum: u64) -> Option<u64> {
        let most = self.reader.packet_bytes();
        prove!(most <= 65_535);
        let mut counting = Counting { packets: sum };
        match self.reader.take_with(&mut counting) {
            Taken::Packet { .. } => Some(counting.packets),
            Taken::Lost(_) | Taken::Empty | Taken::Ended => None,
        }
    }
}

/// Counts the packets that it sees.
#[derive(Drop)]
struct Counting {
    packets: u64,
}

impl Visit for Counting {
    ghost packet_bytes = { λ _. 65_535 };

    ghost see_gives = { λ old packet new. Unit {0} };

    fn see(&mut self, _: u8, _: &[u8]) {
        self.packets = self.packets.wrapping_add(1);
    }
}
