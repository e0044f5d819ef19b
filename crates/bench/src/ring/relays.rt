//! The ring, and a list of the kept packets under a lock, to be timed.
ghost use Rattle.std.specs.Prelude.{◌≤◌};

use crate::ring::timing::{KEEP, Relay, SIZE};
use anyhow::Result;
use cursor::{Taken, Tap};
use packet_ring::{Publisher, Subscriber, new};
use std::alloc::Global;
use std::collections::VecDeque;
use std::sync::{Arc, Condvar, Mutex, Wait};
use std::thread::yield_now;

impl Relay<Subscriber> for Publisher {
    fn open(alloc: Global, seats: usize) -> Result<(Publisher, Vec<Subscriber>)> {
        let (publisher, passes) = new(alloc, KEEP, seats.min(1024), SIZE)?;
        let readers = passes.into_iter().map(|pass| pass.attach()).collect(alloc)?;
        Ok((publisher, readers))
    }

    fn publish(&mut self, _: &impl Wait, bytes: &[u8]) -> bool {
        Publisher::publish(self, 0, bytes).is_ok()
    }

    fn close(self, _: &impl Wait) {
        let _receipt = Publisher::close(self);
    }

    fn take(reader: &mut Subscriber, rt: &impl Wait, buf: &mut [u8; SIZE]) -> Option<(u64, usize)> {
        let mut lost = 0u64;
        for _ in rt.forever() {
            if reader.packet_bytes() > SIZE {
                break;
            }
            match reader.take(buf) {
                Taken::Packet { len, .. } => return Some((lost, len)),
                Taken::Lost(count) => lost = lost.saturating_add(count),
                Taken::Empty => yield_now(),
                Taken::Ended => break,
            }
        }
        None
    }
}

/// A packet that is kept, and how many bytes it has.
type Packet = ([u8; SIZE], usize);

/// The packets kept, the number of the first of them, and whether no more will come.
type Kept = (VecDeque<Packet>, u64, bool);

/// A share in the list, and the number of the packet that its reader takes next.
#[derive(Drop)]
pub struct List(Arc<(Mutex<Kept>, Condvar), Global>, u64);

/// A packet of these bytes.
fn packet_of(bytes: &[u8]) -> Packet {
    let mut packet = [0; SIZE];
    let len = bytes.len().min(SIZE);
    packet[..len].copy_from_slice(&bytes[..len]);
    (packet, len)
}

impl Relay<List> for List {
    fn open(alloc: Global, seats: usize) -> Result<(List, Vec<List>)> {
        let kept = (VecDeque::with_capacity(alloc, KEEP)?, 0, false);
        let list = Arc::new(alloc, (Mutex::new(kept), Condvar::new()))?;
        let mut readers = Vec::new(alloc);
        for _ in 0..seats {
            readers.push(List(Arc::try_clone(&list)?, 0))?;
        }
        Ok((List(list, 0), readers))
    }

    fn publish(&mut self, rt: &impl Wait, bytes: &[u8]) -> bool {
        let mut kept = self.0.0.lock(rt);
        let (packets, first, _) = &mut *kept;
        if packets.len() >= KEEP {
            let _ = packets.pop_front();
            *first = first.saturating_add(1);
        }
        let published = packets.push_back(packet_of(bytes)).is_ok();
        drop(kept);
        self.0.1.notify_all();
        published
    }

    fn close(self, rt: &impl Wait) {
        self.0.0.lock(rt).2 = true;
        self.0.1.notify_all();
    }

    fn take(reader: &mut List, rt: &impl Wait, buf: &mut [u8; SIZE]) -> Option<(u64, usize)> {
        let next = reader.1;
        let kept = reader.0.0.lock(rt);
        let kept = reader.0.1.wait_while(rt, kept, |(packets, first, closed)| {
            !*closed && packets.len() <= next.saturating_sub(*first) as usize
        });
        let (packets, first, _) = &*kept;
        let (bytes, len) = packets.get(next.saturating_sub(*first) as usize)?;
        *buf = *bytes;
        let lost = first.saturating_sub(next);
        reader.1 = next.saturating_add(lost).saturating_add(1);
        Some((lost, *len))
    }
}
