ghost use Rattle.std.specs.Prelude.{◌≡◌, ◌≤◌, ◌<◌, ◌^◌, ◌++◌, ◌∷◌, [], length, slice_get, slice_set, IfOk, OnOk, is_some};
ghost use Rattle.ring_steps.specs.Ring.{empty_ring, fresh_slot, new_publisher, new_seat};
ghost use Rattle.ring_steps.specs.Slots.{Invariant};

use crate::ring::Ring;
use crate::views::{Publisher, PublisherPhase, Seat, SeatPhase};
use crate::words::{Head, Slot, Word};
use base_syntax::Bytes;
use cursor::Account;
use std::alloc::{AllocError, Global};

impl Ring {
    /// The ring that nobody used yet, which keeps so many packets, with so many seats.
    pub fn new(alloc: Global, keep: u64, seats: u16) -> Result<Ring, AllocError>
        requires low { 1 ≤ keep }
        requires high { keep ≤ 4095 }
        ensures empty { IfOk result (λ ring. ring ≡ empty_ring keep seats) }
        ensures invariant { IfOk result (λ ring. Invariant ring) }
    {
        Ring::empty(alloc, keep, seats)
    }

    /// The same, without what holds of it.
    fn empty(alloc: Global, keep: u64, seats: u16) -> Result<Ring, AllocError>
        requires { keep ≤ 4095 }
        ensures { IfOk result (λ ring. ring ≡ empty_ring keep seats) }
    {
        let mut slots = Vec::new(alloc);
        for _ in 0..keep + 1 {
            slots.push(Slot::fresh(alloc))?;
        }
        let mut views = Vec::new(alloc);
        for _ in 0..seats {
            views.push(Seat::new(alloc))?;
        }
        Ok(Ring {
            alloc,
            keep,
            head: Head {
                length: 0,
                closed: false,
            },
            slots,
            log: Vec::new(alloc),
            publisher: Publisher::new(alloc),
            seats: views,
        })
    }
}

impl Slot {
    /// A slot to which no packet came.
    fn fresh(alloc: Global) -> Slot
        ensures { result ≡ fresh_slot }
    {
        Slot {
            word: Word {
                pins: 0,
                writing: false,
                number: 0,
            },
            len: 0,
            bytes: Bytes::empty(alloc),
        }
    }
}

impl Seat {
    /// The view of a seat that did nothing yet.
    fn new(alloc: Global) -> Seat
        ensures { result ≡ new_seat }
    {
        Seat {
            phase: SeatPhase::Out,
            account: Account {
                start: 0,
                taken: 0,
                lost: 0,
            },
            seen: 0,
            saw_closed: false,
            loads: 0,
            misses: 0,
            length: 0,
            read: Bytes::empty(alloc),
        }
    }
}

impl Publisher {
    /// The view of a publisher that did nothing yet.
    fn new(alloc: Global) -> Publisher
        ensures { result ≡ new_publisher }
    {
        Publisher {
            closed: false,
            phase: PublisherPhase::Between,
            packet: Bytes::empty(alloc),
            written: 0,
            failed: 0,
            pins: 0,
        }
    }
}
