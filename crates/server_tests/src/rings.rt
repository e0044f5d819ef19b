//! Rings for tests. Some are refused memory, and a flag is set when a ring's last owner is dropped.
use crate::devices::{Flag, flag};
use cursor::{Account, Feed, Left, Lend, Refused, Taken, Tap, Visit};
use pacing::Back;
use packet_ring::{Pass, Publisher, Subscriber};
use relay_fanout::{Leave, Maker, RingMaker};
use std::alloc::{AllocError, Global};
use std::ops::Range;
use std::process::Abort;
use std::sync::Arc;
use std::sync::atomic::Ordering;
use std::thread;
use test_kit::{Count, count};

/// A thread that leaves a ring for ever sets a flag, and waits until it is let on, for at most ten million turns.
#[derive(Drop)]
pub(crate) struct Parting {
    pub(crate) has_come: Flag,
    pub(crate) let_on: Flag,
}

impl Parting {
    /// No thread has come.
    pub(crate) fn new(rt: &impl Abort, alloc: Global) -> Parting {
        Parting {
            has_come: flag(rt, alloc),
            let_on: flag(rt, alloc),
        }
    }

    /// Returns one more handle of the same.
    fn copy(&self) -> Result<Parting, AllocError> {
        Ok(Parting {
            has_come: Arc::try_clone(&self.has_come)?,
            let_on: Arc::try_clone(&self.let_on)?,
        })
    }

    fn wait(&self) {
        self.has_come.store(true, Ordering::SeqCst);
        for _ in 0..10_000_000u32 {
            if self.let_on.load(Ordering::SeqCst) {
                return;
            }
            thread::yield_now();
        }
    }
}

/// Sets its flag when it is dropped.
struct Owner {
    gone: Flag,
    parting: Option<Parting>,
}

impl Drop for Owner {
    fn drop(self) {
        let Owner {
            gone,
            parting: _parting,
        } = self;
        gone.store(true, Ordering::SeqCst);
    }
}

/// An owner of a ring among others. The ring is freed with the last of them.
#[derive(Drop)]
pub(crate) struct Owned<T> {
    inner: T,
    owner: Arc<Owner, Global>,
}

impl<F: Feed> Feed for Owned<F> {
    ghost told = { λ o. F.told o.inner };

    ghost packet_bytes = { λ o. F.packet_bytes o.inner };

    ghost may_refuse = { F.may_refuse };

    ghost publish_gives = { λ old packet answer new. F.publish_gives old.inner packet answer new.inner };

    fn publish(&mut self, tag: u8, bytes: &[u8]) -> Result<u64, Refused> {
        self.inner.publish(tag, bytes)
    }

    fn packet_bytes(&self) -> usize {
        self.inner.packet_bytes()
    }

    fn close(self) {
        self.inner.close();
    }
}

impl<T: Tap> Tap for Owned<T> {
    ghost account = { λ o. T.account o.inner };

    ghost packet_bytes = { λ o. T.packet_bytes o.inner };

    ghost take_gives = { λ old answer new. T.take_gives old.inner answer new.inner };

    fn take(&mut self, buf: &mut [u8]) -> Taken {
        self.inner.take(buf)
    }

    fn cursor(&self) -> u64 {
        self.inner.cursor()
    }

    fn account(&self) -> Account {
        self.inner.account()
    }

    fn packet_bytes(&self) -> usize {
        self.inner.packet_bytes()
    }

    ghost counts = { λ old answer new given. T.counts old.inner answer new.inner given };
}

impl<T: Lend> Lend for Owned<T> {
    fn take_with<V: Visit>(&mut self, visitor: &mut V) -> Taken {
        self.inner.take_with(visitor)
    }
}

impl<T: Leave> Leave for Owned<T> {
    fn leave_for_good(self) -> Left {
        if let Some(parting) = &self.owner.parting {
            parting.wait();
        }
        self.inner.leave_for_good()
    }
}

/// Makes rings, of which some are refused memory.
#[derive(Drop)]
pub(crate) struct Rings {
    maker: RingMaker,
    /// How many were made or refused.
    pub(crate) made: Count,
    /// Set when a ring has no owner any more.
    pub(crate) gone: Flag,
    /// Which ones are refused, counted from 0.
    refused: Range<u64>,
    /// Where a thread that leaves a ring for ever waits.
    parting: Option<Parting>,
}

impl Rings {
    /// Rings of `seats` seats that keep `keep` packets of at most 16 bytes, none of which is refused.
    pub(crate) fn keeping(rt: &impl Abort, alloc: Global, seats: usize, keep: usize) -> Rings {
        Rings {
            maker: RingMaker::new(keep.clamp(1, 4095), seats.min(1024), 16),
            made: count(alloc).expect(rt, "memory"),
            gone: flag(rt, alloc),
            refused: 0..0,
            parting: None,
        }
    }

    /// Rings of `seats` seats that keep four packets.
    pub(crate) fn of(rt: &impl Abort, alloc: Global, seats: usize) -> Rings {
        Rings::keeping(rt, alloc, seats, 4)
    }

    /// Rings of one seat, of which these are refused.
    pub(crate) fn refusing(rt: &impl Abort, alloc: Global, refused: Range<u64>) -> Rings {
        Rings {
            refused,
            ..Rings::of(rt, alloc, 1)
        }
    }

    /// Rings of one seat. A thread that leaves one for ever waits at `parting`.
    pub(crate) fn holding(rt: &impl Abort, alloc: Global, parting: &Parting) -> Rings {
        Rings {
            parting: Some(parting.copy().expect(rt, "a count of its users")),
            ..Rings::of(rt, alloc, 1)
        }
    }
}

impl Maker for Rings {
    type In = Owned<Publisher>;

    type Pass = Owned<Pass>;

    type Out = Owned<Subscriber>;

    fn make(&self, alloc: Global) -> Result<(Owned<Publisher>, Vec<Owned<Pass>>), AllocError> {
        let place = self.made.fetch_add(1, Ordering::SeqCst);
        if self.refused.contains(&place) {
            return Err(AllocError);
        }
        let (inner, passes) = self.maker.make(alloc)?;
        let gone = Arc::try_clone(&self.gone)?;
        let parting = match &self.parting {
            Some(parting) => Some(parting.copy()?),
            None => None,
        };
        let owner = Arc::new(alloc, Owner { gone, parting })?;
        let mut owned = Vec::with_capacity(alloc, passes.len())?;
        for inner in passes {
            let owner = Arc::try_clone(&owner)?;
            owned.push(Owned { inner, owner })?;
        }
        Ok((Owned { inner, owner }, owned))
    }

    fn attach(&self, pass: Owned<Pass>, back: u64) -> Owned<Subscriber> {
        let Owned { inner, owner } = pass;
        Owned {
            inner: self.maker.attach(inner, back),
            owner,
        }
    }

    fn detach(&self, out: Owned<Subscriber>) -> (Owned<Pass>, Left) {
        let Owned { inner, owner } = out;
        let (inner, left) = self.maker.detach(inner);
        (Owned { inner, owner }, left)
    }

    fn keep(&self) -> u64 {
        self.maker.keep()
    }

    fn back(&self) -> Back {
        self.maker.back()
    }
}
