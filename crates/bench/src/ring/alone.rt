//! What a packet costs one thread.
use crate::ring::keeping::Keeper;
use crate::ring::source::Source;
use crate::ring::timing::KEEP;
use std::io::Result;
use std::time::{Clock, Instant};

/// The nanoseconds of all rounds, and of the fastest.
#[derive(Clone, Copy, Drop)]
pub struct Spent {
    all: u128,
    least: u128,
}

impl Spent {
    fn none() -> Spent {
        Spent {
            all: 0,
            least: u128::MAX,
        }
    }

    fn add(&mut self, nanos: u128) {
        self.all = self.all.saturating_add(nanos);
        self.least = self.least.min(nanos);
    }

    /// Of so many rounds the nanoseconds a packet, and those of the fastest.
    pub fn each(&self, rounds: u32) -> (u128, u128) {
        let packets = u128::from(rounds).saturating_mul(KEEP as u128);
        (self.all / packets.max(1), self.least / KEEP as u128)
    }
}

/// What rounds of so many packets took, put in and read, and what was read.
#[derive(Clone, Copy, Drop)]
pub struct Alone {
    pub put: Spent,
    pub read: Spent,
    pub sum: u64,
}

/// Puts packets in and reads them, as many at once as a ring keeps, so many times. In a first round, which isn't
/// timed, all memory is written for the first time.
pub fn time_alone(
    rt: &impl Clock,
    keeper: &mut impl Keeper,
    mut source: Source,
    rounds: u32,
) -> Result<Alone> {
    let _untimed = (put_all(rt, keeper, &mut source)?, read_all(rt, keeper)?);
    let mut alone = Alone {
        put: Spent::none(),
        read: Spent::none(),
        sum: 0,
    };
    for _ in 0..rounds {
        alone.put.add(put_all(rt, keeper, &mut source)?);
        let (nanos, sum) = read_all(rt, keeper)?;
        alone.read.add(nanos);
        alone.sum = alone.sum.wrapping_add(sum);
    }
    Ok(alone)
}

/// Puts in as many packets as a ring keeps.
fn put_all(rt: &impl Clock, keeper: &mut impl Keeper, source: &mut Source) -> Result<u128> {
    let start = Instant::now(rt)?;
    for _ in 0..KEEP {
        let _kept = keeper.put(source.next());
    }
    Ok(start.elapsed(rt)?.as_nanos())
}

/// Reads as many packets, and answers what was read, too.
fn read_all(rt: &impl Clock, keeper: &mut impl Keeper) -> Result<(u128, u64)> {
    let start = Instant::now(rt)?;
    let mut sum = 0;
    for _ in 0..KEEP {
        let Some(next) = keeper.read(sum) else {
            break;
        };
        sum = next;
    }
    Ok((start.elapsed(rt)?.as_nanos(), sum))
}
