//! What is measured, over anything that packets are published in and taken from.
use crate::ring::keeping::summed;
use crate::ring::source::Source;
use std::alloc::{AllocError, Global};
use std::io::Result;
use std::sync::Wait;
use std::thread::{JoinHandle, Threads, spawn};
use std::time::{Clock, Instant};

/// How many packets are kept, and how many are published in a round.
pub const KEEP: usize = 512;

/// The bytes of the longest packet that goes through the ring and the list.
pub const SIZE: usize = 1200;

/// Where packets are published, for readers to take.
pub trait Relay<Reader>: Drop {
    /// A relay with so many readers.
    fn open(alloc: Global, seats: usize) -> anyhow::Result<(Self, Vec<Reader>)>;

    /// Whether the packet was published.
    fn publish(&mut self, rt: &impl Wait, bytes: &[u8]) -> bool;

    fn close(self, rt: &impl Wait);

    /// Copies the next packet, and answers how many were lost before it and how many bytes it has, or `None` at the end.
    fn take(reader: &mut Reader, rt: &impl Wait, buf: &mut [u8; SIZE]) -> Option<(u64, usize)>;
}

/// What came of reading packets.
#[derive(Clone, Copy, Drop)]
struct Reading {
    lost: u128,
    nanos: u128,
    /// Depends on bytes of each packet, so that none is left uncopied.
    sum: u64,
}

/// Times in nanoseconds, packets published a second and lost, and what was read by one thread.
#[derive(Clone, Copy, Drop)]
pub struct Times {
    pub publish: u128,
    pub take: u128,
    pub rate: u128,
    pub lost: u128,
    pub sum: u64,
}

/// Publishes so many packets, and answers how many were published, and in how many nanoseconds.
fn publish<O>(
    rt: &(impl Wait + Clock),
    to: &mut impl Relay<O>,
    source: &mut Source,
    count: usize,
) -> Result<(u128, u128)> {
    let start = Instant::now(rt)?;
    let mut published = 0u128;
    for _ in 0..count {
        published = published.saturating_add(u128::from(to.publish(rt, source.next())));
    }
    Ok((published, start.elapsed(rt)?.as_nanos()))
}

/// Takes so many packets or fewer.
fn read<T: Relay<O>, O>(rt: &(impl Wait + Clock), from: &mut O, most: usize) -> Result<Reading> {
    let start = Instant::now(rt)?;
    let (mut buf, mut lost, mut sum) = ([0; SIZE], 0u128, 0u64);
    for _ in 0..most {
        let Some((missed, len)) = T::take(from, rt, &mut buf) else {
            break;
        };
        lost = lost.saturating_add(u128::from(missed));
        sum = summed(sum, &buf[..len.min(SIZE)]);
    }
    let nanos = start.elapsed(rt)?.as_nanos();
    Ok(Reading { lost, nanos, sum })
}

/// Nanoseconds a publish and a take by one thread, where one reader reads and the others take nothing; then, with each in a
/// thread of its own, the packets published a second, and those that readers lost.
pub fn time<T, O, R>(
    rt: R,
    alloc: Global,
    seats: usize,
    mut source: Source,
    rounds: u32,
) -> anyhow::Result<Times>
where
    T: Relay<O> + Send + 'static,
    O: Drop + Send + 'static,
    R: Threads + Wait + Clock + Copy + Send + Sync + 'static,
{
    let alone = by_one_thread::<T, O, R>(&rt, alloc, seats, &mut source, rounds)?;
    let (rate, lost) = by_threads::<T, O, R>(rt, alloc, seats, &mut source, rounds)?;
    Ok(Times {
        rate,
        lost,
        ..alone
    })
}

fn by_one_thread<T: Relay<O>, O: Drop, R: Wait + Clock>(
    rt: &R,
    alloc: Global,
    seats: usize,
    source: &mut Source,
    rounds: u32,
) -> anyhow::Result<Times> {
    let (mut relay, mut readers) = T::open(alloc, seats)?;
    let (mut publishing, mut taking, mut sum) = (0u128, 0u128, 0u64);
    for _ in 0..rounds {
        publishing = publishing.saturating_add(publish(rt, &mut relay, source, KEEP)?.1);
        if let Some(reader) = readers.last_mut() {
            let read = read::<T, O>(rt, reader, KEEP)?;
            taking = taking.saturating_add(read.nanos);
            sum = sum.wrapping_add(read.sum);
        }
    }
    let count = u128::from(rounds).saturating_mul(KEEP as u128).max(1);
    Ok(Times {
        publish: publishing / count,
        take: taking / count,
        rate: 0,
        lost: 0,
        sum,
    })
}

/// The packets published a second by one thread, and those that readers lost, each in a thread of its own.
fn by_threads<T, O, R>(
    rt: R,
    alloc: Global,
    seats: usize,
    source: &mut Source,
    rounds: u32,
) -> anyhow::Result<(u128, u128)>
where
    T: Relay<O> + Send + 'static,
    O: Drop + Send + 'static,
    R: Threads + Wait + Clock + Copy + Send + Sync + 'static,
{
    let (mut relay, readers) = T::open(alloc, seats)?;
    let most = (rounds as usize).saturating_mul(KEEP);
    let threads = start_all::<T, O, R>(rt, alloc, readers, most)?;
    let (published, nanos) = publish(&rt, &mut relay, source, most)?;
    relay.close(&rt);
    let mut lost = 0u128;
    for thread in threads {
        lost = lost.saturating_add(thread.join(&rt)?.lost);
    }
    Ok((published.saturating_mul(1_000_000_000) / nanos.max(1), lost))
}

/// A thread for each reader.
fn start_all<T, O, R>(
    rt: R,
    alloc: Global,
    readers: Vec<O>,
    most: usize,
) -> anyhow::Result<Vec<JoinHandle<Result<Reading>>>>
where
    T: Relay<O> + Send + 'static,
    O: Drop + Send + 'static,
    R: Threads + Wait + Clock + Copy + Send + Sync + 'static,
{
    let mut threads = Vec::new(alloc);
    for mut reader in readers {
        let thread = spawn(&rt, move || read::<T, O>(&rt, &mut reader, most));
        threads.push(thread.map_err(|_| AllocError)?)?;
    }
    Ok(threads)
}
