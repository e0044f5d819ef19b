//! Times the ring beside a list under a lock, and beside plain copies.

mod alone;
mod keeping;
mod relays;
mod source;
mod timing;

use alone::{Alone, time_alone};
use keeping::{Buffers, Copied, Keeper, Seen};
use packet_ring::{Publisher, Subscriber};
use relays::List;
use source::Source;
use std::alloc::Global;
use std::fmt::Display;
use std::io::{Eprint, Print};
use std::sync::Wait;
use std::thread::Threads;
use std::time::Clock;
use timing::{KEEP, SIZE, Times, time};

/// Publishes so many times 512 packets, whose bytes and lengths follow from the seed, and writes the times on standard error.
/// Standard output tells whether all gave the same bytes, and how many packets were seen.
pub fn time_all<R>(rt: R, alloc: Global, rounds: u32, seed: u64) -> anyhow::Result<()>
where
    R: Threads + Wait + Clock + Print + Eprint + Copy + Send + Sync + 'static,
{
    eprintln!(rt; "of    seats  ns a publish  ns a take  published a second      lost")?;
    for seats in [0, 1, 3, 64] {
        let source = Source::new(alloc, seed, SIZE)?;
        let ring = time::<Publisher, Subscriber, _>(rt, alloc, seats, source, rounds)?;
        tell(&rt, "ring", seats, &ring)?;
        let source = Source::new(alloc, seed, SIZE)?;
        let list = time::<List, List, _>(rt, alloc, seats, source, rounds)?;
        tell(&rt, "list", seats, &list)?;
        let same = told(ring.sum == list.sum);
        println!(rt; "{seats} seats: the ring and the list gave {same} bytes")?;
    }
    eprintln!(rt; "by one thread            bytes  ns a write  least  ns a read  least  read")?;
    for size in [1_200, 16_384] {
        beside_copies(&rt, alloc, size, seed, rounds)?;
    }
    Ok(())
}

/// Times a ring beside plain copies by one thread, with packets of up to so many bytes.
fn beside_copies(
    rt: &(impl Print + Eprint + Clock),
    alloc: Global,
    size: usize,
    seed: u64,
    rounds: u32,
) -> anyhow::Result<()> {
    let row = Row {
        alloc,
        size,
        seed,
        rounds,
    };
    let _hot = row.tell(rt, "copy, one buffer", Buffers::new(alloc, 1, size)?)?;
    // A ring writes in turn to one place more than it keeps packets.
    let copies = row.tell(rt, "copy, as a ring", Buffers::new(alloc, KEEP + 1, size)?)?;
    let ring = row.tell(rt, "ring, take", Copied::new(alloc, size)?)?;
    let seen = row.tell(rt, "ring, take_with", Seen::new(alloc, size)?)?;
    let same = told(copies == ring);
    let all = u64::from(rounds).saturating_mul(KEEP as u64);
    println!(rt;
        "{size} bytes: the ring and copies gave {same} bytes, and {seen} of {all} packets were seen"
    )?;
    Ok(())
}

/// Whether bytes were the same.
fn told(same: bool) -> &'static str {
    if same { "the same" } else { "other" }
}

/// A line of times of one thread: its packets, and how often it is timed.
#[derive(Clone, Copy)]
struct Row {
    alloc: Global,
    size: usize,
    seed: u64,
    rounds: u32,
}

impl Row {
    /// Times this keeper, writes its line, and answers what was read.
    fn tell(
        self,
        rt: &(impl Eprint + Clock),
        name: impl Display + Copy,
        mut keeper: impl Keeper + Drop,
    ) -> anyhow::Result<u64> {
        let source = Source::new(self.alloc, self.seed, self.size)?;
        let Alone { put, read, sum } = time_alone(rt, &mut keeper, source, self.rounds)?;
        let (write, least_write) = put.each(self.rounds);
        let (read, least_read) = read.each(self.rounds);
        let size = self.size;
        eprintln!(rt;
            "{name:<22}  {size:>7}  {write:>10}  {least_write:>5}  {read:>9}  {least_read:>5}  {sum}"
        )?;
        Ok(sum)
    }
}

/// Writes a line of times.
fn tell(
    rt: &impl Eprint,
    name: impl Display + Copy,
    seats: usize,
    times: &Times,
) -> std::io::Result<()> {
    let Times {
        publish,
        take,
        rate,
        lost,
        ..
    } = times;
    eprintln!(rt; "{name}  {seats:>5}  {publish:>12}  {take:>9}  {rate:>18}  {lost:>8}")
}
