//! Times the book alone.

mod bench;
mod texts;

use anyhow::bail;
use bench::{Bench, Times};
use std::alloc::Global;
use std::collections::hash_map::RandomState;
use std::fmt::Display;
use std::io::{Eprint, Print};
use std::random::RandomSource;
use std::time::Clock;

/// Asks a book so many times for each of three requests, whose bytes follow from the seed, and writes nanoseconds an answer on
/// standard error. Standard output tells how many were answered with 200.
pub fn time_all(
    rt: &(impl Print + Eprint + Clock + RandomSource),
    alloc: Global,
    rounds: u64,
    seed: u64,
) -> anyhow::Result<()> {
    let Ok(hasher) = RandomState::new(rt) else {
        bail!("no random source");
    };
    let mut bench = Bench::new(alloc, seed, hasher)?;
    time(rt, &mut bench, rounds)
}

/// Times each of the three requests.
fn time(rt: &(impl Print + Eprint + Clock), bench: &mut Bench, rounds: u64) -> anyhow::Result<()> {
    let options = bench.options(rt, rounds)?;
    tell(rt, "OPTIONS", rounds, &options)?;
    let describe = bench.describe(rt, rounds)?;
    tell(rt, "DESCRIBE", rounds, &describe)?;
    let announce = bench.announce(rt, rounds)?;
    tell(rt, "ANNOUNCE", rounds, &announce)
}

/// Writes a line of times, and one of answers.
fn tell(
    rt: &(impl Print + Eprint),
    name: impl Display + Copy,
    rounds: u64,
    times: &Times,
) -> anyhow::Result<()> {
    let each = times.nanos / u128::from(rounds.max(1));
    eprintln!(rt; "{name:<8}  {each:>7} ns an answer")?;
    println!(rt;
        "{name}: {} of {rounds} were answered with 200",
        times.accepted
    )?;
    Ok(())
}
