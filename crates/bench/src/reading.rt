//! Times the reading of frames.

use interleaved::{FRAME_HEAD, Frame, ListSource, put_frame};
use rtsp_message::{Intake, Next, Unit};
use std::alloc::Global;
use std::io::{Eprint, Print};
use std::time::{Clock, Instant};

/// The bytes of a packet of video, and of one of sound.
const SIZES: [usize; 2] = [1200, 160];

/// The most bytes that an intake has room for in one read.
const LONGEST_READ: usize = 65_536;

/// How many frames were read, and a sum that depends on bytes of each.
#[derive(Clone, Copy, Default, Drop)]
struct Tally {
    frames: u64,
    sum: u64,
}

/// Reads so many frames of each size, whose bytes follow from the seed, from a source in memory: in the longest reads, in reads
/// of one and a half frames, and in reads of one. Writes nanoseconds a frame on standard error; standard output tells how many
/// were read, and a sum over their bytes.
pub fn time_all(
    rt: &(impl Print + Eprint + Clock),
    alloc: Global,
    frames: u64,
    seed: u64,
) -> anyhow::Result<()> {
    for size in SIZES {
        let one = size.saturating_add(FRAME_HEAD);
        for read in [LONGEST_READ, one.saturating_add(one / 2), one] {
            time(rt, alloc, frames, (size, read), seed)?;
        }
    }
    Ok(())
}

/// Times an intake over frames of one size, from a source that gives at most so many bytes at once.
fn time(
    rt: &(impl Print + Eprint + Clock),
    alloc: Global,
    frames: u64,
    (size, read): (usize, usize),
    seed: u64,
) -> anyhow::Result<()> {
    let bytes = stream(alloc, frames, size, seed)?;
    let mut intake = Intake::new(alloc, ListSource::new(bytes, read.max(1), None));
    let start = Instant::now(rt)?;
    let tally = read_all(&mut intake);
    let nanos = start.elapsed(rt)?.as_nanos();
    let each = nanos / u128::from(tally.frames.max(1));
    eprintln!(rt; "{size:<5} bytes in reads of {read:<6} {each:>7} ns a frame")?;
    println!(rt;
        "{size} bytes in reads of {read}: {} of {frames} frames were read, with the sum {}",
        tally.frames, tally.sum
    )?;
    Ok(())
}

/// Reads frames up to the end.
fn read_all(intake: &mut Intake<ListSource>) -> Tally {
    let mut tally = Tally::default();
    for _ in 0..intake.left() {
        let Next::Unit(Unit::Frame(frame)) = intake.next() else {
            break;
        };
        tally.add(&frame);
    }
    tally
}

impl Tally {
    /// Counts a frame, with its channel, its length and two bytes of its data.
    fn add(&mut self, frame: &Frame) {
        let bytes = frame.payload.as_slice();
        let first = u64::from(*bytes.first().unwrap_or(&0));
        let last = u64::from(*bytes.last().unwrap_or(&0));
        self.frames = self.frames.saturating_add(1);
        self.sum = self
            .sum
            .wrapping_mul(31)
            .wrapping_add(u64::from(frame.channel))
            .wrapping_add(bytes.len() as u64)
            .wrapping_add(first)
            .wrapping_add(last);
    }
}

/// So many frames with data of so many bytes. Its first eight bytes aren't those of the frame before.
fn stream(alloc: Global, frames: u64, size: usize, seed: u64) -> anyhow::Result<Vec<u8>> {
    let mut packet = first_packet(alloc, size, seed)?;
    let mut bytes = Vec::new(alloc);
    let mut word = seed;
    for _ in 0..frames {
        word = after(word);
        if let Some(front) = packet.as_mut_slice().get_mut(0..8) {
            front.copy_from_slice(&word.to_le_bytes());
        }
        put_frame(&mut bytes, word.to_le_bytes()[7], &packet)?;
    }
    Ok(bytes)
}

/// So many bytes that follow from the seed.
fn first_packet(alloc: Global, size: usize, seed: u64) -> anyhow::Result<Vec<u8>> {
    let mut word = seed;
    let mut bytes = Vec::with_capacity(alloc, size)?;
    for _ in 0..size {
        word = after(word);
        bytes.push(word.to_le_bytes()[7])?;
    }
    Ok(bytes)
}

/// The word after this one.
fn after(word: u64) -> u64 {
    word.wrapping_mul(6_364_136_223_846_793_005)
        .wrapping_add(1_442_695_040_888_963_407)
}
