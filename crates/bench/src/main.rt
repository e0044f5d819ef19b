//! Times the ring, the book and the reading of frames. `bench ROUNDS REQUESTS SEED FRAMES` publishes ROUNDS times 512 packets, asks
//! REQUESTS times for each of three requests, and reads FRAMES thousand frames of each of two sizes; 0 leaves a part out. Bytes
//! follow from SEED. Times are written on standard error, and what was read and answered on standard output.
#![tactic(auto)]

mod book;
mod reading;
mod ring;

fn main(rt: HostRuntime) -> anyhow::Result<()> {
    let alloc = rt.alloc();
    let words: Vec<String> = std::env::args(&rt)?.collect(alloc)?;
    let rounds = rounds(&words).unwrap_or(1);
    let requests = number(words.get(2)).unwrap_or(1);
    let seed = number(words.get(3)).unwrap_or(0);
    let frames = number(words.get(4)).unwrap_or(1).saturating_mul(1000);
    if rounds > 0 {
        ring::time_all(rt, alloc, rounds, seed)?;
    }
    if requests > 0 {
        book::time_all(&rt, alloc, requests, seed)?;
    }
    if frames > 0 {
        reading::time_all(&rt, alloc, frames, seed)?;
    }
    Ok(())
}

/// The first word of the command line, as a number.
fn rounds(words: &[String]) -> Option<u32> {
    words.get(1)?.parse().ok()
}

/// A word of the command line, as a number.
fn number(word: Option<&String>) -> Option<u64> {
    word?.parse().ok()
}
