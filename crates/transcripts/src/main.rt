//! Runs cases that are written as a text: what goes in, line by line, and what has to come out. It tells each step that
//! differs, and how many cases there were of each kind. `README.md` says how a text is written.
#![tactic(auto)]

mod book_cases;
mod client_cases;
mod client_told;
mod description_cases;
mod header_cases;
mod kind;
mod log_cases;
mod mount_cases;
mod network_cases;
mod reply_cases;
mod ring_cases;
mod server_stream_cases;
mod source_cases;
mod steps_cases;
mod stream_cases;
mod subject;
mod suite;
mod track_cases;
mod uri_cases;

use book_cases::Cutting;
use case_texts::{exit_code, outcome_of, read_input, tell};
use std::collections::hash_map::RandomState;
use std::io;
use std::process::ExitCode;
use std::random::RandomSource;
use suite::Cases;

/// The name of the program.
const PROGRAM: &str = "transcripts";

fn main(rt: HostRuntime) -> io::Result<ExitCode> {
    let holds = run_input(&rt);
    exit_code(&rt, PROGRAM, holds)
}

/// Runs the cases of the standard input, and once more over books that cut off what they can. Returns whether each step gave what it
/// had to, both times. Prints nothing of a second run that differs in nothing.
fn run_input(rt: &(impl Input + Print + Eprint + AllocGlobal + RandomSource)) -> io::Result<bool> {
    let text = read_input(rt)?;
    let cases = Cases {
        alloc: rt.alloc(),
        hasher: RandomState::new(rt)?,
        cutting: Cutting::Seldom,
    };
    let outcome = outcome_of(rt.alloc(), &cases, &text);
    tell(rt, PROGRAM, &outcome)?;
    if !outcome.holds {
        return Ok(false);
    }
    let cases = Cases {
        cutting: Cutting::Always,
        ..cases
    };
    let outcome = outcome_of(rt.alloc(), &cases, &text);
    if !outcome.holds {
        println!(rt; "over books that cut their entries off")?;
        tell(rt, PROGRAM, &outcome)?;
    }
    Ok(outcome.holds)
}
