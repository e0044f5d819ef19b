//! Runs cases of the crates of a client that are written as a text: what goes in, line by line, and what has to come out. It prints each
//! step that differs, and how many cases there were of each kind. `README.md` says which kinds there are.
#![tactic(auto)]

mod auth_cases;
mod pull_cases;
mod pull_making;
mod pull_words;
mod request_cases;
mod suite;
mod telling;
mod topic;
mod url_cases;

use case_texts::{exit_code, outcome_of, read_input, tell};
use std::io;
use std::process::ExitCode;
use suite::Cases;

/// The name of the program.
const PROGRAM: &str = "client_transcripts";

fn main(rt: HostRuntime) -> io::Result<ExitCode> {
    let holds = run_input(&rt);
    exit_code(&rt, PROGRAM, holds)
}

/// Runs the cases of the standard input. Returns whether each step gave what it had to.
fn run_input(rt: &(impl Input + Print + Eprint + AllocGlobal)) -> io::Result<bool> {
    let text = read_input(rt)?;
    let cases = Cases { alloc: rt.alloc() };
    let outcome = outcome_of(rt.alloc(), &cases, &text);
    tell(rt, PROGRAM, &outcome)?;
    Ok(outcome.holds)
}
