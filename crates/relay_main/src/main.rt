//! A live relay for RTSP 1.0 (RFC 2326).
#![tactic(auto)]

ghost use Rattle.std.specs.Prelude.{◌≤◌};

mod addresses;
mod process;
mod pulling;
mod send_buffers;
mod serve;
mod server_pages;
mod status_pages;
pub mod task;

use interleaved::{Reading, Writing};
use pulling::pull_stream;
use rand::make_rng;
use rand::rngs::StdRng;
use relay_command::{Asked, Passing, exit_code, read_words};
use relay_server::ClockMoments;
use relay_talk::{Ended, do_talk};
use ring_steps::Actor;
use serve::serve;
use session_state::Words;
use session_words::{DrawnWords, FixedWord, NoWords, WordSource, word_source};
use std::collections::hash_map::RandomState;
use std::io;
use std::io::Eprint;
use std::process::ExitCode;
use task::{do_pass, do_steps};

fn main(rt: HostRuntime) -> anyhow::Result<ExitCode> {
    let alloc = rt.alloc();
    let words: Vec<String> = std::env::args(&rt)?.collect(alloc)?;
    match read_words(alloc, words.as_slice()) {
        Ok(Asked::Talk(text)) => talk_on_standard_streams(&rt, text.as_deref()),
        Ok(Asked::Steps(stopped)) => steps_on_standard_streams(&rt, stopped),
        Ok(Asked::Pass(passing)) => pass_on_standard_streams(&rt, &passing),
        Ok(Asked::Pull(settings)) => Ok(pull_stream(rt, alloc, settings, rt.stdin())),
        Ok(Asked::Serve(endpoints, settings, origins)) => {
            match serve(rt, alloc, &endpoints, settings, origins, rt.stdin()) {
                Ok(()) => Ok(exit_code(0)),
                Err(line) => Ok(fails(&rt, FAILED, line)),
            }
        }
        Ok(Asked::Nothing) => Ok(exit_code(COMMAND_LINE_FAULT)),
        Err(error) => {
            // The status tells it, wherever the text goes.
            let _ = error.print(&rt);
            Ok(exit_code(error.exit_code() as u8))
        }
    }
}

/// The exit status where the run failed.
pub(crate) const FAILED: u8 = 1;

/// The exit status after a command line that isn't understood.
pub(crate) const COMMAND_LINE_FAULT: u8 = 2;

/// Answers one connection over the standard streams, with the word of this text in each session identifier, or with words
/// that are drawn.
fn talk_on_standard_streams(rt: &HostRuntime, text: Option<&str>) -> anyhow::Result<ExitCode> {
    match word_source(text) {
        Ok(WordSource::Drawn) => {
            let drawn: io::Result<StdRng> = make_rng(rt);
            match drawn {
                Ok(rng) => talk_with(rt, &mut DrawnWords(rng)),
                Err(_) => Ok(has_no_words(rt, NoWords::NoRandomSource)),
            }
        }
        Ok(WordSource::Fixed(word)) => talk_with(rt, &mut FixedWord(word)),
        Err(why) => Ok(has_no_words(rt, why)),
    }
}

/// Answers one connection over the standard streams, with these words.
fn talk_with<V: Words>(rt: &HostRuntime, words: &mut V) -> anyhow::Result<ExitCode> {
    let Ok(hasher) = RandomState::new(rt) else {
        return Ok(has_no_words(rt, NoWords::NoRandomSource));
    };
    let reader = Reading::new(rt.stdin());
    let mut writer = Writing::new(rt.stdout());
    let mut moments = ClockMoments::new(*rt);
    let ended = do_talk(rt.alloc(), hasher, reader, &mut writer, words, &mut moments)?;
    Ok(tell(rt, &ended))
}

/// Tells why a talk has no words.
fn has_no_words(rt: &HostRuntime, why: NoWords) -> ExitCode {
    fails(rt, why.status(), why.line())
}

/// Runs a ring's schedule over the standard streams, after which this actor stops, if one does.
fn steps_on_standard_streams(rt: &HostRuntime, stopped: Option<Actor>) -> anyhow::Result<ExitCode> {
    let reader = Reading::new(rt.stdin());
    let mut writer = Writing::new(rt.stdout());
    let ended = do_steps(rt.alloc(), reader, &mut writer, stopped)?;
    Ok(tell(rt, &ended))
}

/// Passes a publisher's stream from standard input to standard output.
fn pass_on_standard_streams(rt: &HostRuntime, passing: &Passing) -> anyhow::Result<ExitCode>
    requires keep { (1 ≤ passing.now.keep) × (passing.now.keep ≤ 4095) }
{
    let reader = Reading::new(rt.stdin());
    let mut writer = Writing::new(rt.stdout());
    let ended = do_pass(rt.alloc(), reader, &mut writer, passing)?;
    Ok(tell(rt, &ended))
}

/// Tells how a task ended. With status 0 nothing stands on standard error.
fn tell(rt: &HostRuntime, ended: &Ended) -> ExitCode {
    if ended.status != 0 {
        return fails(rt, ended.status, &ended.line);
    }
    exit_code(ended.status)
}

/// Writes a line to standard error, and tells the status.
pub(crate) fn fails(rt: &impl Eprint, status: u8, line: &str) -> ExitCode {
    let _ = rt.eprintln(line);
    exit_code(status)
}
