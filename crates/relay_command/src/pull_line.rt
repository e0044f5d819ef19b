//! A command line of `relay pull`.
ghost use Rattle.std.specs.Prelude.{◌≡◌, ◌≤◌, IfOk};
ghost use Rattle.clap.specs.Values.{kind_of};
ghost use Rattle.clap.specs.declared.error.kind.ErrorKind.TheVariants.{InvalidValue, ValueValidation};
ghost use Rattle.relay_command.specs.Pulling.{IsPulledInRange};

use crate::commands::pull_command;
use clap::error::ErrorKind;
use clap::{ArgMatches, Error};
use pull_plan::{LONGEST_RETRY, PullSettings, SHORTEST_RETRY, WantedTracks, read_tracks};
use std::alloc::{AllocError, Global};
use std::convert::AsStr;

/// Returns what `relay pull` is to do.
pub(crate) fn pulling_of(alloc: Global, matches: &ArgMatches) -> Result<PullSettings, Error>
    ensures ranges { IfOk result IsPulledInRange }
{
    let tracks = tracks_of(alloc, matches.get_str("tracks").unwrap_or("video,audio"))?;
    let password_file = match matches.get_str("password-file") {
        Some(path) => Some(String::from_str(alloc, path)?),
        None => None,
    };
    Ok(PullSettings {
        source: String::from_str(alloc, matches.get_str("source").unwrap_or(""))?,
        target: String::from_str(alloc, matches.get_str("target").unwrap_or(""))?,
        password_file,
        tracks,
        silent: milliseconds(matches.get_one::<u64>("silent").unwrap_or(10)),
        retry: matches
            .get_one::<u64>("retry")
            .unwrap_or(1_000)
            .clamp(SHORTEST_RETRY, LONGEST_RETRY),
        once: matches.get_flag("once"),
        until_eof: matches.get_flag("until-eof"),
        is_verbose: matches.get_flag("verbose"),
        report: matches
            .get_one::<u64>("report")
            .map(|seconds| milliseconds(seconds)),
    })
}

/// Returns seconds of the command line, 1 to 86,400, in milliseconds.
fn milliseconds(seconds: u64) -> u64
    ensures least { 1000 ≤ result }
    ensures most { result ≤ 86400000 }
{
    seconds.clamp(1, 86_400) * 1_000
}

/// Returns the tracks that a text asks for. It is an error if it is another text.
fn tracks_of(alloc: Global, text: &str) -> Result<WantedTracks, Error> {
    match read_tracks(text) {
        Some(tracks) => Ok(tracks),
        None => Err(no_tracks(alloc)?),
    }
}

/// A command line fault: a text asks for no tracks.
fn no_tracks(alloc: Global) -> Result<Error, AllocError>
    ensures { IfOk result (λ error. kind_of error ≡ ValueValidation) }
{
    let why = "invalid value for '--tracks <KINDS>': not video, audio or video,audio";
    let mut command = pull_command(alloc)?.bin_name("relay pull")?;
    command.error(ErrorKind::ValueValidation, why)
}

/// Returns whether a word of a command line can have a password: the user of a URL, or its query. The parser's text could repeat that word,
/// whatever command the line is of: `pull` may have been left out.
pub(crate) fn can_have_password<S: AsStr>(words: &[S]) -> bool {
    words.iter().any(|word| {
        let text = word.as_str();
        text.contains('@') || (text.contains("://") && text.contains('?'))
    })
}

/// A command line fault whose text repeats no word of the line.
pub(crate) fn hidden_fault(alloc: Global) -> Result<Error, AllocError>
    ensures { IfOk result (λ error. kind_of error ≡ InvalidValue) }
{
    let why =
        "the command line isn't understood; it isn't repeated here, since it can have a password";
    let mut command = pull_command(alloc)?.bin_name("relay pull")?;
    command.error(ErrorKind::InvalidValue, why)
}
