//! The words of cases of a pull.

use case_texts::{Arguments, Fault, meaning};
use rtsp_client::Side;

/// What a word of a case of a pull asks for.
#[derive(Clone, Copy, Drop)]
pub enum PullWord {
    Pull,
    Feed,
    Times,
    Try(TryWord),
}

/// What is asked of a try.
#[derive(Clone, Copy, Drop)]
pub enum TryWord {
    Waiting,
    Fewer,
    Took,
    Passes,
    Closed,
    Lost,
    Stop,
    Redirected,
    Blocks,
    Swap,
    Told(ToldWord),
}

/// What is told of a try.
#[derive(Clone, Copy, Drop)]
pub enum ToldWord {
    Reason,
    Over,
    Reads,
    Redirect,
    Account,
}

const WORDS: [(&str, PullWord); 18] = [
    ("pull", PullWord::Pull),
    ("feed", PullWord::Feed),
    ("times", PullWord::Times),
    ("waiting", PullWord::Try(TryWord::Waiting)),
    ("fewer", PullWord::Try(TryWord::Fewer)),
    ("took", PullWord::Try(TryWord::Took)),
    ("passes", PullWord::Try(TryWord::Passes)),
    ("closed", PullWord::Try(TryWord::Closed)),
    ("lost", PullWord::Try(TryWord::Lost)),
    ("stop", PullWord::Try(TryWord::Stop)),
    ("redirected", PullWord::Try(TryWord::Redirected)),
    ("blocks", PullWord::Try(TryWord::Blocks)),
    ("swap", PullWord::Try(TryWord::Swap)),
    ("reason", PullWord::Try(TryWord::Told(ToldWord::Reason))),
    ("over", PullWord::Try(TryWord::Told(ToldWord::Over))),
    ("reads", PullWord::Try(TryWord::Told(ToldWord::Reads))),
    ("redirect", PullWord::Try(TryWord::Told(ToldWord::Redirect))),
    ("account", PullWord::Try(TryWord::Told(ToldWord::Account))),
];

/// Returns what a word asks for.
pub fn word_named(word: &[u8]) -> Result<PullWord, Fault> {
    meaning(&WORDS, word).ok_or(Fault::UnknownWord)
}

/// Takes a side.
pub fn side_of(arguments: &mut Arguments<'_>) -> Result<Side, Fault> {
    const SIDES: [(&str, Side); 2] = [("source", Side::Source), ("target", Side::Target)];
    meaning(&SIDES, arguments.word().unwrap_or(b"")).ok_or(Fault::UnknownWord)
}
