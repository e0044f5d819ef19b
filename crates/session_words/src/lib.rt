//! The words in session identifiers: fixed, drawn from a generator, or read from a command line.
#![tactic(auto)]

mod words;

pub use words::{DrawnWords, FixedWord, NoWords, WordSource, read_word, word_source};
