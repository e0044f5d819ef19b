//! One connection over any source and sink, with a book and rings of its own: its requests are answered, and what it
//! records is published.
#![tactic(auto)]

pub mod laws;
mod talk;
mod talker;

pub use talk::{Ended, TalkEnd, do_talk, run_talk, talk_end};
pub use talker::Talker;
