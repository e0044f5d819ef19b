//! The command line of the relay: its commands with their options, and what they ask for.
#![tactic(auto)]

mod asked;
mod channels;
mod commands;
mod options;
mod pipe_options;
mod pull_line;
mod pull_options;
mod serve_options;
mod settings;
mod task;

pub use asked::{Asked, read_words};
pub use commands::VERSION;
pub use settings::{Endpoints, Origins, Passing, SendBuffer, Settings};
pub use task::{Task, exit_code, task_named};
