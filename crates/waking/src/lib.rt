//! When a writer may sleep, and who wakes it: what it knows of a player and of its sweep, how the words change that it and
//! others wake each other by, and the laws of the machine of their steps.
#![tactic(auto)]

mod attention;
mod ending;
mod laws;
mod look;
mod looking;
mod phase;
mod player_state;
mod quiet;
mod sweep;
mod word;

pub use attention::Attention;
pub use ending::{Answer, Ending, Failure};
pub use laws::no_player_is_forgotten;
pub use look::{After, Course, Flushed, Found};
pub use phase::Phase;
pub use player_state::PlayerState;
pub use quiet::Quiet;
pub use sweep::{Next, Sweep};
pub use word::{NO_MARKS, are_marks, next_word};
