//! The book: what has happened in a server, entry by entry, and the passes of the seats that are free.
#![tactic(auto)]

mod answer;
mod book;
mod chronicle;
mod copies;
mod entries;
mod passes;
mod spares;

pub use answer::{Answer, AskFault, NoMemory};
pub use book::Book;
pub use copies::Copies;
pub use entries::Retired;
pub use passes::Passes;
pub use spares::MountPasses;
