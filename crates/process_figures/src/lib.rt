//! Figures of a process, from what Linux has of it in `/proc` (proc(5)): bytes in, numbers out. It reads no file.
#![tactic(auto)]

mod figures;
pub mod laws;
mod limits;
mod lines;
mod numbers;
mod stat;

pub use figures::{ProcFiles, ProcessFigures};
