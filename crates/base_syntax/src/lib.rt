//! The syntax that all texts of RTSP 1.0 share (RFC 2326, 15.1; RFC 2068, 2.1 and 2.2): bytes and lists that contracts
//! see as lists, lines, blanks, decimal numbers, names without regard to case, and cutting at a separator.
#![tactic(auto)]

mod blanks;
mod cutting;
mod items;
pub mod laws;
mod lines;
mod names;
mod numbers;
mod quotes;

pub use blanks::{trim, trim_end};
pub use cutting::cut;
pub use items::{Bytes, Items};
pub use lines::{first_line, without_cr};
pub use names::is_same_name;
pub use numbers::{is_numeral, read_number};
pub use quotes::cut_unquoted;
