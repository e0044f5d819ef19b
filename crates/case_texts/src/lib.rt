//! Cases that are written as a text: reading them, running them over what a program offers, and comparing what comes out with what is
//! expected. `README.md` says how a text is written.
#![tactic(auto)]

mod arguments;
mod cases;
mod comparing;
mod escapes;
mod fault;
mod lines;
mod parts;
mod program;
mod running;
mod step;
mod suite;
mod tally;
mod told;
mod words;

pub use arguments::{Arguments, byte_of, short_of};
pub use escapes::resolved;
pub use fault::Fault;
pub use program::{exit_code, read_input, tell};
pub use running::{Outcome, outcome_of};
pub use step::Input;
pub use suite::{Kind, Suite};
pub use told::Told;
pub use words::meaning;
