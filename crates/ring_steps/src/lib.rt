//! The ring's core as a machine of single atomic steps: its words, cells and views, the step, the
//! invariant that each step keeps, and the runs of a script over any schedule, whose events are a legal
//! history of the broadcast log.
#![tactic(auto)]

pub mod bit_laws;
mod buffers;
mod calls;
mod checking;
mod config;
mod fault;
pub mod laws;
mod machine;
mod made;
mod making;
mod progress;
mod publishing;
mod ring;
pub mod run_laws;
mod running_out;
mod runs;
mod script;
mod steps;
mod trace;
mod tracing;
mod views;
mod words;

pub use base_syntax::Bytes;
pub use calls::{Actor, Observed, PublisherCall, SeatCall, Stepped};
pub use config::Config;
pub use fault::StepFault;
pub use ring::Ring;
pub use running_out::run_out;
pub use runs::run;
pub use script::{Script, SeatCalls};
pub use trace::{Trace, TraceEvent, TraceStep};
pub use views::{Publisher, PublisherPhase, Seat, SeatPhase};
pub use words::{Head, Slot, Word};
