//! The command `steps`: a ring's script and schedule are read, run step by step, and told.
#![tactic(auto)]

mod call_line;
mod draft;
mod ends;
mod first_line;
mod item;
pub mod laws;
mod line;
mod parts;
mod plan;
mod plan_reading;
mod printing;
mod read_all;
mod read_line;
mod running;
mod script;
mod seat_table;

pub use call_line::CallLine;
pub use ends::{StepsEnd, steps_end};
pub use item::read_actor;
pub use plan::{Plan, PlanFault};
pub use running::{run_steps, run_steps_out};
