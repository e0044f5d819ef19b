//! Which thread of a server that serves many hasn't looked for something to do for over two seconds, by the marks that such threads
//! leave. Pure values: no clock, no thread, no socket.
#![tactic(auto)]

mod health;
mod raised;
mod text;

pub use health::{Health, SeenThread};
pub use raised::RaisedSince;
pub use text::late_text;
