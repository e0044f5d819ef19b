//! The server: it accepts connections, and has the threads that all of them share. What the thread of one connection does is in
//! `relay_connection`, what a peer may do in `admission`, and what is logged in `relay_log`.
#![tactic(auto)]

mod limits;
mod listen;

pub use admission::{Access, Gate, OpenGate};
pub use listen::accepts::Accepts;
pub use listen::options::Options;
pub use listen::server::run_server;
pub use listen::stopping::Stopping;
pub use relay_connection::{ClockMoments, SharedBook, shared_book};
pub use relay_fanout::{Maker, RingMaker, Seat};
pub use relay_log::Reports;
pub use sockets::{limit_peers, set_send_buffer, stop_listening};
