//! One connection, from its coming to its hang-up, on the thread that reads it.
//!
//! Each connection has such a thread, which `relay_server` starts by `run_connection`. It answers one request after another, publishes
//! the frames between them, and hands its player to a writer or starts a frame thread. It takes the lock of the book for one call,
//! with a look at the session, and takes no other lock meanwhile. The locks of the words, the offers, the recording mounts, the
//! peers and the log lines it takes one at a time, each for one look or one change. No lock is held while it reads, or waits for its
//! frames to end. Its writing side alone is locked while it writes, by `relay_fanout`.
#![tactic(auto)]

mod accounting;
mod act_done;
mod asked;
mod asking;
mod barring;
mod carrying_out;
mod clock_moments;
mod closing_reads;
mod connection_clock;
mod end_rules;
mod expiring;
mod frame_notes;
mod giving_back;
mod hanging_up;
mod idle_policy;
mod idle_reader;
mod incoming;
mod limited_waits;
mod limits;
mod outgoing;
mod replying;
mod running;
mod server_book;
mod serving;
mod session_snapshot;
mod shared;

pub use clock_moments::ClockMoments;
pub use connection_clock::ConnectionClock;
pub use idle_policy::IdlePolicy;
pub use idle_reader::IdleReader;
pub use outgoing::Outgoing;
pub use running::run_connection;
pub use server_book::{SharedBook, let_in, shared_book};
pub use shared::Shared;
