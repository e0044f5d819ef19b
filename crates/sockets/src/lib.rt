//! Sockets: what the threads of a connection share of one, what a listener is set to, and how a connection is closed. And the clock of
//! a server.
//!
//! Any thread may call these. There is no lock: what is noted of a socket is atomic.
#![tactic(auto)]

mod closing;
mod hang_up;
mod limits;
mod listening;
mod reading;
mod shared_socket;
mod socket;
mod steady_clock;

pub use closing::close_behind_text;
pub use hang_up::HangUp;
pub use listening::{limit_peers, set_send_buffer, stop_listening};
pub use reading::Reading;
pub use shared_socket::SharedSocket;
pub use socket::Socket;
pub use steady_clock::SteadyClock;
