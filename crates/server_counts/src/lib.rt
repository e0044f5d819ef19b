//! What a server counts of its connections, its sessions and what it refuses, and the marks that its threads leave, for metrics. Any
//! thread counts without a lock, and any thread reads.
#![tactic(auto)]

mod counts;
mod figures;
mod refusal;
mod session_role;
mod statuses;
mod thread_mark;

pub use counts::ServerCounts;
pub use figures::{RefusedConnections, RequestCount, ServerFigures, SessionFigures};
pub use refusal::Refusal;
pub use session_role::SessionRole;
pub use thread_mark::{Mark, ServerThread, ThreadLook, ThreadMark};
