//! The command `relay pull`: a stream is fetched from an RTSP server and announced to a relay, try after try. What decides in a try is in
//! `pull_session`, and what decides between tries in `pull_plan`; here are sockets, one thread that waits on both, and log lines.
#![tactic(auto)]

mod connecting;
mod ended;
mod helpers;
mod limits;
mod line;
mod password_file;
mod plan;
mod program;
mod pulling;
mod readiness;
mod station;
mod stopping;
mod tries;
mod try_end;
mod try_sockets;
mod trying;
mod turn;
mod url_line;
mod wires;

pub use ended::Ended;
pub use line::{Line, Track, Tracks};
pub use password_file::{Beginning, PasswordFiles};
pub use plan::Plan;
pub use pulling::pull;
pub use station::Station;
pub use tries::run_tries;
pub use try_end::TryEnd;
pub use url_line::{UrlLine, read_urls};
pub use wires::{Moved, Wires};
