//! The log lines of a server: their text, the queue that they wait in, how many of a kind are written, and what is known of mounts,
//! players and refused peers for them. The book isn't asked, and no thread is started here.
#![tactic(auto)]

mod backlog;
mod counted;
mod due;
mod end_kinds;
mod ends;
mod events;
mod limits;
mod line_rate;
mod line_rates;
mod lines;
mod published;
mod refusal_row;
mod refused_line;
mod refused_requests;
mod refusing;
mod reports;
mod sooner;
mod starting;
mod subject;
mod tallies;
mod tally;
mod teller;

pub use backlog::{Backlog, Waiting};
pub use due::Due;
pub use ends::{tell_end, tell_last_account};
pub use events::Events;
pub use line_rate::LineRate;
pub use line_rates::LineRates;
pub use lines::Lines;
pub use published::PublishedMounts;
pub use refusal_row::RefusalRow;
pub use refused_line::RefusedLine;
pub use refusing::Refusing;
pub use reports::Reports;
pub use server_counts::Refusal;
pub use starting::tell_not_started;
pub use subject::Subject;
pub use tally::Tally;
pub use teller::Teller;
