//! The text of `/status.json`, as a function of a snapshot: no socket, no lock, no clock (JSON, RFC 8259).
#![tactic(auto)]

mod counts;
mod key;
mod lists;
mod objects;
mod serving;
mod status_text;
mod tracks;
mod values;

pub use status_text::put_status;
