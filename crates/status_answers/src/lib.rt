//! What a status listener answers by HTTP/1.1: which page to which request, and with which header fields (RFC 9110). It has no socket,
//! no clock and no lock.
#![tactic(auto)]

mod answers;
mod asked;
mod page;

pub use answers::Answers;
pub use asked::Asked;
pub use page::{LOADS_NOTHING, Page, Pages, Text};
