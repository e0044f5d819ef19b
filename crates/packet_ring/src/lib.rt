//! The running ring over one block of raw memory.
#![tactic(auto)]

mod allocated;
mod block;
mod head;
mod known_logs;
pub mod laws;
mod learning;
mod opening;
mod packets;
mod passes;
mod places;
mod publishers;
mod publishing;
mod reached;
mod receipts;
mod sending;
mod slots;
mod subscribers;
mod taking;
mod unpinned;
mod words;

pub use known_logs::KnownLog;
pub use opening::new;
pub use passes::Pass;
pub use publishers::Publisher;
pub use receipts::Receipt;
pub use subscribers::Subscriber;
pub use unpinned::Unpinned;
