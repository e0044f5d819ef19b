//! The broadcast log that a relay is measured against: its packets, the seats that read them, and
//! the traits by which packets go in and come out.
#![tactic(auto)]

mod calls;
mod copies;
mod feeds;
mod histories;
pub mod laws;
mod lends;
mod list_tap;
mod packets;
mod plain_feed;
mod plain_log;
mod plain_tap;
mod pumping;
mod refusals;
mod takes;
mod taps;
mod visits;

pub use calls::{Answer, Call};
pub use copies::Copying;
pub use feeds::Feed;
pub use histories::run;
pub use lends::Lend;
pub use list_tap::ListTap;
pub use packets::Packet;
pub use plain_feed::PlainFeed;
pub use plain_log::PlainLog;
pub use plain_tap::PlainTap;
pub use pumping::{Stopped, pump};
pub use refusals::Refused;
pub use takes::{Account, Delivery, Left, Taken};
pub use taps::Tap;
pub use visits::Visit;
