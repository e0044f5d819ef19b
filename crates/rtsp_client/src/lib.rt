//! What decides in a client of RTSP servers (RFC 2326): what it asks for, what each reply means for it, when it asks again, and what
//! becomes of the frames that come. [`Client`] is all of it as one value. It has no socket, no thread and no clock.
#![tactic(auto)]

mod ask;
mod asked;
mod asking;
mod awaits;
mod client;
mod connection;
mod end;
mod frame_account;
mod frame_map;
mod frames;
mod keepalive;
pub mod laws;
mod limits;
mod opened;
mod passage;
mod progress;
mod public;
mod redirects;
mod replies;
mod reply_channels;
mod reply_facts;
mod requests;
mod setting_up;
mod status_class;
mod step;
mod stopping;
mod ticks;
mod told;
mod turn;
mod verdict;

pub use ask::{Ask, Method};
pub use asked::{Asked, Late, Side};
pub use client::Client;
pub use end::End;
pub use frame_account::{FrameAccount, FrameFate};
pub use frame_map::FrameMap;
pub use keepalive::{Keepalive, KeepaliveMethod};
pub use opened::{Opened, SessionFault};
pub use progress::{Progress, TracksFault};
pub use public::has_method;
pub use redirects::Redirects;
pub use reply_channels::{ChannelFault, ReplyChannels};
pub use reply_facts::{ReplyFacts, ReplyHeaders};
pub use requests::{Outstanding, Reply, Requests};
pub use status_class::StatusClass;
pub use step::Step;
pub use turn::Turn;
pub use verdict::Verdict;
