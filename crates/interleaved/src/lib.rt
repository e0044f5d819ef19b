//! The two lowest layers of an RTSP connection: the devices that its bytes come from and go to, and
//! the blocks of binary data that stand interleaved with its messages (RFC 2326, 10.12).
#![tactic(auto)]

mod device;
mod frame;
mod gathering;
mod laws;
mod list_sink;
mod list_source;
mod payload;
mod reading;
mod whole_write;
mod writing;

pub use device::{Failed, Sink, Source, TrySink};
pub use frame::{FRAME_HEAD, Frame, FrameAt, PutFault, frame_at, frame_head, frame_len, put_frame};
pub use gathering::Gathering;
pub use laws::no_frame_begins_another;
pub use list_sink::ListSink;
pub use list_source::ListSource;
pub use payload::Payload;
pub use reading::Reading;
pub use whole_write::{WriteCut, write_all};
pub use writing::{TryWrite, Writing};
