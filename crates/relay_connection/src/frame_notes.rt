//! What is noted of a publisher's frames as they come.
use crate::connection_clock::Watch;
use mount_signals::MountSignal;
use publisher::{Fate, FateObserver};
use std::alloc::Global;
use std::sync::{Arc, Wait};

/// Notes each frame of a recording connection: the connection was heard, and the frame's fate is in its mount's tally. While
/// a session records, nothing else sees a frame before the next message.
#[derive(Drop)]
pub(crate) struct FrameNotes<R> {
    pub(crate) rt: R,
    pub(crate) watch: Arc<Watch, Global>,
    pub(crate) signal: Arc<MountSignal, Global>,
}

impl<R: Wait> FateObserver for FrameNotes<R> {
    ghost use Rattle.std.specs.Prelude.{⊤};

    ghost observes = { λ _ _ _ _. ⊤ };

    fn observe(&mut self, fate: Fate, bytes: usize) {
        let heard = &self.watch.heard;
        heard.note();
        self.signal.note(&self.rt, fate, bytes, heard.now());
    }
}

/// The feed of a mount, with what is noted of the frames that are offered to it.
#[derive(Drop)]
pub(crate) struct Publishing<R, F> {
    pub(crate) feed: F,
    pub(crate) notes: FrameNotes<R>,
}
