//! Frames of the source.
ghost use Rattle.std.specs.Prelude.{◌≡◌, ◌⊎◌};
ghost use Rattle.pull_session.specs.Passing.{CountsFrame, LosesFrame, TakesFrame, pass_state};

use crate::reason::Reason;
use crate::session::PullSession;
use interleaved::Frame;
use rtsp_client::{FrameFate, Side};

impl PullSession {
    /// A frame of the source comes at this moment. If it goes on, it waits for the target.
    pub(crate) fn take_frame(&mut self, frame: &Frame, now: u64)
        ensures taken { TakesFrame frame.now now (pass_state self.old) (pass_state self.new) ⊎ LosesFrame frame.now now (pass_state self.old) (pass_state self.new) }
        ensures source { self.new.source ≡ self.old.source }
        ensures target { self.new.target ≡ record self.old.target { waiting = self.new.target.waiting } }
        ensures mount { self.new.mount ≡ self.old.mount }
    {
        let payload = frame.payload.as_slice();
        match self.count_frame(frame) {
            FrameFate::Waits { channel } => {
                self.watch.hears(now);
                let put = self.target_line.waiting.put_frame(channel, payload);
                if put.is_err() {
                    self.fail(Reason::OutOfMemory, Side::Target);
                }
            }
            FrameFate::UnknownChannel => {}
            FrameFate::BeforeRecording => {}
            FrameFate::Unsent => {}
        }
    }

    /// Counts the frame and returns what becomes of it.
    fn count_frame(&mut self, frame: &Frame) -> FrameFate
        ensures counts { CountsFrame frame.now result self.old.client self.new.client.passage }
        ensures others { self.new.client ≡ record self.old.client { passage = self.new.client.passage } }
        ensures watch { self.new.watch ≡ self.old.watch }
        ensures source { self.new.source ≡ self.old.source }
        ensures target { self.new.target ≡ self.old.target }
        ensures mount { self.new.mount ≡ self.old.mount }
    {
        self.client.frame(frame.channel, frame.payload.as_slice())
    }
}
