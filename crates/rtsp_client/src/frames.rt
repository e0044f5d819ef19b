//! The frames of a client.
ghost use Rattle.std.specs.Prelude.{◌≡◌, true, false};
ghost use Rattle.rtsp_client.specs.Accounts.{with_frame};
ghost use Rattle.rtsp_client.specs.FrameMaps.{IsFateOf};
ghost use Rattle.rtsp_client.specs.Passages.{IsCounted, IsRtcpOn, is_dropped};
ghost use Rattle.rtsp_client.specs.Sending.{after_cut, after_sent, is_over};
ghost use Rattle.sequence_counts.specs.Header.{HasFixedHeader};
ghost use Rattle.rtsp_client.specs.Steps.{is_recording};

use crate::client::Client;
use crate::frame_account::FrameFate;

impl Client {
    /// A frame comes on a channel of the source, with this payload (RFC 2326, 10.12). Returns what becomes of it: it is to be sent on a channel
    /// of the target, or dropped. It is counted once. What is asked for, or waits for a reply, changes nothing of that. Once the client stops or
    /// has ended, none is sent.
    pub fn frame(&mut self, channel: u8, payload: &[u8]) -> FrameFate
        ensures fate { IsFateOf self.old.passage.map.source self.old.passage.map.target channel (is_recording self.old.place.step) (is_over self.old) result }
        ensures account { self.new.passage.account ≡ with_frame self.old.passage.account result }
        ensures counted { is_dropped result ≡ false
            → IsCounted self.old.passage.map.source channel payload.now self.old.passage.counts self.new.passage.counts }
        ensures rtcp { IsRtcpOn self.old.passage.map.source channel → self.new.passage.counts ≡ self.old.passage.counts }
        ensures no_packet { (HasFixedHeader payload.now → ⊥) → self.new.passage.counts ≡ self.old.passage.counts }
        ensures dropped { is_dropped result ≡ true → self.new.passage.counts ≡ self.old.passage.counts }
        ensures map { self.new.passage.map ≡ self.old.passage.map }
        ensures tracks { self.new.passage.tracks ≡ self.old.passage.tracks }
        ensures others { self.new ≡ record self.old { passage = self.new.passage } }
    {
        let is_recording = self.progress.is_recording();
        let is_over = self.is_stopping || self.end.is_some();
        self.passage.comes(channel, payload, is_recording, is_over)
    }

    /// The source's stream ends within a frame: it came, and isn't sent.
    pub fn cut_frame(&mut self)
        ensures { self.new ≡ after_cut self.old }
    {
        self.passage.is_cut();
    }

    /// The target's system has taken so many of the frames that wait, at most all, at this moment in milliseconds. That keeps the target's
    /// session alive if it is some.
    pub fn sent(&mut self, frames: u64, now: u64)
        ensures { self.new ≡ after_sent frames now self.old }
    {
        let some = frames > 0 && self.passage.account.unsent() > 0;
        self.passage.sends(frames);
        if some {
            self.target.sends(now);
        }
    }
}
