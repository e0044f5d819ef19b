//! What comes in between a connection's requests.
ghost use Rattle.std.specs.Prelude.{◌≡◌, true, None, IfSome, IfNone, IsSomeAnd, option_map};
ghost use Rattle.pacing.specs.Retrying.{PublishesAtLast};
ghost use Rattle.relay_accounts.specs.Incoming.{DropsFrames, PublishesFrames};

use crate::frame_notes::Publishing;
use crate::serving::Connection;
use admission::Gate;
use interleaved::{Sink, Source};
use publisher::InStop;
use relay_accounts::{publish_frames, skip_frames};
use relay_fanout::Maker;
use rtsp_message::Intake;
use session_state::{Moments, Words};
use sockets::HangUp;
use std::sync::Wait;
use std::thread::Threads;
use std::time::Clock;

impl<R, M, V, G, W, H, N> Connection<R, M, V, G, W, H, N>
where
    R: Threads + Wait + Clock + Copy + Send + 'static,
    M: Maker + Drop,
    M::Out: 'static,
    V: Words + Drop,
    G: Gate + Drop,
    W: Sink + Drop + Send + 'static,
    H: HangUp + Drop + Send + Sync + 'static,
    N: Moments + Drop,
{
    /// Returns the next request. Frames before it are published if the session records and there is a feed. If not, they are
    /// dropped and counted as strangers. Only the feed and the counts of the connection change.
    pub(crate) fn next_message<S: Source + Drop>(&mut self, intake: &mut Intake<S>) -> InStop
        ensures published { IfSome self.old.session (λ session. session.is_recording ≡ true → IfSome self.old.publishing (λ p. PublishesFrames S.incoming S.failed (PublishesAtLast M.In.publish_gives) (λ f. M.In.told f.feed) session.channels (M.In.packet_bytes p.feed.feed) M.In.may_refuse intake.old intake.new p.feed (option_map (λ q. q.feed) self.new.publishing) self.old.counts self.new.counts result)) }
        ensures dropped { (IsSomeAnd self.old.session (λ session. session.is_recording ≡ true) → ⊥) → (self.new.publishing ≡ self.old.publishing) × DropsFrames S.incoming S.failed intake.old intake.new self.old.counts self.new.counts result }
        ensures no_feed { IfNone self.old.publishing ((self.new.publishing ≡ None) × DropsFrames S.incoming S.failed intake.old intake.new self.old.counts self.new.counts result) }
        ensures same { self.new ≡ record self.old { publishing = self.new.publishing; counts = self.new.counts } }
    {
        match (&mut self.publishing, &self.session) {
            (Some(publishing), Some(session)) if session.is_recording => {
                let Publishing { feed, notes } = publishing;
                let report = publish_frames(intake, feed, &session.channels, notes);
                self.counts.add_in(&report);
                report.stop
            }
            _ => skip_frames(intake, &mut self.counts, &self.clock.watch().heard),
        }
    }
}
