//! How a connection ends: its last text, its hang-up in the book, and what ended it.
ghost use Rattle.std.specs.Prelude.{◌↔◌, IsSomeAnd, IsTrue};
ghost use Rattle.relay_fanout.specs.SeatHolds.{HasThread};

use crate::closing_reads::ClosingReads;
use crate::end_rules::{failure_of, has_last_text};
use crate::limited_waits::LimitedWaits;
use crate::limits::AFTER_TEXT;
use crate::serving::Connection;
use admission::Gate;
use interleaved::{Sink, Source};
use relay_accounts::{ConnectionEnd, end_by, end_of};
use relay_fanout::Maker;
use rtsp_message::Status;
use session_state::{Act, Moments, Words};
use sockets::HangUp;
use std::sync::Wait;
use std::thread::Threads;
use std::time::{Clock, Duration};

impl<R, M, V, G, W, H, N> Connection<R, M, V, G, W, H, N>
where
    R: Threads + Wait + Clock + Copy + Send + 'static,
    M: Maker + Drop,
    M::Out: 'static,
    V: Words + Drop,
    G: Gate + Drop,
    W: Sink + Drop + Send + 'static,
    H: HangUp + Drop + Send + Sync + 'static,
    N: Moments + Drop,
{
    /// Writes the fixed text that is the last of the connection: no frame comes after it, and neither a peer that reads
    /// nothing nor its frames are waited for longer than a moment each.
    pub(crate) fn write_last(&mut self, status: Status) {
        self.stop_frames(Duration::from_millis(AFTER_TEXT));
        let _ = self.detach();
        let limited = LimitedWaits::of(&self.player.shutdown);
        self.write_last_text(status, limited);
    }

    /// Whether a thread of its own sends its frames.
    fn has_frame_thread(&self) -> bool
        ensures { IsTrue result ↔ IsSomeAnd self.now.frames HasThread }
    {
        match &self.frames {
            Some(frames) => frames.has_thread(),
            None => false,
        }
    }

    /// Hangs up in the book, and does what is left to do. Returns how the connection ended, which may be by its frames. After
    /// a last text the peer is given a moment to read it.
    pub(crate) fn hang_up<S: Source>(
        &mut self,
        end: ConnectionEnd,
        source: &mut S,
    ) -> ConnectionEnd {
        let act = self.shared.book.lock(&self.rt).hangup(self.conn);
        self.forget_session();
        self.rights.leave_mount(&self.rt);
        let has_last_text = has_last_text(self.is_stranded, end);
        let was_sent_frames = self.frames.is_some();
        self.player.phase.stop(&self.rt);
        // A frame thread may wait for a peer that stops reading; a writer waits for none, and mustn't find it disconnected.
        if !has_last_text && self.has_frame_thread() {
            self.player.shutdown.hang_up();
        }
        let sent = self.detach();
        self.settle_seat();
        if !has_last_text {
            self.player.shutdown.hang_up();
        }
        // It may have ended with its session before.
        if act == Act::End || end == ConnectionEnd::Expired {
            self.end_mount();
        }
        if has_last_text {
            ClosingReads::of(self.clock.watch()).close_behind(&self.player.shutdown, source);
        }
        let failure = failure_of(self.player.shutdown.failure(), was_sent_frames);
        end_by(end_of(end, sent, self.is_over), failure)
    }
}
