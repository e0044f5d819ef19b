//! How the frames of a player stop, and its seat is given back.
use crate::accounting::SeatLeft;
use crate::limits::STALLED;
use crate::serving::Connection;
use admission::Gate;
use interleaved::Sink;
use relay_accounts::{ConnectionEnd, FrameEnd, Handover};
use relay_fanout::{Maker, Seat, SeatHold, SentFrames, TapPlace};
use session_state::{Moments, Words};
use sockets::HangUp;
use std::sync::Wait;
use std::thread::Threads;
use std::time::{Clock, Duration};

impl<R, M, V, G, W, H, N> Connection<R, M, V, G, W, H, N>
where
    R: Threads + Wait + Clock + Copy + Send + 'static,
    M: Maker + Drop,
    M::Out: 'static,
    V: Words + Drop,
    G: Gate + Drop,
    W: Sink + Drop + Send + 'static,
    H: HangUp + Drop + Send + Sync + 'static,
    N: Moments + Drop,
{
    /// Stops the frames and gives the seat back, so that the reply can be written.
    pub(crate) fn stop_playing(&mut self) -> Result<(), ConnectionEnd> {
        self.stop_frames(Duration::from_millis(STALLED));
        match self.detach() {
            // The frame thread has closed the connection: no reply can be written any more.
            FrameEnd::OutOfMemory => Err(ConnectionEnd::OutOfMemory),
            FrameEnd::Stopped | FrameEnd::Ended | FrameEnd::WriteFailed => Ok(()),
        }
    }

    /// Requests the frame thread to stop, and closes the connection if it hasn't ended within `most`: the peer stopped reading.
    pub(crate) fn stop_frames(&self, most: Duration) {
        let Some(frames) = &self.frames else {
            return;
        };
        if !frames.has_thread() {
            return;
        }
        self.player.phase.stop(&self.rt);
        frames.signal.wake();
        if !self.player.phase.wait_for_end(&self.rt, most) {
            self.player.shutdown.hang_up();
        }
    }

    /// Stops the frames, detaches and gives the seat back. Returns how the frames ended.
    pub(crate) fn detach(&mut self) -> FrameEnd {
        let Some(mut frames) = self.frames.take() else {
            return FrameEnd::Stopped;
        };
        if frames.has_thread() {
            self.player.phase.stop(&self.rt);
            frames.signal.wake();
        }
        let SentFrames { end, handover, .. } = frames.join(
            &self.rt,
            &self.player,
            self.writers.as_deref(),
        );
        self.is_over = end == FrameEnd::Ended && self.shared.after_end.is_some();
        match self.player.take(&self.rt) {
            TapPlace::Attached(tap) => self.give_back(tap, frames, handover),
            // The mount has ended: its seats have no owner any more.
            TapPlace::Left(left) => {
                self.leave_seat(frames.seat(), left, handover);
            }
            TapPlace::Nowhere => {}
        }
        end
    }

    /// Detaches a tap, and gives its seat back to the book.
    fn give_back(&mut self, tap: M::Out, frames: SeatHold, handover: Handover) {
        let (pass, left) = self.shared.maker.detach(tap);
        let (mount, seat, signal) = frames.into_seat();
        let gone = self.leave_seat(seat, left, handover);
        let returned = self.give_back_to_book(mount, seat, Seat { pass, signal }, gone);
        // If the mount has ended its ring may be freed with it.
        drop(returned);
    }

    /// Gives a seat back under the book's lock, which is free when this returns. A seat of a mount that has ended comes back, and is
    /// dropped without the lock.
    fn give_back_to_book(
        &self,
        mount: u64,
        seat: usize,
        taken: Seat<M::Pass>,
        _gone: SeatLeft,
    ) -> Option<Seat<M::Pass>> {
        self.shared
            .book
            .lock(&self.rt)
            .give_back(mount, seat, taken)
    }
}
