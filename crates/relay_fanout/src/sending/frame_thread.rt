//! A thread of its own that sends a connection's frames.
ghost use Rattle.std.specs.Prelude.{◌≡◌};
ghost use Rattle.cursor.specs.Account.{cursor_of};
ghost use Rattle.relay_accounts.specs.Handing.{handed_by};
ghost use Rattle.relay_fanout.specs.Ways.{HasRoom};

use crate::mount::leave::Leave;
use crate::sending::send_side::SendSide;
use crate::sending::sent_frames::SentFrames;
use crate::sending::tap_place::TapPlace;
use crate::sending::way::Way;
use crate::sending::writer_buffers::frames_buffer;
use cursor::Lend;
use interleaved::Sink;
use mount_signals::{KnownLevel, MountSignal, Stand};
use player::OutStop;
use relay_accounts::{FrameEnd, HandedOver, Handover};
use sockets::HangUp;
use std::alloc::Global;
use std::sync::{Arc, Wait};
use std::time::{Clock, Duration};
use transport_header::TrackChannels;

/// What a frame thread is given.
#[derive(Drop)]
pub(crate) struct Sending {
    pub(crate) signal: Arc<MountSignal, Global>,
    pub(crate) seat: usize,
    pub(crate) channels: TrackChannels,
    /// For how long the connection may stay open after its mount has ended. `None` for ever.
    pub(crate) after_end: Option<Duration>,
    /// Whether packets are written from where they lie in the ring.
    pub(crate) is_direct: bool,
}

impl<T: Lend + Leave + Drop, W: Sink + Drop, H: HangUp + Drop> SendSide<T, W, H> {
    /// Sends what the tap gives until a stop is requested, the mount has ended or the connection fails. Returns how the frames
    /// ended.
    pub(crate) fn send<R: Wait + Clock>(
        &self,
        rt: &R,
        alloc: Global,
        sending: &Sending,
    ) -> SentFrames {
        let Sending {
            signal,
            seat,
            after_end,
            ..
        } = sending;
        let mut handover = Handover::new();
        let mut known = signal.pace.join(rt, *seat);
        let end = match &mut self.seat.lock(rt).tap {
            TapPlace::Attached(tap) => {
                self.send_all(rt, alloc, tap, sending, &mut known, &mut handover)
            }
            _ => FrameEnd::Stopped,
        };
        let left = signal.pace.leave(rt, *seat);
        if end == FrameEnd::Ended {
            self.seat.lock(rt).tap.leave();
        }
        let end = if self.phase.is_running(rt) {
            self.end_connection(rt, end, *after_end);
            end
        } else {
            FrameEnd::Stopped
        };
        SentFrames::of_thread(end, handover, self.phase.end(rt), left)
    }

    /// Disconnects the player if the frames ended by themselves, so that the thread that reads sees it. At the end of the mount
    /// the connection stays open if `after_end` is `None`. Else the end of the stream is sent, and the player is disconnected
    /// after that time; a stop ends the wait.
    fn end_connection<R: Wait + Clock>(&self, rt: &R, end: FrameEnd, after_end: Option<Duration>) {
        if end == FrameEnd::Ended {
            let Some(most) = after_end else {
                return;
            };
            self.writing.close_writes(rt, &self.shutdown);
            if self.phase.wait_for_stop(rt, most) {
                return;
            }
        }
        self.shutdown.hang_up();
    }

    fn send_all(
        &self,
        rt: &impl Wait,
        alloc: Global,
        tap: &mut T,
        sending: &Sending,
        known: &mut KnownLevel,
        handover: &mut Handover,
    ) -> FrameEnd {
        let Ok(mut way) = Way::new(alloc, sending.is_direct, tap.packet_bytes()) else {
            return FrameEnd::OutOfMemory;
        };
        // Without memory for it each frame is written by itself.
        let mut frames = match frames_buffer(alloc, tap.packet_bytes()) {
            Ok(frames) => frames,
            Err(_) => Vec::new(alloc),
        };
        self.writing.swap_buffer(rt, &mut frames);
        let end = self.send_from(rt, tap, sending, known, &mut way, handover);
        self.writing.swap_buffer(rt, &mut frames);
        end
    }

    fn send_from(
        &self,
        rt: &impl Wait,
        tap: &mut T,
        sending: &Sending,
        known: &mut KnownLevel,
        way: &mut Way,
        handover: &mut Handover,
    ) -> FrameEnd
        requires { HasRoom way.old (T.packet_bytes tap.old) }
    {
        let signal: &MountSignal = &sending.signal;
        for _ in rt.forever() {
            let wakeups = signal.player_wakeups();
            if !self.phase.is_running(rt) {
                return wakeups.end(FrameEnd::Stopped);
            }
            let stop = self
                .writing
                .relay(rt, tap, &sending.channels, way, handover);
            let stand = stand_of(tap, handover);
            match stop {
                OutStop::Done => {
                    wakeups.go_on();
                    signal.reach(rt, sending.seat, stand, known);
                }
                OutStop::Empty => {
                    let told = wakeups.tell_level(rt, signal, sending.seat, stand, known);
                    signal.sleep(rt, told);
                }
                OutStop::Ended => {
                    signal.stand(sending.seat, stand);
                    return wakeups.end(FrameEnd::Ended);
                }
                OutStop::WriteFailed => return wakeups.end(FrameEnd::WriteFailed),
            }
        }
        unreachable!()
    }
}

/// Returns the position of a player after a batch. All frames before the batch were taken, and the batch too unless a write failed.
fn stand_of<T: Lend>(tap: &T, handover: &Handover) -> Stand
    ensures { result ≡ record { cursor = cursor_of (T.account tap.now); sent = (handed_by handover.now 0).sent; bytes = (handed_by handover.now 0).bytes; skipped = (handed_by handover.now 0).skipped; lost = (T.account tap.now).lost } }
{
    let HandedOver {
        sent,
        skipped,
        bytes,
    } = handover.handed(0);
    Stand {
        cursor: tap.cursor(),
        sent,
        bytes,
        skipped,
        lost: tap.account().lost,
    }
}
