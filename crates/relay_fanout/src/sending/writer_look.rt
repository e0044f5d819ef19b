//! A writer's look at one of its players.
ghost use Rattle.std.specs.Prelude.{◌≡◌, ◌<◌, OnOk, OnErr};
ghost use Rattle.waking.specs.declared.look.Flushed.TheVariants as flushed;

use crate::mount::leave::Leave;
use crate::sending::batch::Line;
use crate::sending::gather::gather;
use crate::sending::line_done::LineDone;
use crate::sending::ring_look::{LineHeld, Looked, unless_quiet};
use crate::sending::send_side::{SeatTap, SendSide};
use crate::sending::tap_place::TapPlace;
use crate::sending::waits::Waits;
use crate::sending::writer_buffers::WriterBuffers;
use crate::sending::writer_player::WriterPlayer;
use crate::sending::writing_side::WritingSide;
use cursor::Tap;
use interleaved::{Failed, TrySink};
use mount_signals::Stand;
use player::OutStop;
use relay_accounts::HandedOver;
use sockets::{HangUp, Reading};
use std::sync::Wait;
use waking::{Answer, Course, Failure, Flushed, Next, Quiet};

impl<T: Tap + Leave + Drop, W: TrySink + Drop, H: HangUp + Drop> SendSide<T, W, H> {
    /// Makes a writer's look at the player of this number, and does nothing if a later player is in its place. While the thread that reads
    /// puts the player in or takes it out, the look is retried after a moment. Returns what is next, and for how long it is quiet.
    pub(crate) fn look(
        &self,
        rt: &impl Wait,
        number: u64,
        buffers: &mut WriterBuffers,
        now: Reading,
        waits: Waits,
    ) -> (Next, Option<Quiet>) {
        let Some(mut seat) = self.seat.try_lock() else {
            return (Next::Later(1), None);
        };
        let SeatTap { tap, player } = &mut *seat;
        match player {
            Some(player) => {
                if player.number() == number {
                    let next = player.look(
                        rt,
                        tap,
                        &self.writing,
                        &self.shutdown,
                        buffers,
                        now,
                        waits,
                    );
                    (next, player.state.quiet())
                } else {
                    (Next::Sleep, None)
                }
            }
            None => (Next::Sleep, None),
        }
    }
}

impl WriterPlayer {
    /// Sends what there is to send and the socket takes, without waiting for anything: the rest of an earlier look, and then
    /// the frames of up to sixteen takes.
    pub(crate) fn look<T: Tap + Leave + Drop, W: TrySink + Drop, H: HangUp>(
        &mut self,
        rt: &impl Wait,
        tap: &mut TapPlace<T>,
        writing: &WritingSide<W>,
        shutdown: &H,
        buffers: &mut WriterBuffers,
        now: Reading,
        waits: Waits,
    ) -> Next {
        let read = self.signal.player_wakeups();
        let wakeups = match unless_quiet(read, &self.state, now) {
            Ok(wakeups) => wakeups,
            Err(next) => return next,
        };
        let (mut sink, held) = match LineHeld::try_line(wakeups, writing) {
            Ok(held) => held,
            Err(skipped) => return skipped.next(&mut self.state),
        };
        let (flushed, moved) = try_rest(&mut sink);
        let moment = now.milliseconds();
        let has_ended = self.signal.has_ended();
        let looked = match self.state.flushed(flushed, has_ended, moment, waits.end) {
            Course::Take => self.take(rt, tap, &mut sink, buffers, held),
            Course::ComeBack => {
                self.come_back(rt);
                self.take(rt, tap, &mut sink, buffers, held)
            }
            Course::Pass(answer) => held.answered(answer),
        };
        let found = looked.found(sink.len() > 0, moved, self.known.was_level());
        let after = self.state.looked(found, moment, now.is_read, waits.stall);
        let done = LineDone::after_look(sink, shutdown, after);
        self.carry_out(rt, tap, done)
    }

    /// Gathers the frames of up to sixteen takes, as many as leave in one write, and writes what the socket takes at once. Returns
    /// what the ring answered.
    fn take<T: Tap + Leave + Drop, W: TrySink + Drop>(
        &mut self,
        rt: &impl Wait,
        tap: &mut TapPlace<T>,
        sink: &mut Line<W>,
        buffers: &mut WriterBuffers,
        held: LineHeld,
    ) -> Looked {
        let TapPlace::Attached(tap) = tap else {
            return held.answered(Answer::Failed(Failure::NoTap));
        };
        if buffers.fit(tap.packet_bytes()).is_err() {
            return held.answered(Answer::Failed(Failure::OutOfMemory));
        }
        let lent = buffers.lend(sink);
        let packet = buffers.packet.as_mut_slice();
        let stop = gather(tap, sink, &self.channels, packet, &mut self.handover);
        let (cursor, lost) = (tap.cursor(), tap.account().lost);
        let flushed = sink.try_flush();
        if flushed.is_err() {
            sink.clear();
        }
        let taken_back = buffers.take_back(lent, sink);
        if flushed.is_err() {
            return held.answered(Answer::Failed(Failure::WriteFailed));
        }
        if taken_back.is_err() {
            return held.answered(Answer::Failed(Failure::OutOfMemory));
        }
        let HandedOver {
            sent,
            skipped,
            bytes,
        } = self.handover.handed(sink.inner().taken());
        let stand = Stand {
            cursor,
            sent,
            bytes,
            skipped,
            lost,
        };
        match stop {
            OutStop::Done => {
                self.signal.reach(rt, self.seat, stand, &mut self.known);
                held.answered(Answer::More)
            }
            OutStop::Empty => held.tell_level(rt, &self.signal, self.seat, stand, &mut self.known),
            OutStop::Ended => {
                self.signal.stand(self.seat, stand);
                held.answered(Answer::Ended)
            }
            OutStop::WriteFailed => held.answered(Answer::Failed(Failure::WriteFailed)),
        }
    }
}

/// Writes what the socket takes at once of the bytes that wait. Returns what became of them, and whether some moved.
fn try_rest<W: TrySink + Drop>(sink: &mut Line<W>) -> (Flushed, bool) {
    let tried = sink.try_flush();
    (flushed_of(tried, sink.len()), tried.unwrap_or(0) > 0)
}

/// Returns what became of the bytes that waited, of which this number is left after this try.
fn flushed_of(tried: Result<usize, Failed>, left: usize) -> Flushed
    ensures failed { OnErr tried (result ≡ flushed.Failed) }
    ensures all { OnOk tried (left ≡ 0 → result ≡ flushed.All) }
    ensures rest { OnOk tried (0 < left → result ≡ flushed.Rest) }
{
    match tried {
        Err(_) => Flushed::Failed,
        Ok(_) if left == 0 => Flushed::All,
        Ok(_) => Flushed::Rest,
    }
}
