//! The end of a writer's look: what needs the line, and then the rest.
ghost use Rattle.std.specs.Prelude.{◌≡◌, IsSome, true, false};

use crate::mount::leave::Leave;
use crate::sending::batch::Line;
use crate::sending::tap_place::TapPlace;
use crate::sending::writer_player::WriterPlayer;
use interleaved::Sink;
use sockets::HangUp;
use std::sync::{MutexGuard, Wait};
use waking::{After, Next};

/// What was decided after a look, of which everything that needs the line is done, and the line was given back. It has no `Drop`, so
/// that it ends in `WriterPlayer::carry_out`.
pub(super) struct LineDone {
    after: After,
}

impl LineDone {
    /// Shuts the connection's socket down if the look decided so, and then gives the line back. So no reply is written after a frame
    /// that wasn't written whole.
    pub(super) fn after_look<W: Sink + Drop>(
        line: MutexGuard<'_, Line<W>>,
        shutdown: &impl HangUp,
        after: After,
    ) -> LineDone
        ensures { result.after ≡ after }
    {
        if after.closes_writes {
            shutdown.close_writes();
        }
        if after.notes_stall {
            shutdown.note_stall();
        }
        if after.hangs_up {
            shutdown.hang_up();
        }
        drop(line);
        LineDone { after }
    }
}

impl WriterPlayer {
    /// Carries out the rest of what was decided after a look. Returns what is next.
    pub(super) fn carry_out<T: Leave + Drop>(
        &mut self,
        rt: &impl Wait,
        tap: &mut TapPlace<T>,
        done: LineDone,
    ) -> Next
        ensures leaves { done.after.leaves_pace ≡ true → IsSome self.new.left }
        ensures stays { done.after.leaves_pace ≡ false → self.new.left ≡ self.old.left }
        ensures others { self.new ≡ record self.old { left = self.new.left } }
        ensures next { result ≡ done.after.next }
    {
        let LineDone { after } = done;
        if after.leaves_pace {
            self.left = Some(self.signal.pace.leave(rt, self.seat));
        }
        if after.leaves_tap {
            tap.leave();
        }
        after.next
    }
}
