//! A writer's look at a mount's ring, in the order on which the law of `waking` stands. How often the mount's players were woken is
//! read; the writer then has the line; the ring is taken from; a player that has taken all tells its cursor, and that it has; then its
//! writer notes it as empty. Each call returns what the next one takes.
ghost use Rattle.std.specs.Prelude.{◌≡◌, ◌/◌, Some, None, IfOk, IfErr};
ghost use Rattle.waking.specs.PlayerStates.{next_before};
ghost use Rattle.relay_fanout.specs.RingLooks.{unless_empty};

use crate::sending::batch::Line;
use crate::sending::marked_line::LineSkipped;
use crate::sending::writing_side::WritingSide;
use interleaved::Sink;
use mount_signals::{KnownLevel, MountSignal, Stand, WakeupsRead};
use sockets::Reading;
use std::sync::{MutexGuard, Wait};
use waking::{Answer, Found, Next, PlayerState};

/// How often the mount's players were woken was read, and the writer has the line since (`holds`). It has no `Drop`, so that it ends in
/// `tell_level` or `answered`.
pub(super) struct LineHeld {
    wakeups: WakeupsRead,
}

/// What the ring answered to a writer. It has no `Drop`, so that it ends in `found`.
pub(super) struct Looked {
    answer: Answer,
    player_wakeups: u64,
}

/// Goes on unless there is nothing to do: the steps `finds_nothing` and `finds_no_time`. Then returns what is next.
pub(super) fn unless_quiet(
    wakeups: WakeupsRead,
    state: &PlayerState,
    now: Reading,
) -> Result<WakeupsRead, Next>
    ensures goes_on { IfOk result (λ read. (read ≡ wakeups) × (next_before state.now wakeups (now.moment / 1000) now.is_read ≡ None)) }
    ensures quiet { IfErr result (λ next. next_before state.now wakeups (now.moment / 1000) now.is_read ≡ Some next) }
{
    match state.before(wakeups.number(), now.milliseconds(), now.is_read) {
        Some(next) => {
            wakeups.go_on();
            Err(next)
        }
        None => Ok(wakeups),
    }
}

impl LineHeld {
    /// Takes the line, if no other thread has it.
    pub(super) fn try_line<W: Sink + Drop>(
        wakeups: WakeupsRead,
        writing: &WritingSide<W>,
    ) -> Result<(MutexGuard<'_, Line<W>>, LineHeld), LineSkipped> {
        match writing.try_hold() {
            Ok(sink) => Ok((sink, LineHeld { wakeups })),
            Err(skipped) => {
                wakeups.go_on();
                Err(skipped)
            }
        }
    }

    /// Tells the pace of a writer's player that it has taken all.
    pub(super) fn tell_level(
        self,
        rt: &impl Wait,
        signal: &MountSignal,
        seat: usize,
        stand: Stand,
        known: &mut KnownLevel,
    ) -> Looked {
        let LineHeld { wakeups } = self;
        let told = wakeups.tell_level(rt, signal, seat, stand, known);
        Looked {
            answer: Answer::Empty,
            player_wakeups: told.note(),
        }
    }

    /// The look goes on after this answer. That the ring is empty is answered by `tell_level` alone: here there may be more.
    pub(super) fn answered(self, answer: Answer) -> Looked
        ensures { result ≡ record { answer = unless_empty answer; player_wakeups = self.wakeups } }
    {
        let LineHeld { wakeups } = self;
        let player_wakeups = wakeups.number();
        wakeups.go_on();
        let answer = match answer {
            Answer::Empty => Answer::More,
            other => other,
        };
        Looked {
            answer,
            player_wakeups,
        }
    }
}

impl Looked {
    /// What the look has found, where bytes are left or not, some moved or not, and a publisher may wait for the player or not.
    pub(super) fn found(self, is_left: bool, moved: bool, is_awaited: bool) -> Found
        ensures { result ≡ record { answer = self.answer; is_left = is_left; moved = moved; is_awaited = is_awaited; player_wakeups = self.player_wakeups } }
    {
        let Looked {
            answer,
            player_wakeups,
        } = self;
        Found {
            answer,
            is_left,
            moved,
            is_awaited,
            player_wakeups,
        }
    }
}
