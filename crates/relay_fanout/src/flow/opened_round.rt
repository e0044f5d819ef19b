//! A publisher that waits for players: the round is opened, the players are woken, and it sleeps on the lock under which the count
//! falls. No wake-up is missed in this order, so each call returns what the next one takes.
use mount_signals::MountSignal;
use sockets::SteadyClock;
use std::sync::Wait;
use std::time::{Clock, Duration};

/// When the players that are still awaited are counted, in sixteenths of the time that the wait may take.
const LOOKS: [u64; 4] = [8, 10, 12, 14];

/// A mount's round was opened in which players are awaited, and these weren't woken since. It has no `Drop`, so that it ends in
/// `wake`: a player that looked before the opening doesn't sleep.
pub(crate) struct OpenedRound<'a> {
    signal: &'a MountSignal,
    awaited: usize,
}

/// The players that are awaited were woken. It has no `Drop`, so that it ends in `wait_while_some_come`.
pub(crate) struct AwaitedPlayers<'a> {
    signal: &'a MountSignal,
    awaited: usize,
}

impl<'a> OpenedRound<'a> {
    /// Opens a round in which `target` packets are to be taken. Returns `None` if no player is awaited.
    pub(crate) fn open(
        rt: &impl Wait,
        signal: &'a MountSignal,
        target: u64,
    ) -> Option<OpenedRound<'a>> {
        let awaited = signal.pace.open(rt, target);
        if awaited == 0 {
            return None;
        }
        Some(OpenedRound { signal, awaited })
    }

    /// Wakes the players.
    pub(crate) fn wake(self) -> AwaitedPlayers<'a> {
        let OpenedRound { signal, awaited } = self;
        signal.wake();
        AwaitedPlayers { signal, awaited }
    }
}

impl AwaitedPlayers<'_> {
    /// Sleeps from `began` on until none is awaited, or none got there between two looks, for at most `most` microseconds. Players
    /// that are still awaited are given up.
    pub(crate) fn wait_while_some_come<R: Wait + Clock>(
        self,
        rt: &R,
        clock: &mut SteadyClock,
        began: u64,
        most: u64,
    ) {
        let AwaitedPlayers {
            signal,
            mut awaited,
        } = self;
        for sixteenths in LOOKS {
            let look = began.saturating_add(most / 16 * sixteenths);
            let rest = clock.read(rt).until(look);
            let left = signal.pace.wait(rt, Duration::from_micros(rest));
            if left == 0 || left == awaited {
                break;
            }
            awaited = left;
        }
        signal.pace.give_up(rt);
    }
}
