//! A writer's sweep over its players: the word is read, the list's changes are read, each player is looked at that isn't quiet, the
//! changes are read again, and the writer sleeps on the word that was read. The law of `waking` is about this order, so each call
//! returns what the next one takes.
ghost use Rattle.std.specs.Prelude.{◌≡◌, ◌+◌, ◌<◌, ◌^◌, IfNone};
ghost use Rattle.waking.specs.Sweeps.{added, begun};
ghost use Rattle.relay_fanout.specs.Sweepings.{Begins, GoesOnWith, IsLeft, IsNextOf, place_after};

use crate::sending::player_list::{PlayerList, Wakeups};
use mount_signals::{Awake, WordRead, WritersWord};
use std::sync::{Mutex, Wait};
use waking::{Next, Quiet, Sweep};

/// The word and then the list's changes were read, and the players before `place` were looked at or passed over: the writer is `between`
/// two of them in the machine of `waking`. It has no `Drop`, so that it ends in `next`.
pub(super) struct Sweeping {
    word: WordRead,
    sweep: Sweep,
    place: usize,
}

/// A player was found, and is to be looked at (`looking`). It has no `Drop`, so that it ends in `looked`.
pub(super) struct AtPlayer {
    sweeping: Sweeping,
    turn: u64,
}

/// The list has no more players, and its changes were read again. It has no `Drop`, so that it ends in `sleep`.
pub(super) struct Swept {
    word: WordRead,
    sweep: Sweep,
    changes: u64,
}

/// The next player of a sweep, or the sweep's end.
pub(super) enum Found<P> {
    Player(P, AtPlayer),
    NoMore(Swept),
}

/// A player of a list can be looked at while the list isn't locked, by `S`.
pub(super) trait Share<S> {
    /// It was asked for one more owner, which it can't have.
    ghost was_refused: { Self → Type 0 };

    /// Returns one more owner, or `None` if it can't have one.
    fn share(&self) -> Option<S>
        ensures refused { IfNone result (was_refused self.now) };
}

impl Sweeping {
    /// Reads the list's changes, after the word: both are the step `begins`. Returns the first player that is to be looked at.
    pub(super) fn begin<S, P: Share<S> + Wakeups + Drop>(
        rt: &impl Wait,
        list: &Mutex<PlayerList<P>>,
        word: WordRead,
    ) -> Found<S>
        ensures { Begins word result }
    {
        let list = list.lock(rt);
        Sweeping::first(word, list.changes()).next(&list)
    }

    /// No player was looked at, and the list had changed so often.
    fn first(word: WordRead, changes: u64) -> Sweeping
        ensures { result ≡ record { word = word; sweep = begun changes; place = 0 } }
    {
        Sweeping {
            word,
            sweep: Sweep::new(changes),
            place: 0,
        }
    }

    /// The player at its place was looked at, and this is next for it: one that has nothing more to send is taken out there.
    fn behind(self, next: Next) -> Sweeping
        ensures goes_on { (result.word ≡ self.word) × (result.sweep ≡ added next self.sweep) }
        ensures place { self.place + 1 < 2 ^ 64 → result.place ≡ place_after next self.place }
    {
        let Sweeping {
            word,
            mut sweep,
            mut place,
        } = self;
        sweep.add(next);
        if next != Next::Over {
            place = place.saturating_add(1);
        }
        Sweeping { word, sweep, place }
    }

    /// Returns the next player that is to be looked at. The machine's looks at those that it passes over are `reads_wakes` and
    /// `finds_nothing`. If there is none, reads the list's changes again.
    fn next<S, P: Share<S> + Wakeups + Drop>(self, list: &PlayerList<P>) -> Found<S>
        ensures goes_on { GoesOnWith self.word self.sweep result }
        ensures next { IsNextOf P.were_woken P.was_refused list.now self.place result }
    {
        let Sweeping { word, sweep, place } = self;
        let place = list.next_place(place);
        if let Some(listed) = list.get(place) {
            if let Some(player) = listed.player.share() {
                let turn = listed.turn;
                let sweeping = Sweeping { word, sweep, place };
                return Found::Player(player, AtPlayer { sweeping, turn });
            }
        }
        let changes = list.changes();
        Found::NoMore(Swept {
            word,
            sweep,
            changes,
        })
    }
}

impl AtPlayer {
    /// The player was looked at, and this is next for it, and for so long it is quiet. One that has nothing more to send is taken out of the
    /// list. If it has come again meanwhile, that is another turn, which stays. Returns the next player.
    pub(super) fn looked<S, P: Share<S> + Wakeups + Drop>(
        self,
        rt: &impl Wait,
        list: &Mutex<PlayerList<P>>,
        next: Next,
        quiet: Option<Quiet>,
    ) -> Found<S>
        ensures { GoesOnWith self.sweeping.word (added next self.sweeping.sweep) result }
    {
        let mut list = list.lock(rt);
        self.leave(&mut list, next, quiet)
    }

    /// Does the same with the list that was locked.
    fn leave<S, P: Share<S> + Wakeups + Drop>(
        self,
        list: &mut PlayerList<P>,
        next: Next,
        quiet: Option<Quiet>,
    ) -> Found<S>
        ensures goes_on { GoesOnWith self.sweeping.word (added next self.sweeping.sweep) result }
        ensures left { IsLeft next self.sweeping.place self.turn quiet list.old list.new }
        ensures next { self.sweeping.place + 1 < 2 ^ 64 → IsNextOf P.were_woken P.was_refused list.new (place_after next self.sweeping.place) result }
    {
        let AtPlayer { sweeping, turn } = self;
        if next == Next::Over {
            list.remove(turn);
        } else {
            list.note(sweeping.place, turn, quiet);
        }
        sweeping.behind(next).next(list)
    }
}

impl Swept {
    /// Sleeps while the word is the one that was read, if no player is to be looked at again at once and the list hasn't changed
    /// since the sweep began: the steps `ends_sweep` and `sleeps`. Else returns at once, for the next sweep: `sweeps_again`.
    pub(super) fn sleep(self, rt: &impl Wait, writers: &WritersWord) {
        let Swept {
            word,
            sweep,
            changes,
        } = self;
        if sweep.is_over(changes) {
            writers.sleep(rt, word, sweep.later);
        } else {
            word.put_down(Awake::SweepsAgain);
        }
    }
}
