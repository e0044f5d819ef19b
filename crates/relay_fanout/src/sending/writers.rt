//! The threads that send the frames of many players.
ghost use Rattle.std.specs.Prelude.{◌≡◌, IfOk, IfSome};

use crate::mount::leave::Leave;
use crate::sending::coming::{Place, PutIn};
use crate::sending::fewest::Fewest;
use crate::sending::player_list::{PlayerList, Wakeups};
use crate::sending::send_side::SendSide;
use crate::sending::sweeping::{Found, Share, Sweeping, Swept};
use crate::sending::waits::Waits;
use crate::sending::writer_buffers::WriterBuffers;
use cursor::Tap;
use interleaved::{Sink, TrySink};
use mount_signals::{Awake, EndFlag, MountSignal, WakeSignal, WordRead};
use sockets::{HangUp, Reading, SteadyClock};
use std::alloc::{AllocError, Global};
use std::marker::Model;
use std::sync::{Arc, Mutex, Wait};
use std::time::Clock;

/// The writers of a server: each is a thread that sends the frames of its players, and waits for none of them.
///
/// A player has a place with one of them while it plays. A list's lock is held for a look or a change, and no other lock is taken
/// meanwhile. Its model is how many writers there are.
pub struct Writers<T, W: Sink, H> {
    lists: Vec<WriterList<T, W, H>>,
    wake_signal: Arc<WakeSignal, Global>,
    stopped: EndFlag,
    waits: Waits,
}

impl<T, W: Sink, H> Model for Writers<T, W, H> {
    ghost use Rattle.std.specs.Prelude.{ℕ, vec_len};

    ghost Value = { ℕ };

    ghost view = { λ w. vec_len w.lists };
}

impl<T: Drop, W: Sink + Drop, H: Drop> Drop for Writers<T, W, H> {
    fn drop(self) {
        let Writers {
            lists: _,
            wake_signal: _,
            stopped: _,
            waits: _,
        } = self;
    }
}

/// There is no memory for one more player, or no writer.
#[derive(Debug, Drop)]
pub struct NoWriter;

/// The players of one writer.
type WriterList<T, W, H> = Mutex<PlayerList<Member<T, W, H>>>;

/// A player that a writer looks at.
struct Player<T, W: Sink, H> {
    shared: Arc<SendSide<T, W, H>, Global>,
    /// Which of its connection's players it is.
    number: u64,
}

/// A player of a writer, and the signal of its mount.
struct Member<T, W: Sink, H> {
    player: Player<T, W, H>,
    signal: Arc<MountSignal, Global>,
}

impl<T: Drop, W: Sink + Drop, H: Drop> Drop for Player<T, W, H> {
    fn drop(self) {
        let Player {
            shared: _,
            number: _,
        } = self;
    }
}

impl<T: Drop, W: Sink + Drop, H: Drop> Drop for Member<T, W, H> {
    fn drop(self) {
        let Member {
            player: _,
            signal: _,
        } = self;
    }
}

impl<T, W: Sink, H> Share<Player<T, W, H>> for Member<T, W, H> {
    ghost use Rattle.std.specs.Prelude.{⊤};

    ghost was_refused = { λ member. ⊤ };

    fn share(&self) -> Option<Player<T, W, H>>
        ensures number { IfSome result (λ player. player.number ≡ self.now.player.number) }
    {
        Some(Player {
            shared: Arc::try_clone(&self.player.shared).ok()?,
            number: self.player.number,
        })
    }
}

impl<T, W: Sink, H> Wakeups for Member<T, W, H> {
    ghost use Rattle.std.specs.Prelude.{⊤};

    ghost were_woken = { λ member count. ⊤ };

    fn player_wakeups(&self) -> u64 {
        self.signal.wakeups()
    }
}

impl<T: Drop, W: Sink + Drop, H: Drop> Writers<T, W, H> {
    /// `count` writers, at least one, without players.
    pub fn new(
        alloc: Global,
        count: usize,
        wake_signal: Arc<WakeSignal, Global>,
        waits: Waits,
    ) -> Result<Writers<T, W, H>, AllocError>
        ensures { IfOk result (λ writers. writers ≡ count) }
    {
        let mut lists = Vec::with_capacity(alloc, count)?;
        for _ in 0..count {
            lists.push(Mutex::new(PlayerList::new(alloc)))?;
        }
        Ok(Writers {
            lists,
            wake_signal,
            stopped: EndFlag::new(),
            waits,
        })
    }

    /// Returns how many writers there are.
    pub fn len(&self) -> usize
        ensures { result ≡ self.now }
    {
        self.lists.len()
    }

    /// Returns how many players they have.
    pub fn players(&self, rt: &impl Wait) -> usize {
        let mut count = 0usize;
        for list in &self.lists {
            count = count.saturating_add(list.lock(rt).len());
        }
        count
    }

    /// Gives a connection's player that was put in, of the mount with this signal, to the writer with the fewest, and wakes it. Returns
    /// its place.
    pub(crate) fn add(
        &self,
        rt: &impl Wait,
        shared: &Arc<SendSide<T, W, H>, Global>,
        signal: &Arc<MountSignal, Global>,
        put_in: PutIn,
    ) -> Result<Place, NoWriter> {
        let (Ok(shared), Ok(signal)) = (Arc::try_clone(shared), Arc::try_clone(signal)) else {
            return put_in.refuse(NoWriter);
        };
        let Some((writer, list)) = self.with_fewest(rt) else {
            return put_in.refuse(NoWriter);
        };
        let player = Player {
            shared,
            number: put_in.number(),
        };
        let placed = put_in.place(rt, writer, list, Member { player, signal })?;
        Ok(placed.raise(&self.wake_signal.writers))
    }

    /// Returns the first writer with the fewest players, and its list.
    fn with_fewest(&self, rt: &impl Wait) -> Option<(usize, &WriterList<T, W, H>)> {
        let mut fewest = Fewest::first(self.lists.first()?.lock(rt).len());
        for (writer, list) in self.lists.iter().enumerate().skip(1) {
            let players = list.lock(rt).len();
            fewest.count(writer, players);
        }
        Some((fewest.writer, self.lists.get(fewest.writer)?))
    }

    /// Takes a player out. Its writer may still be looking at it.
    pub(crate) fn remove(&self, rt: &impl Wait, place: Place) {
        if let Some(list) = self.lists.get(place.writer) {
            list.lock(rt).remove(place.turn);
        }
    }

    /// Ends the writers.
    pub fn stop(&self) {
        self.stopped.set().raise(&self.wake_signal.writers);
    }

    /// Returns whether the writers are to end, after the word was read: a stop after this ends the sleep.
    fn is_stopped(&self, _read: &WordRead) -> bool {
        self.stopped.is_set()
    }
}

impl<T: Tap + Leave + Drop, W: TrySink + Drop, H: HangUp + Drop> Writers<T, W, H> {
    /// Sends the frames of one writer's players until the writers are stopped: the work of a thread of its own. It sleeps while
    /// nothing comes for them.
    pub fn write_all<R: Wait + Clock>(&self, rt: &R, alloc: Global, number: usize) {
        let Some(list) = self.lists.get(number) else {
            return;
        };
        let writers = &self.wake_signal.writers;
        let mut buffers = WriterBuffers::new(alloc);
        let mut clock = SteadyClock::new(rt);
        for _ in rt.forever() {
            let word = writers.read(number);
            if self.is_stopped(&word) {
                word.put_down(Awake::Stopped);
                return;
            }
            let now = clock.read(rt);
            let swept = self.look_at_all(rt, list, word, &mut buffers, now);
            swept.sleep(rt, writers);
        }
    }

    /// Looks at each player of a list once that isn't quiet.
    fn look_at_all(
        &self,
        rt: &impl Wait,
        list: &WriterList<T, W, H>,
        word: WordRead,
        buffers: &mut WriterBuffers,
        now: Reading,
    ) -> Swept {
        let mut found = Sweeping::begin(rt, list, word);
        for _ in rt.forever() {
            match found {
                Found::NoMore(swept) => return swept,
                Found::Player(player, at_player) => {
                    let (next, quiet) = player
                        .shared
                        .look(rt, player.number, buffers, now, self.waits);
                    found = at_player.looked(rt, list, next, quiet);
                }
            }
        }
        unreachable!()
    }
}
