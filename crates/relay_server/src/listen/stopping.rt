//! How many connections have a thread, and the end of a server after a request to stop.
ghost use Rattle.std.specs.Prelude.{◌≡◌};

mod room;

use admission::{PeerEntry, Removed};
use mount_signals::low_half;
pub(crate) use room::Room;
use sockets::SteadyClock;
use std::sync::Wait;
use std::sync::atomic::{AtomicU64, Ordering};
use std::time::{Clock, Duration};

/// The bit of the word that is set when a server is to stop. The bits below it count its connections.
const STOPPED: u64 = 1 << 31;

/// How many connections of a server have a thread, and whether it is to stop. Any thread may stop it. A thread that does so
/// also ends the listener's accepting.
///
/// Both are one word, so that a thread that waits for the last connection sees a stop.
#[derive(Drop)]
pub struct Stopping {
    word: AtomicU64,
}

/// A connection is counted as one that has a thread, also in `Peers` and in `LiveSockets`. It has no `Drop`, so that it ends in
/// `open` or `hand_over`.
pub(crate) struct Entered {
    peer: PeerEntry,
}

/// A connection is counted as one that has a thread. It has no `Drop`, so that it ends in `Stopping::leave`.
pub(crate) struct Counted(());

impl Entered {
    /// Its thread has ended, or wasn't started: it is to be taken out of `Peers` and of `LiveSockets`, and is counted until then.
    pub(crate) fn open(self) -> (Counted, PeerEntry)
        ensures { result.1 ≡ self.peer }
    {
        let Entered { peer } = self;
        (Counted(()), peer)
    }

    /// Its thread was started, and takes it out at its end.
    pub(crate) fn hand_over(self) {
        let Entered { peer } = self;
        peer.hand_over();
    }

    /// The connection of this number ends on its thread, to which it was handed over.
    pub(crate) fn of_thread(conn: u64) -> Entered
        ensures { result.peer ≡ conn }
    {
        Entered {
            peer: PeerEntry::of_thread(conn),
        }
    }
}

impl Stopping {
    /// No connection has come, and no stop was requested.
    pub fn new() -> Stopping {
        Stopping {
            word: AtomicU64::new(0),
        }
    }

    /// Requests the stop: the server accepts no connection any more, and ends.
    pub fn stop(&self) {
        let _ = self
            .word
            .fetch_update(Ordering::SeqCst, Ordering::SeqCst, |word| {
                Some(word | STOPPED)
            });
        self.word.wake_all();
    }

    /// Returns whether a stop was requested.
    pub fn is_stopped(&self) -> bool {
        self.word.load(Ordering::SeqCst) >= STOPPED
    }

    /// Returns room for one more connection that has a thread, if there is some.
    pub(crate) fn room(&self) -> Option<Room> {
        Room::beside(self.word.load(Ordering::SeqCst) % STOPPED)
    }

    /// Counts one more connection that is to have a thread.
    pub(crate) fn come(&self, room: Room, peer: PeerEntry) -> Entered {
        room.fill();
        self.word.fetch_add(1, Ordering::SeqCst);
        Entered { peer }
    }

    /// Counts a connection that has ended, or whose thread wasn't started, and whose socket isn't kept any more. If it was the
    /// last, the threads that wait for it are woken.
    pub(crate) fn leave(&self, counted: Counted, _removed: Removed) {
        let Counted(()) = counted;
        if self.word.fetch_sub(1, Ordering::SeqCst) % STOPPED == 1 {
            self.word.wake_all();
        }
    }

    /// Waits until no connection has a thread, or a stop is requested.
    pub(crate) fn wait(&self, rt: &impl Wait) {
        for _ in rt.forever() {
            let word = self.word.load(Ordering::SeqCst);
            if word == 0 || word >= STOPPED {
                return;
            }
            self.word.park(rt, low_half(word));
        }
    }

    /// Waits until no connection has a thread, for at most `most`. Returns how many still have one.
    pub(crate) fn wait_for_all<R: Wait + Clock>(&self, rt: &R, most: Duration) -> u64 {
        let mut clock = SteadyClock::new(rt);
        let end = u64::try_from(most.as_micros()).unwrap_or(u64::MAX);
        for _ in rt.forever() {
            let word = self.word.load(Ordering::SeqCst);
            let rest = clock.read(rt).until(end);
            if word % STOPPED == 0 || rest == 0 {
                return word % STOPPED;
            }
            let rest = Duration::from_micros(rest);
            self.word.park_timeout(rt, low_half(word), rest);
        }
        unreachable!()
    }
}
