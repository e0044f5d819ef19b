//! The marks of a mount, and the word that its players sleep on.
//!
//! A publisher puts a packet, or the end, into the ring, marks the mount and notifies the waking thread. Or it empties the marks,
//! counts a wake-up and raises the writers' word, as it also does behind a packet that begins a gathering, if the one before brought one.
//! The law of `waking` is about this order, so each call returns what the next one takes.
ghost use Rattle.std.specs.Prelude.{◌≡◌, ◌+◌, ◌<◌, ◌^◌, ◌↔◌, ◌⊎◌, IsSome, IsTrue, IfOk, IfErr, OnErr, IsErrOf, length};
ghost use Rattle.cursor.specs.declared.refusals.Refused.{Refused};
ghost use Rattle.cursor.specs.Feeds.{Appends};
ghost use Rattle.cursor.specs.Log.{packet_of};
ghost use Rattle.mount_signals.specs.Marks.{answered, packets_gathered};

use crate::limits::TAKES;
use crate::mount::tallies::Tallies;
use crate::mount::wakeups_read::{LevelTold, WakeupsRead};
use crate::wake::wake_signal::WakeSignal;
use crate::wake::wake_word::WakeWord;
use crate::wake::writers_word::WritersWord;
use cursor::{Feed, Refused};
use std::sync::Wait;
use std::sync::atomic::{AtomicBool, AtomicU64, Ordering};
use waking::{NO_MARKS, are_marks, next_word};

/// The marks of a mount, and the word that its players sleep on.
#[derive(Drop)]
pub(crate) struct Marks {
    /// How many packets came since the players were last woken.
    marked: AtomicU64,
    /// Whether no packet comes any more.
    ended: AtomicBool,
    player_wakeups: WakeWord,
    /// How many packets came in the last gathering in which some did.
    last_gathered: AtomicU64,
    /// Whether the players were woken at once for the packet that began the gathering that is under way.
    has_sent: AtomicBool,
}

/// A packet was counted by its sequence number as its publisher offers it, and wasn't published since. It has no `Drop`, so that it
/// ends in `publish_into`.
pub struct Offered(());

/// A packet, or the end, is in the ring, and no thread was told of it: its publisher is `publishing` in the machine of `waking`. It
/// has no `Drop`, so that it ends in `mark` or `empty_for`.
pub struct Logged(());

/// The end is in the ring, and it isn't set that the mount has ended (`publishing`). It has no `Drop`, so that it ends in `set_ended`.
pub struct Closed(());

/// The mount is marked, and the waking thread wasn't notified of it (`notifying`). It has no `Drop`, so that it ends in `notify`.
pub struct Marked {
    is_batch: bool,
}

/// The marks are emptied, and no wake-up was counted since (`telling`; for the waking thread `took`). It has no `Drop`, so that it
/// ends in `count`.
pub(crate) struct Emptied(());

/// A wake-up was counted, and the writers' word wasn't raised since (`raising`; for the waking thread `owed`). It has no `Drop`, so
/// that it ends in `raise`.
pub(crate) struct Counted(());

/// Counts a packet that its publisher offers, if its tag is that of a track's RTP packets: once, however often its publish is retried,
/// and also if the ring refuses it. So none that the relay refuses is missing.
pub(crate) fn count_offer(tallies: &Tallies, rt: &impl Wait, tag: u8, packet: &[u8]) -> Offered {
    if tag % 2 == 0 {
        tallies.offer(rt, usize::from(tag / 2), packet);
    }
    Offered(())
}

/// Publishes a packet that was counted, before any thread is told of it: the step `logs`. A refusal has nothing to tell.
pub fn publish_into<F: Feed>(
    feed: &mut F,
    offered: Offered,
    tag: u8,
    bytes: &[u8],
) -> Result<(u64, Logged), Refused>
    ensures gives { F.publish_gives feed.old (packet_of tag bytes.now) (answered result) feed.new }
    ensures appended { IfOk (answered result) (λ n. Appends (F.told feed.old) (packet_of tag bytes.now) n (F.told feed.new)) }
    ensures refused { OnErr (answered result) (F.told feed.new ≡ F.told feed.old) }
    ensures too_long { IsErrOf (answered result) Refused.TooLong ↔ (F.packet_bytes feed.old < length bytes.now) }
    ensures may { IfErr (answered result) F.may_refuse }
    ensures same { F.packet_bytes feed.new ≡ F.packet_bytes feed.old }
{
    let Offered(()) = offered;
    let number = feed.publish(tag, bytes)?;
    Ok((number, Logged(())))
}

/// Ends the log, before any thread is told of it: the step `logs`.
pub fn close_log<F: Feed>(feed: F) -> Closed {
    feed.close();
    Closed(())
}

impl Marks {
    /// No packet came.
    pub(crate) fn new() -> Marks {
        Marks {
            marked: AtomicU64::new(NO_MARKS),
            ended: AtomicBool::new(false),
            player_wakeups: WakeWord::new(),
            last_gathered: AtomicU64::new(0),
            has_sent: AtomicBool::new(false),
        }
    }

    /// Marks that a packet came: the step `marks`.
    pub(crate) fn mark(&self, logged: Logged) -> Marked {
        let Logged(()) = logged;
        let before = self
            .marked
            .fetch_update(Ordering::SeqCst, Ordering::SeqCst, |marks| {
                Some(next_word(marks))
            });
        let has_sent = self.has_sent.load(Ordering::SeqCst);
        Marked {
            is_batch: before.is_ok_and(|marks| is_last_of_batch(packets_of(marks, has_sent))),
        }
    }

    /// Empties the marks for what is in the ring, to wake the players without the waking thread: the step `wakes_itself`.
    pub(crate) fn empty_for(&self, logged: Logged) -> Emptied {
        let Logged(()) = logged;
        self.empty()
    }

    /// Sets that the mount has ended, before its players are woken for the end.
    pub(crate) fn set_ended(&self, closed: Closed) -> Logged {
        let Closed(()) = closed;
        self.ended.store(true, Ordering::SeqCst);
        Logged(())
    }

    /// Returns whether that was set.
    pub(crate) fn has_ended(&self) -> bool {
        self.ended.load(Ordering::SeqCst)
    }

    /// Empties the marks though nothing is new: the step `hurries`. A thread that makes a mark after this notifies.
    pub(crate) fn empty(&self) -> Emptied {
        self.marked.store(NO_MARKS, Ordering::SeqCst);
        Emptied(())
    }

    /// A packet has begun a gathering. Notes and returns whether the players are to be woken for it at once: if one packet came in the last
    /// gathering.
    pub(crate) fn note_begun(&self) -> bool {
        let is_one = self.last_gathered.load(Ordering::SeqCst) == 1;
        if is_one {
            self.has_sent.store(true, Ordering::SeqCst);
        }
        is_one
    }

    /// Takes the marks, if there are any: the step `takes_marks`, or `finds_no_marks`. A gathering is over.
    pub(crate) fn take_marks(&self) -> Option<Emptied> {
        let marks = self.marked.swap(NO_MARKS, Ordering::SeqCst);
        let gathered = packets_of(marks, self.has_sent.swap(false, Ordering::SeqCst));
        if gathered > 0 {
            self.last_gathered.store(gathered, Ordering::SeqCst);
        }
        if are_marks(marks) {
            Some(Emptied(()))
        } else {
            None
        }
    }

    /// Counts a wake-up, which wakes the players that have a thread of their own: the step `tells`, or `counts`.
    pub(crate) fn count(&self, emptied: Emptied) -> Counted {
        let Emptied(()) = emptied;
        self.player_wakeups.raise();
        Counted(())
    }

    /// Returns how often the players were woken.
    pub(crate) fn wakeups(&self) -> u64 {
        self.player_wakeups.load()
    }

    /// Returns how often the players were woken, for a look at the ring.
    pub(crate) fn player_wakeups(&self) -> WakeupsRead {
        WakeupsRead::read(&self.player_wakeups)
    }

    /// Sleeps until the players are woken again, after a look that found all taken. It may also return for no reason.
    pub(crate) fn sleep(&self, rt: &impl Wait, told: LevelTold) {
        told.sleep(rt, &self.player_wakeups);
    }
}

impl Marked {
    /// Notifies the waking thread: the step `notifies`, or `finds_notified`. If the mount has a full batch, it needn't gather
    /// longer. Returns whether this begins a gathering of all mounts.
    pub fn notify(self, wake_signal: &WakeSignal) -> bool {
        let Marked { is_batch } = self;
        if is_batch {
            wake_signal.hurry();
            false
        } else {
            wake_signal.notify()
        }
    }
}

impl Counted {
    /// Raises the writers' word: the step `raises`, or `raises_once`.
    pub(crate) fn raise(self, writers: &WritersWord) {
        let Counted(()) = self;
        writers.raise();
    }

    /// Returns what is to be raised for both, which one raise does.
    pub(crate) fn of_both(one: Option<Counted>, other: Option<Counted>) -> Option<Counted>
        ensures { IsSome result ↔ (IsSome one ⊎ IsSome other) }
    {
        match (one, other) {
            (None, other) => other,
            (one, None) => one,
            (Some(one), Some(Counted(()))) => Some(one),
        }
    }
}

/// Returns how many packets a gathering brought, with the one that began it if its players were woken for it at once.
fn packets_of(marks: u64, has_sent: bool) -> u64
    ensures many { marks + 1 < 2 ^ 64 → result ≡ packets_gathered marks has_sent }
{
    if has_sent {
        marks.saturating_add(1)
    } else {
        marks
    }
}

/// Returns whether the packet that is marked after so many others fills a batch (16 packets).
fn is_last_of_batch(marks: u64) -> bool
    ensures { IsTrue result ↔ (marks + 1 ≡ 16) }
{
    marks == TAKES - 1
}
