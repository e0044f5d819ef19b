//! The signal that wakes the players of a mount when there are packets.
ghost use Rattle.std.specs.Prelude.{◌≡◌};

use crate::flow::pace::{KnownLevel, Pace};
use crate::limits::TAKES;
use crate::mount::attached_tap::AttachedTap;
use crate::mount::marks::{Closed, Counted, Emptied, Logged, Marked, Marks, Offered, count_offer};
use crate::mount::player_figures::PlayerFigures;
use crate::mount::tallies::Tallies;
use crate::mount::wakeups_read::{LevelTold, WakeupsRead};
use crate::wake::wake_signal::WakeSignal;
use base_syntax::Items;
use cursor::Lend;
use pacing::Start;
use publisher::Fate;
use relay_accounts::{MountTally, lost_so_far};
use std::alloc::{AllocError, Global};
use std::sync::{Arc, Mutex, Wait};
use transport_header::{MOST_TRACKS, Point};

/// A player's position: how many packets it was sent and skipped, how many bytes those have that it was sent, how many were reported lost
/// to it, and the number of the next one.
#[derive(Clone, Copy, Drop)]
pub struct Stand {
    pub cursor: u64,
    pub sent: u64,
    pub bytes: u64,
    pub skipped: u64,
    pub lost: u64,
}

/// What the publisher of a mount and its players share beside the ring: the point of each track, and the word that
/// players sleep on while there is nothing to take.
///
/// Any thread of the server may use it. The points' lock is held for a copy of them or a change of one.
pub struct MountSignal {
    points: Mutex<[Option<Point>; MOST_TRACKS]>,
    marks: Marks,
    /// Which players keep up with the publisher.
    pub pace: Pace,
    tallies: Tallies,
    wake_signal: Arc<WakeSignal, Global>,
}

impl Drop for MountSignal {
    fn drop(self) {
        let MountSignal {
            points: _,
            marks: _,
            pace: _,
            tallies: _,
            wake_signal: _,
        } = self;
    }
}

impl MountSignal {
    /// The signal of a mount with `seats` seats, in the server of this wake signal.
    pub fn new(
        alloc: Global,
        seats: usize,
        wake_signal: Arc<WakeSignal, Global>,
    ) -> Result<MountSignal, AllocError> {
        Ok(MountSignal {
            points: Mutex::new([None; MOST_TRACKS]),
            marks: Marks::new(),
            pace: Pace::new(alloc, seats)?,
            tallies: Tallies::new(alloc, seats)?,
            wake_signal,
        })
    }

    /// Sets the point of a track to that of its last packet, which is in the ring.
    pub fn post(&self, rt: &impl Wait, _logged: &Logged, track: usize, point: Point) {
        let mut points = self.points.lock(rt);
        if let Some(place) = points.get_mut(track) {
            *place = Some(point);
        }
    }

    /// Returns the point of each track.
    pub(crate) fn points(
        &self,
        rt: &impl Wait,
        alloc: Global,
    ) -> Result<Items<Option<Point>>, AllocError> {
        let points = *self.points.lock(rt);
        Ok(Items::new(Vec::from_slice(alloc, points.as_slice())?))
    }

    /// Marks that a packet came. Doesn't wake the players.
    pub fn mark(&self, logged: Logged) -> Marked {
        self.marks.mark(logged)
    }

    /// A packet of this mount has begun a gathering of all mounts. Wakes the players at once if the mount's last gathering brought one
    /// packet: then waiting brings no other.
    pub fn begin_gathering(&self) {
        if self.marks.note_begun() {
            self.wake();
        }
    }

    /// Wakes the players if packets came since they were last woken, except those that a writer has: for them the writers' word
    /// is to be raised.
    pub(crate) fn wake_if_marked(&self) -> Option<Counted> {
        match self.marks.take_marks() {
            Some(emptied) => Some(self.marks.count(emptied)),
            None => None,
        }
    }

    /// A player is attached to its seat by this tap: its figures begin anew, at the tap's cursor. The player before it has left.
    pub fn attached<T: Lend>(&self, seat: usize, tap: T) -> AttachedTap<T>
        ensures { result ≡ tap }
    {
        AttachedTap::begin(&self.pace, &self.tallies, seat, tap)
    }

    /// A player is at this position, and may have more to take.
    pub fn reach(&self, rt: &impl Wait, seat: usize, stand: Stand, known: &mut KnownLevel) {
        self.pace.reach(rt, seat, stand.cursor, known);
        self.tell(seat, stand);
    }

    /// A player is at this position, and had nothing more to take.
    pub fn level(&self, rt: &impl Wait, seat: usize, stand: Stand, known: &mut KnownLevel) {
        self.pace.level(rt, seat, stand.cursor, known);
        self.tell(seat, stand);
    }

    /// A player is at this position, and nothing more comes.
    pub fn stand(&self, seat: usize, stand: Stand) {
        self.pace.stand(seat, stand.cursor);
        self.tell(seat, stand);
    }

    /// The figures of the player in a seat are those of this position.
    fn tell(&self, seat: usize, stand: Stand) {
        let Stand {
            cursor: _,
            sent,
            bytes,
            skipped,
            lost,
        } = stand;
        self.tallies.set_player(seat, sent, bytes, skipped, lost);
    }

    /// Counts a packet that the publisher offers, before it is published.
    pub fn offer(&self, rt: &impl Wait, tag: u8, packet: &[u8]) -> Offered {
        count_offer(&self.tallies, rt, tag, packet)
    }

    /// Notes that a RECORD was accepted: the next packet of each track is compared with none before it.
    pub fn recorded(&self, rt: &impl Wait) {
        self.tallies.recorded(rt);
    }

    /// Returns how many packets were missing as they came, by their sequence numbers.
    pub fn missing(&self, rt: &impl Wait) -> u64 {
        self.tallies.missing(rt)
    }

    /// Counts a frame of the publisher with `bytes` bytes of data that came at this moment, in milliseconds, and met this fate.
    pub fn note(&self, rt: &impl Wait, fate: Fate, bytes: usize, now: u64) {
        self.tallies.add(rt, fate, bytes, now);
    }

    /// Sets for how many milliseconds in total packets have waited for players.
    pub fn set_slowed(&self, rt: &impl Wait, milliseconds: u64) {
        self.tallies.set_slowed(rt, milliseconds);
    }

    /// The mount is recorded from this moment on.
    pub fn begin(&self, rt: &impl Wait, now: u64) {
        self.tallies.begin(rt, now);
    }

    /// Returns what became of the frames that came to the mount.
    pub fn tally(&self, rt: &impl Wait) -> MountTally {
        self.tallies.of_mount(rt)
    }

    /// Returns the moment of its last packet, or of its first RECORD if no packet came, in milliseconds.
    pub fn last_packet(&self, rt: &impl Wait) -> u64 {
        self.tallies.last(rt)
    }

    /// Returns where a player starts at this moment, in milliseconds, that is to be sent the packets of the last `milliseconds`, at
    /// most half of the `keep` that the ring keeps; and whether it is the first player of the mount whose start is shortened so.
    pub fn start(&self, rt: &impl Wait, now: u64, milliseconds: u64, keep: u64) -> (Start, bool) {
        self.tallies.start(rt, now, milliseconds, keep)
    }

    /// Returns the figures of the player in a seat, of a ring that keeps `keep` packets. It has lost at least what was reported
    /// lost, and of the packets after its cursor those that aren't kept any more. Its next sixteen takes may have been made and
    /// not reported yet.
    pub fn player(&self, rt: &impl Wait, seat: usize, keep: u64) -> PlayerFigures {
        // The sender writes its cursor before its losses. In the reverse order here a packet that is lost meanwhile may be left
        // out, but none counts as lost twice.
        let published = self.tallies.packets(rt);
        let lost = self.tallies.lost(seat);
        let cursor = self.pace.cursor(seat);
        PlayerFigures {
            sent: self.tallies.sent(seat),
            bytes: self.tallies.bytes(seat),
            skipped: self.tallies.skipped(seat),
            lost: lost_so_far(lost, cursor, published, keep.saturating_add(TAKES)),
            behind: published.saturating_sub(cursor),
            published: published.saturating_sub(self.tallies.player_start(seat)),
        }
    }

    /// No packet comes any more.
    pub fn end(&self, closed: Closed) {
        self.wake_for(self.marks.set_ended(closed));
    }

    pub fn has_ended(&self) -> bool {
        self.marks.has_ended()
    }

    /// Wakes the players of the mount, whatever came.
    pub fn wake(&self) {
        self.wake_all(self.marks.empty());
    }

    /// Wakes the players of the mount for what is in the ring.
    pub fn wake_for(&self, logged: Logged) {
        self.wake_all(self.marks.empty_for(logged));
    }

    /// Wakes the players that have a thread of their own, and the writers.
    fn wake_all(&self, emptied: Emptied) {
        self.marks.count(emptied).raise(&self.wake_signal.writers);
    }

    /// Returns how often the players were woken.
    pub fn wakeups(&self) -> u64 {
        self.marks.wakeups()
    }

    /// Returns how often the players were woken, for a look at the ring.
    pub fn player_wakeups(&self) -> WakeupsRead {
        self.marks.player_wakeups()
    }

    /// Sleeps until the players are woken again, after a look that found all taken. It may also return for no reason.
    pub fn sleep(&self, rt: &impl Wait, told: LevelTold) {
        self.marks.sleep(rt, told);
    }
}
