//! The mounts and players of a server while they go on: for reports, and for whoever asks for a snapshot.
mod figures;
mod marked_threads;
mod report_list;
mod reported_mount;
mod reported_player;
mod shown;
mod shown_tracks;
mod told;

ghost use Rattle.std.specs.Prelude.{◌≡◌};

use crate::lines::Lines;
use marked_threads::{MarkedThreads, marks_of};
use mount_series::MountSeries;
use mount_signals::WakeSignal;
use relay_accounts::SeatAccount;
use report_list::List;
use reported_mount::Mount;
pub(crate) use reported_mount::ReportedMount;
use reported_player::Player;
pub(crate) use reported_player::ReportedSeat;
use server_counts::{ServerCounts, ThreadLook};
pub(crate) use shown_tracks::tracks_of;
use status::Snapshot;
use std::alloc::{AllocError, Global};
use std::sync::{Arc, Condvar, CondvarTimeouts, Mutex, Wait};
use std::time::{Clock, Duration};

/// The mounts that are recorded and the players that have a seat, what was reported of them, and the sums of those that have ended.
/// One thread reports each mount, and each player that lost packets, at regular times.
///
/// Its lock is held for a change of its lists, for one report or for one snapshot. Meanwhile a report queues its lines, and each
/// mount's tally is read; no other lock is taken. A mount's or a player's figures move to the sums under this lock, so that a snapshot
/// has each packet once.
///
/// The lock of the marks' threads is held for a reading of their marks, and no other is taken meanwhile.
pub struct Reports {
    alloc: Global,
    /// How many packets a ring keeps.
    keep: u64,
    list: Mutex<List>,
    closed: Condvar,
    counts: Arc<ServerCounts, Global>,
    /// The threads of the server that leave marks elsewhere, once it has started.
    marked_threads: Mutex<Option<MarkedThreads>>,
}

impl Drop for Reports {
    fn drop(self) {
        let Reports {
            alloc: _,
            keep: _,
            list: _,
            closed: _,
            counts: _,
            marked_threads: _,
        } = self;
    }
}

impl Reports {
    /// The reports of a server that records no mount. Each ring keeps `keep` packets. If lines are logged at regular times, what has
    /// ended waits for the next of them. The only error is out of memory.
    pub fn new(alloc: Global, keep: u64, is_told: bool) -> Result<Reports, AllocError> {
        let list = List {
            mounts: Vec::new(alloc),
            players: Vec::new(alloc),
            series: MountSeries::new(alloc)?,
            is_told,
            is_closed: false,
        };
        Ok(Reports {
            alloc,
            keep,
            list: Mutex::new(list),
            closed: Condvar::new(),
            counts: Arc::new(alloc, ServerCounts::new())?,
            marked_threads: Mutex::new(None),
        })
    }

    /// Returns the counts of the server, which each snapshot has. Any thread counts there.
    pub fn counts(&self) -> &Arc<ServerCounts, Global>
        ensures { result.now ≡ self.now.counts }
    {
        &self.counts
    }

    /// The server has started: its waking thread and this many writers leave their marks here.
    pub fn watch(&self, rt: &impl Wait, wake_signal: Arc<WakeSignal, Global>, writers: usize) {
        *self.marked_threads.lock(rt) = Some(MarkedThreads {
            wake_signal,
            writers,
        });
    }

    /// Reads the marks of the threads that serve many. The only error is out of memory.
    pub fn marks(&self, rt: &impl Wait) -> Result<Vec<ThreadLook>, AllocError> {
        marks_of(self.alloc, &self.counts, &self.marked_threads.lock(rt))
    }

    /// A connection's mount is recorded.
    pub(crate) fn mount_begins(
        &self,
        rt: &impl Wait,
        alloc: Global,
        conn: u64,
        mount: ReportedMount<'_>,
    ) -> Result<(), AllocError> {
        let began = mount.signal.last_packet(rt);
        let mount = Mount::new(alloc, conn, began, mount)?;
        self.list.lock(rt).add_mount(mount)
    }

    /// A connection's mount has ended, if it has one.
    pub(crate) fn mount_ends(&self, rt: &impl Wait, conn: u64) {
        self.list.lock(rt).end_mount(rt, conn);
    }

    /// A connection plays from this seat, which it took at this moment, in milliseconds.
    pub(crate) fn player_begins(
        &self,
        rt: &impl Wait,
        alloc: Global,
        conn: u64,
        now: u64,
        seat: ReportedSeat<'_>,
    ) -> Result<(), AllocError> {
        let player = Player::new(alloc, conn, now, seat)?;
        self.list.lock(rt).add_player(player)
    }

    /// A connection has left its seat. What of this account isn't sent yet may still be.
    pub(crate) fn player_leaves(&self, rt: &impl Wait, conn: u64, account: &SeatAccount) {
        self.list.lock(rt).leave(conn, account);
    }

    /// The account of a seat of a mount of this name is closed. It was `left` when the seat was given up.
    pub(crate) fn seat_is_settled(
        &self,
        rt: &impl Wait,
        name: &[u8],
        left: &SeatAccount,
        account: &SeatAccount,
    ) {
        self.list.lock(rt).settle(name, left, account);
    }

    /// Returns the figures of the server and of each mount and each player at this moment, in milliseconds. The only error is out of
    /// memory.
    pub fn snapshot(&self, rt: &impl Wait, now: u64) -> Result<Snapshot, AllocError> {
        let server = self.counts.figures();
        self.list
            .lock(rt)
            .snapshot(rt, self.alloc, self.keep, server, now)
    }

    /// Waits until `distance` has passed, or they are closed. Returns whether they are closed.
    pub fn wait<R: Wait + Clock>(&self, rt: &R, distance: Duration) -> bool {
        let (list, _) = self
            .closed
            .wait_timeout_while(rt, self.list.lock(rt), distance, |list| { !list.is_closed });
        list.is_closed
    }

    /// Reports at this moment what came since the last report.
    pub fn tell<R: Wait + Clock>(&self, rt: &R, lines: &Lines<R>, now: u64) {
        let mut list = self.list.lock(rt);
        match list.snapshot(rt, self.alloc, self.keep, self.counts.figures(), now) {
            Ok(snapshot) => list.tell(lines, &snapshot),
            Err(_) => lines.miss(),
        }
    }

    /// Closes them: `wait` returns at once.
    pub fn close(&self, rt: &impl Wait) {
        self.list.lock(rt).is_closed = true;
        self.closed.notify_all();
    }
}
