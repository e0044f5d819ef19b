//! The figures of a mount, for any thread that reads them meanwhile.
use pacing::{Recent, Start};
use publisher::Fate;
use relay_accounts::MountTally;
use std::alloc::{AllocError, Global};
use std::sync::atomic::{AtomicU64, Ordering};
use std::sync::{Mutex, Wait};

/// The figures of a mount's publisher and of the players in its seats.
///
/// The lock is held for a look or a change, and no other is taken meanwhile. Each number of a player is written by one
/// thread at a time, and any thread may read it, by itself.
pub(crate) struct Tallies {
    came: Mutex<Came>,
    players: Vec<PlayerTally>,
}

impl Drop for Tallies {
    fn drop(self) {
        let Tallies {
            came: _,
            players: _,
        } = self;
    }
}

/// What came to a mount, when its last packet did, in milliseconds of the server's clock, and where its log was in the last ten
/// seconds.
#[derive(Drop)]
struct Came {
    tally: MountTally,
    last: u64,
    recent: Recent,
    /// Whether a player's start was shortened.
    is_shortened: bool,
}

/// Where the log was when the player took its seat, and what became of the packets since.
#[derive(Drop)]
struct PlayerTally {
    start: AtomicU64,
    sent: AtomicU64,
    bytes: AtomicU64,
    skipped: AtomicU64,
    lost: AtomicU64,
}

impl Tallies {
    /// The figures of a mount with `seats` seats to which nothing came.
    pub(crate) fn new(alloc: Global, seats: usize) -> Result<Tallies, AllocError> {
        let mut players = Vec::with_capacity(alloc, seats)?;
        for _ in 0..seats {
            players.push(PlayerTally {
                start: AtomicU64::new(0),
                sent: AtomicU64::new(0),
                bytes: AtomicU64::new(0),
                skipped: AtomicU64::new(0),
                lost: AtomicU64::new(0),
            })?;
        }
        Ok(Tallies {
            came: Mutex::new(Came {
                tally: MountTally::new(),
                last: 0,
                recent: Recent::new(alloc)?,
                is_shortened: false,
            }),
            players,
        })
    }

    /// Counts a frame with `bytes` bytes of data that came at this moment and met this fate.
    pub(crate) fn add(&self, rt: &impl Wait, fate: Fate, bytes: usize, now: u64) {
        let mut came = self.came.lock(rt);
        let number = came.tally.packets;
        came.tally.add(fate, bytes as u64);
        if let Fate::Published { .. } = fate {
            came.last = now;
            came.recent.note(now, number);
        }
    }

    /// Counts a packet of a track that the publisher offers, if it is an RTP packet.
    pub(crate) fn offer(&self, rt: &impl Wait, track: usize, packet: &[u8]) {
        self.came.lock(rt).tally.tracks.offered(track, packet);
    }

    /// Notes that a RECORD was accepted.
    pub(crate) fn recorded(&self, rt: &impl Wait) {
        self.came.lock(rt).tally.tracks.recorded();
    }

    /// Returns how many packets of all tracks were missing as they came.
    pub(crate) fn missing(&self, rt: &impl Wait) -> u64 {
        self.came.lock(rt).tally.tracks.total().missing()
    }

    /// The mount is recorded from this moment on.
    pub(crate) fn begin(&self, rt: &impl Wait, now: u64) {
        self.came.lock(rt).last = now;
    }

    /// Sets for how many milliseconds in total packets have waited for players.
    pub(crate) fn set_slowed(&self, rt: &impl Wait, milliseconds: u64) {
        self.came.lock(rt).tally.slowed = milliseconds;
    }

    /// Returns what became of the frames that came to the mount.
    pub(crate) fn of_mount(&self, rt: &impl Wait) -> MountTally {
        self.came.lock(rt).tally
    }

    /// Returns how many packets were published.
    pub(crate) fn packets(&self, rt: &impl Wait) -> u64 {
        self.came.lock(rt).tally.packets
    }

    /// Returns the moment of its last packet, or of its first RECORD if no packet came.
    pub(crate) fn last(&self, rt: &impl Wait) -> u64 {
        self.came.lock(rt).last
    }

    /// Returns where a player starts at this moment that is to be sent the packets of the last `milliseconds`, of a ring that keeps
    /// `keep`, and whether it is the first player of the mount whose start is shortened.
    pub(crate) fn start(
        &self,
        rt: &impl Wait,
        now: u64,
        milliseconds: u64,
        keep: u64,
    ) -> (Start, bool) {
        let mut came = self.came.lock(rt);
        let start = came
            .recent
            .start(now, milliseconds, came.tally.packets, keep);
        let is_first = start.packets < start.wanted && !came.is_shortened;
        came.is_shortened |= is_first;
        (start, is_first)
    }

    /// A player has taken a seat, and its cursor is `start`: it was sent and has lost nothing.
    pub(crate) fn begin_player(&self, seat: usize, start: u64) {
        if let Some(player) = self.players.get(seat) {
            player.start.store(start, Ordering::SeqCst);
        }
        self.set_player(seat, 0, 0, 0, 0);
    }

    /// Sets how many packets the player in a seat was sent and how many bytes these have, how many packets it skipped, and how many were
    /// reported lost to it, in total.
    pub(crate) fn set_player(&self, seat: usize, sent: u64, bytes: u64, skipped: u64, lost: u64) {
        if let Some(player) = self.players.get(seat) {
            player.sent.store(sent, Ordering::SeqCst);
            player.bytes.store(bytes, Ordering::SeqCst);
            player.skipped.store(skipped, Ordering::SeqCst);
            player.lost.store(lost, Ordering::SeqCst);
        }
    }

    /// Returns the cursor at which the player in a seat took it.
    pub(crate) fn player_start(&self, seat: usize) -> u64 {
        match self.players.get(seat) {
            Some(player) => player.start.load(Ordering::SeqCst),
            None => 0,
        }
    }

    /// Returns how many packets the player in a seat was sent.
    pub(crate) fn sent(&self, seat: usize) -> u64 {
        match self.players.get(seat) {
            Some(player) => player.sent.load(Ordering::SeqCst),
            None => 0,
        }
    }

    /// Returns how many bytes the packets have that the player in a seat was sent.
    pub(crate) fn bytes(&self, seat: usize) -> u64 {
        match self.players.get(seat) {
            Some(player) => player.bytes.load(Ordering::SeqCst),
            None => 0,
        }
    }

    /// Returns how many packets the player in a seat skipped, since their tracks aren't set up.
    pub(crate) fn skipped(&self, seat: usize) -> u64 {
        match self.players.get(seat) {
            Some(player) => player.skipped.load(Ordering::SeqCst),
            None => 0,
        }
    }

    /// Returns how many packets were reported lost to the player in a seat.
    pub(crate) fn lost(&self, seat: usize) -> u64 {
        match self.players.get(seat) {
            Some(player) => player.lost.load(Ordering::SeqCst),
            None => 0,
        }
    }
}
