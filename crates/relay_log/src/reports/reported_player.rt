//! The players of reports.
ghost use Rattle.std.specs.Prelude.{◌≡◌, ◌-◌, None, IfOk, IfSome, is_some};
ghost use Rattle.std.specs.Arc.{arc_value};
ghost use Rattle.relay_log.specs.Shown.{IsShownFrom, largest_of, last_figures, nothing_shown, shown_by};

use crate::reports::shown::Shown;
use base_syntax::Bytes;
use mount_signals::{MountSignal, PlayerFigures};
use relay_accounts::SeatAccount;
use status::{PlayerStatus, PlayerTold};
use std::alloc::{AllocError, Global};
use std::net::SocketAddr;
use std::sync::{Arc, Wait};

/// A player's seat that is to be reported.
#[derive(Drop)]
pub(crate) struct ReportedSeat<'a> {
    pub(crate) peer: SocketAddr,
    pub(crate) mount: u64,
    pub(crate) name: &'a [u8],
    pub(crate) seat: usize,
    pub(crate) signal: &'a Arc<MountSignal, Global>,
}

/// A player that has a seat, or has left it since its last report.
pub(super) struct Player {
    pub(super) conn: u64,
    pub(super) peer: SocketAddr,
    pub(super) mount: u64,
    pub(super) name: Bytes,
    pub(super) seat: usize,
    pub(super) signal: Arc<MountSignal, Global>,
    pub(super) told: PlayerTold,
    /// The largest figures that a snapshot had of it.
    most: Shown,
    /// When it took its seat, in milliseconds.
    pub(super) began: u64,
    /// Its account when it left its seat. `None` if it has its seat.
    pub(super) left: Option<SeatAccount>,
}

impl Drop for Player {
    fn drop(self) {
        let Player {
            conn: _,
            peer: _,
            mount: _,
            name: _,
            seat: _,
            signal: _,
            told: _,
            most: _,
            began: _,
            left: _,
        } = self;
    }
}

impl Player {
    /// A connection's player in this seat, which it took at this moment, in milliseconds, and of which nothing was reported.
    pub(super) fn new(
        alloc: Global,
        conn: u64,
        began: u64,
        seat: ReportedSeat<'_>,
    ) -> Result<Player, AllocError>
        ensures conn { IfOk result (λ player. player.conn ≡ conn) }
        ensures peer { IfOk result (λ player. player.peer ≡ seat.entry.peer) }
        ensures place { IfOk result (λ player. (player.mount ≡ seat.entry.mount) × (player.seat ≡ seat.entry.seat)) }
        ensures name { IfOk result (λ player. player.name ≡ seat.entry.name.now) }
        ensures signal { IfOk result (λ player. arc_value player.signal ≡ arc_value seat.entry.signal.now) }
        ensures nothing_told { IfOk result (λ player. player.told ≡ record { sent = 0; lost = 0 }) }
        ensures nothing_shown { IfOk result (λ player. player.most ≡ nothing_shown) }
        ensures began { IfOk result (λ player. player.began ≡ began) }
        ensures seated { IfOk result (λ player. player.left ≡ None) }
    {
        let name = Bytes::from_slice(alloc, seat.name)?;
        let signal = Arc::try_clone(seat.signal)?;
        Ok(Player {
            conn,
            peer: seat.peer,
            mount: seat.mount,
            name,
            seat: seat.seat,
            signal,
            told: PlayerTold::nothing(),
            most: Shown::nothing(),
            began,
            left: None,
        })
    }

    /// Returns its figures at this moment, in a ring that keeps `keep` packets. None is less than in an earlier snapshot.
    pub(super) fn status(
        &mut self,
        rt: &impl Wait,
        alloc: Global,
        keep: u64,
        now: u64,
    ) -> Result<PlayerStatus, AllocError>
        ensures peer { IfOk result (λ status. status.peer ≡ self.old.peer) }
        ensures mount { IfOk result (λ status. status.mount ≡ self.old.name) }
        ensures seat { IfOk result (λ status. status.seat ≡ self.old.seat) }
        ensures age { IfOk result (λ status. status.age ≡ now - self.old.began) }
        ensures has_left { IfOk result (λ status. status.has_left ≡ is_some self.old.left) }
        ensures since { IfOk result (λ status. status.since ≡ record { sent = status.sent - self.old.told.sent; lost = status.lost - self.old.told.lost }) }
        ensures shown { IfOk result (λ status. self.new.most ≡ shown_by status) }
        ensures grows { IsShownFrom self.old.most self.new.most }
        ensures left { IfSome self.old.left (λ account. self.new.most ≡ largest_of self.old.most (last_figures account)) }
        ensures same { self.new ≡ record self.old { most = self.new.most } }
    {
        let figures = self.figures(rt, keep);
        // The numbers that they are computed from are read one by one, so they may be less than they were.
        let shown = self.most.or_larger(figures);
        self.most = shown;
        Ok(PlayerStatus {
            peer: self.peer,
            mount: Bytes::from_slice(alloc, self.name.as_slice())?,
            seat: self.seat,
            sent: shown.sent,
            skipped: shown.skipped,
            lost: shown.lost,
            bytes: shown.bytes,
            behind: figures.behind,
            published: shown.published,
            age: now.saturating_sub(self.began),
            has_left: self.left.is_some(),
            since: PlayerTold {
                sent: shown.sent,
                lost: shown.lost,
            }
            .since(self.told),
        })
    }

    /// Returns its figures as they are read now, or as they were when it left its seat.
    fn figures(&self, rt: &impl Wait, keep: u64) -> PlayerFigures
        ensures { IfSome self.now.left (λ account. result ≡ last_figures account) }
    {
        match self.left {
            Some(account) => PlayerFigures {
                sent: account.sent,
                skipped: account.skipped,
                lost: account.lost,
                behind: 0,
                bytes: account.bytes,
                published: account.published(),
            },
            None => self.signal.player(rt, self.seat, keep),
        }
    }
}
