//! What reports know of mounts and players, and the lines of a report.
ghost use Rattle.std.specs.Prelude.{◌≡◌, ◌↔◌, ◌<◌, ◌∷◌, [], ◌++◌, IsTrue, None, IfOk, IfSome, IsSomeAnd, OnOk, OnErr, length, slice_get};
ghost use Rattle.mount_series.specs.Sums.{with_player};
ghost use Rattle.relay_log.specs.Leaving.{HasLeft, at_its_end, recorded_in, rest_of, seated_in};

use crate::limits::REPORT_LINES;
use crate::lines::Lines;
use crate::reports::figures::{copies_of, figures_of_mounts, figures_of_players};
use crate::reports::reported_mount::Mount;
use crate::reports::reported_player::Player;
use crate::reports::told::{Told, turn};
use log::info;
use mount_series::MountSeries;
use relay_accounts::SeatAccount;
use server_counts::ServerFigures;
use status::{MountLine, PlayerLine, Snapshot};
use std::alloc::{AllocError, Global};
use std::sync::Wait;
use std::time::Clock;

/// The source that lines are logged with.
const TARGET: &str = "relay_server::reports";

/// The mounts and the players that go on or are to be reported, and the sums of those that have ended.
pub(super) struct List {
    pub(super) mounts: Vec<Mount>,
    pub(super) players: Vec<Player>,
    pub(super) series: MountSeries,
    /// Whether reports are logged.
    pub(super) is_told: bool,
    pub(super) is_closed: bool,
}

impl Drop for List {
    fn drop(self) {
        let List {
            mounts: _,
            players: _,
            series: _,
            is_told: _,
            is_closed: _,
        } = self;
    }
}

impl List {
    /// Adds a mount at the end. The only error is out of memory. What comes to a mount whose name has no sums is in the totals alone.
    pub(super) fn add_mount(&mut self, mount: Mount) -> Result<(), AllocError>
        ensures added { OnOk result (self.new.mounts.items ≡ self.old.mounts.items ++ mount ∷ []) }
        ensures err { OnErr result (self.new.mounts.items ≡ self.old.mounts.items) }
        ensures series { OnErr result (self.new.series ≡ self.old.series) }
        ensures players { self.new.players ≡ self.old.players }
        ensures is_closed { self.new.is_closed ≡ self.old.is_closed }
    {
        self.mounts.reserve(1)?;
        let _ = self.series.begin(mount.name.as_slice());
        self.mounts.push_reserved(mount);
        Ok(())
    }

    /// Adds a player at the end. The only error is out of memory.
    pub(super) fn add_player(&mut self, player: Player) -> Result<(), AllocError>
        ensures added { OnOk result (self.new.players.items ≡ self.old.players.items ++ player ∷ []) }
        ensures err { OnErr result (self.new.players.items ≡ self.old.players.items) }
        ensures mounts { self.new.mounts ≡ self.old.mounts }
        ensures series { self.new.series ≡ self.old.series }
        ensures is_closed { self.new.is_closed ≡ self.old.is_closed }
    {
        self.players.push(player)?;
        Ok(())
    }

    /// Ends a mount: what came to it is in the sums of its name. It stays in the list until it is reported, if packets came since its
    /// last report and fewer than 100 others wait.
    pub(super) fn end_mount(&mut self, rt: &impl Wait, conn: u64)
        ensures players { self.new.players ≡ self.old.players }
    {
        let Some(place) = recorded_at(self.mounts.as_slice(), conn) else {
            return;
        };
        let ended = self.mounts.iter().filter(|mount| mount.has_ended).count();
        let mount = &mut self.mounts[place];
        let came = mount.signal.tally(rt);
        let last = mount.signal.last_packet(rt);
        self.series.end(mount.name.as_slice(), &came, last);
        let has_news = self.is_told && !came.since(&mount.told).is_nothing();
        if may_wait(has_news, ended) {
            mount.has_ended = true;
        } else {
            self.mounts.remove(place);
        }
    }

    /// A player leaves: this account, but for what isn't sent, is in the sums of its mount's name. It stays in the list until it is
    /// reported, if it has lost packets since its last report and fewer than 100 others wait.
    pub(super) fn leave(&mut self, conn: u64, account: &SeatAccount)
        ensures mounts { self.new.mounts ≡ self.old.mounts }
        ensures totals { IfSome (seated_in conn self.old.players.items) (λ place. self.new.series.totals ≡ with_player self.old.series.totals (at_its_end account.now)) }
        ensures named { IfSome (seated_in conn self.old.players.items) (λ place. IsSomeAnd (slice_get self.old.players.items place) (λ player. HasLeft player.name (at_its_end account.now) self.old.series.named self.new.series.named)) }
        ensures none { seated_in conn self.old.players.items ≡ None → self.new ≡ self.old }
    {
        let Some(place) = seated_at(self.players.as_slice(), conn) else {
            return;
        };
        let gone = self
            .players
            .iter()
            .filter(|player| player.left.is_some())
            .count();
        let player = &mut self.players[place];
        self.series
            .leave(player.name.as_slice(), at_its_end(account));
        let has_lost = self.is_told && account.lost > player.told.lost;
        if may_wait(has_lost, gone) {
            player.left = Some(*account);
        } else {
            self.players.remove(place);
        }
    }

    /// The account of a seat of a mount of this name is closed, and was `left` when the seat was given up: the rest of it is in the
    /// sums, too.
    pub(super) fn settle(&mut self, name: &[u8], left: &SeatAccount, account: &SeatAccount)
        ensures totals { self.new.series.totals ≡ with_player self.old.series.totals (rest_of left.now account.now) }
        ensures named { HasLeft name.now (rest_of left.now account.now) self.old.series.named self.new.series.named }
        ensures mounts { self.new.mounts ≡ self.old.mounts }
        ensures players { self.new.players ≡ self.old.players }
    {
        self.series.leave(name, rest_of(left, account));
    }

    /// Returns the figures of each mount and each player at this moment, in the order of the lists, and the sums of those that have
    /// ended, beside these figures of the server.
    pub(super) fn snapshot(
        &mut self,
        rt: &impl Wait,
        alloc: Global,
        keep: u64,
        server: ServerFigures,
        now: u64,
    ) -> Result<Snapshot, AllocError>
        ensures server { IfOk result (λ snapshot. snapshot.server ≡ server) }
        ensures made { IfOk result (λ snapshot. snapshot.made ≡ now) }
        ensures named { IfOk result (λ snapshot. snapshot.named.items ≡ self.old.series.named) }
        ensures ended { IfOk result (λ snapshot. snapshot.ended ≡ self.old.series.totals) }
        ensures each_mount { IfOk result (λ snapshot. length snapshot.mounts.items ≡ length self.old.mounts.items) }
        ensures each_player { IfOk result (λ snapshot. length snapshot.players.items ≡ length self.old.players.items) }
        ensures series { self.new.series ≡ self.old.series }
        ensures kept { self.new.mounts ≡ self.old.mounts }
    {
        let mounts = figures_of_mounts(
            rt,
            alloc,
            self.mounts.as_slice(),
            self.players.as_slice(),
            now,
        )?;
        let players = figures_of_players(rt, alloc, keep, self.players.as_mut_slice(), now)?;
        Ok(Snapshot {
            made: now,
            server,
            mounts,
            players,
            named: copies_of(alloc, self.series.named())?,
            ended: self.series.totals(),
        })
    }

    /// Reports each mount, and each player that lost packets since its last report.
    pub(super) fn tell<R: Wait + Clock>(&mut self, lines: &Lines<R>, snapshot: &Snapshot) {
        let mut told = Told::new();
        self.tell_mounts(lines, snapshot, &mut told);
        self.tell_players(lines, snapshot, &mut told);
        if told.more > 0 {
            let more = told.more;
            info!(lines; target: TARGET, "{more} more");
        }
    }

    /// Reports the mounts. One that has ended is removed after all that came to it is reported.
    fn tell_mounts<R: Wait + Clock>(
        &mut self,
        lines: &Lines<R>,
        snapshot: &Snapshot,
        told: &mut Told,
    ) {
        for (mount, status) in self.mounts.iter_mut().zip(&snapshot.mounts) {
            if let Some(since) = mount.tell(status, told) {
                let line = MountLine { status, since };
                info!(lines; target: TARGET, "{line}");
            }
        }
        let mut rest = snapshot.mounts.iter();
        self.mounts.retain(|mount| match rest.next() {
            Some(status) => !mount.has_ended || !status.tally.since(&mount.told).is_nothing(),
            None => true,
        });
    }

    /// Reports the players that find room. The list begins with the first that finds none the next time.
    fn tell_players<R: Wait + Clock>(
        &mut self,
        lines: &Lines<R>,
        snapshot: &Snapshot,
        told: &mut Told,
    ) {
        let end = told.count_players(snapshot.players.as_slice());
        let told_of = &snapshot.players[..end];
        for (player, status) in self.players.iter_mut().zip(told_of) {
            if status.has_lost() {
                player.told = status.told();
                let line = PlayerLine { status };
                info!(lines; target: TARGET, "{line}");
            }
        }
        turn(self.players.as_mut_slice(), end);
        self.players.retain(|player| {
            !player
                .left
                .is_some_and(|left| left.lost <= player.told.lost)
        });
    }
}

/// Returns what is known of a seat's account when the seat is left: what isn't sent then may still be.
fn at_its_end(account: &SeatAccount) -> SeatAccount
    ensures { result ≡ at_its_end account.now }
{
    SeatAccount {
        unsent: 0,
        ..*account
    }
}

/// Returns what a seat's account has once it is closed, beside the account as it was when the seat was left.
fn rest_of(left: &SeatAccount, account: &SeatAccount) -> SeatAccount
    ensures { result ≡ rest_of left.now account.now }
{
    SeatAccount {
        sent: account.sent.saturating_sub(left.sent),
        skipped: 0,
        lost: 0,
        unsent: account.unsent,
        bytes: account.bytes.saturating_sub(left.bytes),
    }
}

/// Returns whether a mount that ends or a player that leaves waits to be reported, beside so many that wait: there is something to
/// report of it, and fewer than 100 wait.
fn may_wait(has_news: bool, waiting: usize) -> bool
    ensures { IsTrue result ↔ (IsTrue has_news × (waiting < 100)) }
{
    has_news && waiting < REPORT_LINES
}

/// Returns the place of the mount that a connection records. `None` if it records none.
fn recorded_at(mounts: &[Mount], conn: u64) -> Option<usize>
    ensures { result ≡ recorded_in conn mounts.now }
{
    mounts
        .iter()
        .position(|mount| mount.conn == conn && !mount.has_ended)
}

/// Returns the place of the player of a connection that has its seat. `None` if there is none.
fn seated_at(players: &[Player], conn: u64) -> Option<usize>
    ensures { result ≡ seated_in conn players.now }
{
    players
        .iter()
        .position(|player| player.conn == conn && player.left.is_none())
}
