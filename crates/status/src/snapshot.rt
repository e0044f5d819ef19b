//! The mounts and players of a server at one moment.
ghost use Rattle.std.specs.Prelude.{◌≡◌, [], count_by, filter, not};
ghost use Rattle.mount_series.specs.Sums.{nothing};
ghost use Rattle.status.specs.Names.{behind_of, goes_on_as, last_of, latest, plays_from, sums_of, sums_of_all, with_mounts, with_players};

use crate::mount_status::MountStatus;
use crate::player_status::PlayerStatus;
use mount_series::{MountSums, NamedSums};
use server_counts::ServerFigures;
use std::alloc::Global;

/// The mounts that are recorded, in the order in which they came, and the players that have a seat, in the order in which the
/// next report tells of them, each with its figures. Those that have ended since the last report are among them, and are marked.
///
/// Beside them are the sums of mounts that have ended and of players that have left, by the name of the mount.
pub struct Snapshot {
    /// When it was made, in milliseconds of the server's clock.
    pub made: u64,
    pub mounts: Vec<MountStatus>,
    pub players: Vec<PlayerStatus>,
    /// The names of mounts that are recorded and of the last to end, each once, with what has ended.
    pub named: Vec<NamedSums>,
    /// What has ended, of all names that there ever were.
    pub ended: MountSums,
    /// What the server counts of connections, sessions and what it refuses.
    pub server: ServerFigures,
}

impl Drop for Snapshot {
    fn drop(self) {
        let Snapshot {
            made: _,
            mounts: _,
            players: _,
            named: _,
            ended: _,
            server: _,
        } = self;
    }
}

impl Snapshot {
    /// The snapshot of a server with these figures of its own, to which nothing came.
    pub fn new(alloc: Global, server: ServerFigures) -> Snapshot
        ensures made { result.made ≡ 0 }
        ensures mounts { result.mounts.items ≡ [] }
        ensures players { result.players.items ≡ [] }
        ensures named { result.named.items ≡ [] }
        ensures ended { result.ended ≡ nothing }
        ensures server { result.server ≡ server }
    {
        Snapshot {
            made: 0,
            mounts: Vec::new(alloc),
            players: Vec::new(alloc),
            named: Vec::new(alloc),
            ended: MountSums::nothing(),
            server,
        }
    }

    /// Returns what became of the packets of a name's mounts and players, of those that have ended and of those that go on: each is
    /// counted once.
    pub fn sums_of(&self, named: &NamedSums) -> MountSums
        ensures { result ≡ sums_of self.now named.now }
    {
        let name = named.name.as_slice();
        let came = with_mounts_of(named.sums, self.mounts.as_slice(), name);
        with_players_of(came, self.players.as_slice(), name)
    }

    /// Returns what became of the packets of all mounts and players that there ever were: each is counted once.
    pub fn sums(&self) -> MountSums
        ensures { result ≡ sums_of_all self.now }
    {
        let came = with_live_mounts(self.ended, self.mounts.as_slice());
        with_seated_players(came, self.players.as_slice())
    }

    /// Returns how many players have a seat of a mount of this name.
    pub fn players_of(&self, name: &[u8]) -> usize
        ensures { result ≡ count_by (plays_from name.now) self.now.players.items }
    {
        self.players
            .iter()
            .filter(|player| player.plays_from(name))
            .count()
    }

    /// Returns how many packets the player of a mount of this name is behind that is furthest behind. 0 if there is none.
    pub fn behind_of(&self, name: &[u8]) -> u64
        ensures { result ≡ behind_of name.now self.now.players.items }
    {
        self.players
            .iter()
            .filter(|player| player.plays_from(name))
            .fold(0, |most, player| player.behind.max(most))
    }

    /// Returns when the last packet of a name came, in milliseconds of the server's clock: to its mounts that are recorded, or if
    /// there are none, to those that have ended. For a mount to which none came this is its first RECORD.
    pub fn last_of(&self, named: &NamedSums) -> u64
        ensures { result ≡ last_of self.now named.now }
    {
        let name = named.name.as_slice();
        let going = self
            .mounts
            .iter()
            .filter(|mount| mount.goes_on_as(name))
            .count();
        if going > 0 {
            latest_of(self.mounts.as_slice(), name, self.made)
        } else {
            named.last
        }
    }
}

/// Returns the latest moment at which a packet came to a mount that is recorded under this name, and 0 if there is none.
fn latest_of(mounts: &[MountStatus], name: &[u8], now: u64) -> u64
    ensures { result ≡ latest now (filter (goes_on_as name.now) mounts.now) }
{
    mounts.iter().filter(|mount| mount.goes_on_as(name)).fold(
        0,
        |last, mount| now.saturating_sub(mount.silence).max(last),
    )
}

/// Returns the sums with what has come to the mounts that are recorded under this name.
fn with_mounts_of(sums: MountSums, mounts: &[MountStatus], name: &[u8]) -> MountSums
    ensures { result ≡ with_mounts sums (filter (goes_on_as name.now) mounts.now) }
{
    mounts
        .iter()
        .filter(|mount| mount.goes_on_as(name))
        .fold(sums, |sums, mount| sums.with_mount(&mount.tally))
}

/// Returns the sums with what has become of the packets of the players that have a seat of a mount of this name.
fn with_players_of(sums: MountSums, players: &[PlayerStatus], name: &[u8]) -> MountSums
    ensures { result ≡ with_players sums (filter (plays_from name.now) players.now) }
{
    players
        .iter()
        .filter(|player| player.plays_from(name))
        .fold(sums, |sums, player| sums.with_player(player.account()))
}

/// Returns the sums with what has come to the mounts that are recorded.
fn with_live_mounts(sums: MountSums, mounts: &[MountStatus]) -> MountSums
    ensures { result ≡ with_mounts sums (filter (λ mount. not mount.has_ended) mounts.now) }
{
    mounts
        .iter()
        .filter(|mount| !mount.has_ended)
        .fold(sums, |sums, mount| sums.with_mount(&mount.tally))
}

/// Returns the sums with what has become of the packets of the players that have a seat.
fn with_seated_players(sums: MountSums, players: &[PlayerStatus]) -> MountSums
    ensures { result ≡ with_players sums (filter (λ player. not player.has_left) players.now) }
{
    players
        .iter()
        .filter(|player| !player.has_left)
        .fold(sums, |sums, player| sums.with_player(player.account()))
}
