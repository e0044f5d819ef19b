//! The figures of mounts and players at one moment, and copies of sums.
ghost use Rattle.std.specs.Prelude.{◌≡◌, length, IfOk};
ghost use Rattle.relay_log.specs.Leaving.{players_of};

use crate::reports::reported_mount::Mount;
use crate::reports::reported_player::Player;
use base_syntax::Bytes;
use mount_series::NamedSums;
use status::{MountStatus, PlayerStatus};
use std::alloc::{AllocError, Global};
use std::sync::Wait;

/// Returns the figures of these mounts at this moment, each with how many of these players it has.
pub(super) fn figures_of_mounts(
    rt: &impl Wait,
    alloc: Global,
    mounts: &[Mount],
    players: &[Player],
    now: u64,
) -> Result<Vec<MountStatus>, AllocError>
    ensures each { IfOk result (λ figures. length figures.items ≡ length mounts.now) }
{
    let mut figures = Vec::new(alloc);
    for mount in mounts {
        let seated = count_players_of(players, mount.number);
        figures.push(mount.status(rt, alloc, seated, now)?)?;
    }
    Ok(figures)
}

/// Returns the figures of these players at this moment, in rings that keep `keep` packets.
pub(super) fn figures_of_players(
    rt: &impl Wait,
    alloc: Global,
    keep: u64,
    players: &mut [Player],
    now: u64,
) -> Result<Vec<PlayerStatus>, AllocError>
    ensures each { IfOk result (λ figures. length figures.items ≡ length players.old) }
{
    let mut figures = Vec::new(alloc);
    for player in players {
        figures.push(player.status(rt, alloc, keep, now)?)?;
    }
    Ok(figures)
}

/// Returns a copy of the sums of each name. The only error is out of memory.
pub(super) fn copies_of(alloc: Global, named: &[NamedSums]) -> Result<Vec<NamedSums>, AllocError>
    ensures { IfOk result (λ copies. copies.items ≡ named.now) }
{
    let mut copies = Vec::new(alloc);
    for sums in named {
        copies.push(copy_of(alloc, sums)?)?;
    }
    Ok(copies)
}

/// Returns a copy of the sums of a name. The only error is out of memory.
fn copy_of(alloc: Global, named: &NamedSums) -> Result<NamedSums, AllocError>
    ensures { IfOk result (λ copied. copied ≡ named.now) }
{
    Ok(NamedSums {
        name: Bytes::from_slice(alloc, named.name.as_slice())?,
        recorded: named.recorded,
        ended: named.ended,
        last: named.last,
        sums: named.sums,
    })
}

/// Returns how many players have a seat of the mount of this number.
fn count_players_of(players: &[Player], mount: u64) -> usize
    ensures { result ≡ players_of mount players.now }
{
    players
        .iter()
        .filter(|player| player.mount == mount && player.left.is_none())
        .count()
}
