//! The figures of each name.
ghost use Rattle.std.specs.Prelude.{◌≡◌, map, IfOk};
ghost use Rattle.status_texts.specs.Figures.{figures_of};

use crate::track_figures::{TrackFigures, tracks_of};
use mount_series::{MountSums, NamedSums};
use relay_accounts::{MountTally, SeatAccount};
use status::Snapshot;
use std::alloc::{AllocError, Global};
use std::marker::Model;

/// The figures of the mounts of a name, which each cost a walk over all players, so that they are computed once.
#[derive(Drop)]
pub(crate) struct NameFigures<'a> {
    name: &'a [u8],
    sums: MountSums,
    tracks: Vec<TrackFigures>,
    is_live: bool,
    players: u64,
    behind: u64,
    silence: u64,
}

impl<'a> Model for NameFigures<'a> {
    ghost use Rattle.status_texts.specs.Name.{Figures};

    ghost Value = { Figures };

    ghost view = { λ f. record {
      name = f.name.now;
      sums = f.sums;
      tracks = f.tracks.items;
      is_live = f.is_live;
      players = f.players;
      behind = f.behind;
      silence = f.silence;
    } };
}

impl<'a> NameFigures<'a> {
    /// Returns the figures of a name.
    #[tactic(auto, unfolding(crate::specs::Figures::figures_of))]
    fn of(
        alloc: Global,
        snapshot: &Snapshot,
        named: &'a NamedSums,
    ) -> Result<NameFigures<'a>, AllocError>
        ensures { IfOk result (λ figures. figures ≡ figures_of snapshot.now named.now) }
    {
        let name = named.name.as_slice();
        let sums = snapshot.sums_of(named);
        Ok(NameFigures {
            name,
            tracks: tracks_of(alloc, &sums.came.tracks)?,
            sums,
            is_live: named.recorded > 0,
            players: snapshot.players_of(name) as u64,
            behind: snapshot.behind_of(name),
            silence: snapshot.made.saturating_sub(snapshot.last_of(named)),
        })
    }

    pub(crate) fn name(&self) -> &'a [u8]
        ensures { result.now ≡ self.now.name }
    {
        self.name
    }

    /// What came to the mounts of the name.
    pub(crate) fn came(&self) -> &MountTally
        ensures { result.now ≡ self.now.sums.came }
    {
        &self.sums.came
    }

    /// The counts of each track that has some.
    pub(crate) fn tracks(&self) -> &[TrackFigures]
        ensures { result.now ≡ self.now.tracks }
    {
        self.tracks.as_slice()
    }

    /// What became of the packets of their players.
    pub(crate) fn player_packets(&self) -> &SeatAccount
        ensures { result.now ≡ self.now.sums.players }
    {
        &self.sums.players
    }

    /// Whether a mount of the name is recorded.
    pub(crate) fn is_live(&self) -> bool
        ensures { result ≡ self.now.is_live }
    {
        self.is_live
    }

    /// How many players have a seat.
    pub(crate) fn players(&self) -> u64
        ensures { result ≡ self.now.players }
    {
        self.players
    }

    /// How many packets the player is behind that is furthest behind.
    pub(crate) fn behind(&self) -> u64
        ensures { result ≡ self.now.behind }
    {
        self.behind
    }

    /// How many milliseconds ago the last packet came.
    pub(crate) fn silence(&self) -> u64
        ensures { result ≡ self.now.silence }
    {
        self.silence
    }
}

/// Returns the figures of each name of a snapshot.
pub(crate) fn figures_of(
    alloc: Global,
    snapshot: &Snapshot,
) -> Result<Vec<NameFigures<'_>>, AllocError>
    ensures { IfOk result (λ figures. figures.items ≡ map (figures_of snapshot.now) snapshot.now.named.items) }
{
    let mut figures = Vec::new(alloc);
    for named in &snapshot.named {
        figures.push(NameFigures::of(alloc, snapshot, named)?)?;
    }
    Ok(figures)
}
