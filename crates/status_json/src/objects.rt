//! Names, mounts and players as objects of JSON.
ghost use Rattle.std.specs.Prelude.{◌≡◌, ◌++◌, IfOk, OnErr, OnOk, length, map, take};
ghost use Rattle.status_json.specs.Status.{figures_front, figures_in, figures_in_text, figures_out_text, player_back, player_front, player_middle, recorded_back, recorded_front, recorded_in, seated_in};

use crate::counts::{write_packets, write_players};
use crate::key::{Key, PacketKey};
use crate::lists::{Written, write_list};
use crate::tracks::{CountedTrack, counted_tracks};
use crate::values::{write_addr, write_number, write_text, write_truth};
use mount_series::{MountSums, NamedSums};
use status::{MountStatus, PlayerStatus, Snapshot};
use std::alloc::{AllocError, Global};
use std::marker::Model;

/// The figures of a name.
#[derive(Drop)]
pub(crate) struct NameRow<'a> {
    name: &'a [u8],
    is_live: bool,
    players: u64,
    sums: MountSums,
    tracks: Vec<CountedTrack>,
    behind: u64,
}

impl<'a> Model for NameRow<'a> {
    ghost use Rattle.status_json.specs.Status.{Figures};

    ghost Value = { Figures };

    ghost view = { λ r. record {
      name = r.name.now;
      is_live = r.is_live;
      players = r.players;
      sums = r.sums;
      tracks = r.tracks.items;
      behind = r.behind;
    } };
}

impl<'a> NameRow<'a> {
    /// Returns the figures of a name.
    #[tactic(auto, unfolding(crate::specs::Status::figures_in))]
    fn of(
        alloc: Global,
        snapshot: &Snapshot,
        named: &'a NamedSums,
    ) -> Result<NameRow<'a>, AllocError>
        ensures { IfOk result (λ row. row ≡ figures_in snapshot.now named.now) }
    {
        let name = named.name.as_slice();
        let sums = snapshot.sums_of(named);
        Ok(NameRow {
            name,
            is_live: named.recorded > 0,
            players: snapshot.players_of(name) as u64,
            tracks: counted_tracks(alloc, &sums.came.tracks)?,
            sums,
            behind: snapshot.behind_of(name),
        })
    }
}

impl<'a> NameRow<'a> {
    #[tactic(auto, unfolding(crate::specs::Status::figures_front))]
    fn write_front(&self, out: &mut Vec<u8>) -> Result<(), AllocError>
        ensures text { OnOk result (out.new.items ≡ out.old.items ++ figures_front self.now) }
        ensures kept { OnErr result (take (length out.old.items) out.new.items ≡ out.old.items) }
    {
        write_text(out, Key::Name, self.name)?;
        write_truth(out, Key::Live, self.is_live)?;
        write_number(out, Key::Players, self.players)
    }

    #[tactic(auto, unfolding(crate::specs::Status::figures_in_text))]
    fn write_in(&self, out: &mut Vec<u8>) -> Result<(), AllocError>
        ensures text { OnOk result (out.new.items ≡ out.old.items ++ figures_in_text self.now) }
        ensures kept { OnErr result (take (length out.old.items) out.new.items ≡ out.old.items) }
    {
        write_packets(out, Key::Packets, &self.sums.came)?;
        write_number(out, Key::BytesIn, self.sums.came.bytes)?;
        write_number(out, Key::SlowedMs, self.sums.came.slowed)?;
        write_list(out, Key::Tracks, self.tracks.as_slice())
    }

    #[tactic(auto, unfolding(crate::specs::Status::figures_out_text))]
    fn write_out(&self, out: &mut Vec<u8>) -> Result<(), AllocError>
        ensures text { OnOk result (out.new.items ≡ out.old.items ++ figures_out_text self.now) }
        ensures kept { OnErr result (take (length out.old.items) out.new.items ≡ out.old.items) }
    {
        write_players(out, Key::PlayerPackets, &self.sums.players)?;
        write_number(out, Key::BytesOut, self.sums.players.bytes)?;
        write_number(out, Key::BehindMax, self.behind)?;
        out.extend_from_slice(b"}")
    }
}

impl<'a> Written for NameRow<'a> {
    ghost use Rattle.status_json.specs.Status.{figures_text};

    ghost text = { figures_text };

    fn write(&self, out: &mut Vec<u8>) -> Result<(), AllocError> {
        self.write_front(out)?;
        self.write_in(out)?;
        self.write_out(out)
    }
}

/// A mount that is recorded.
#[derive(Drop)]
pub(crate) struct MountRow<'a> {
    mount: &'a MountStatus,
}

impl<'a> Model for MountRow<'a> {
    ghost use Rattle.status.specs.declared.mount_status.MountStatus.{MountStatus};

    ghost Value = { MountStatus };

    ghost view = { λ r. r.mount.now };
}

impl<'a> MountRow<'a> {
    #[tactic(auto, unfolding(crate::specs::Status::recorded_front))]
    fn write_front(&self, out: &mut Vec<u8>) -> Result<(), AllocError>
        ensures text { OnOk result (out.new.items ≡ out.old.items ++ recorded_front self.now) }
        ensures kept { OnErr result (take (length out.old.items) out.new.items ≡ out.old.items) }
    {
        write_text(out, Key::Name, self.mount.name.as_slice())?;
        write_addr(out, Key::Publisher, self.mount.publisher)?;
        write_list(out, Key::Tracks, self.mount.tracks.as_slice())
    }

    #[tactic(auto, unfolding(crate::specs::Status::recorded_back))]
    fn write_back(&self, out: &mut Vec<u8>) -> Result<(), AllocError>
        ensures text { OnOk result (out.new.items ≡ out.old.items ++ recorded_back self.now) }
        ensures kept { OnErr result (take (length out.old.items) out.new.items ≡ out.old.items) }
    {
        write_number(out, Key::AgeMs, self.mount.age)?;
        write_number(out, Key::SilenceMs, self.mount.silence)?;
        write_number(out, Key::Players, self.mount.players as u64)?;
        out.extend_from_slice(b"}")
    }
}

impl<'a> Written for MountRow<'a> {
    ghost use Rattle.status_json.specs.Status.{recorded_text};

    ghost text = { recorded_text };

    fn write(&self, out: &mut Vec<u8>) -> Result<(), AllocError> {
        self.write_front(out)?;
        self.write_back(out)
    }
}

/// A player that has a seat.
#[derive(Drop)]
pub(crate) struct PlayerRow<'a> {
    player: &'a PlayerStatus,
}

impl<'a> Model for PlayerRow<'a> {
    ghost use Rattle.status.specs.declared.player_status.PlayerStatus.{PlayerStatus};

    ghost Value = { PlayerStatus };

    ghost view = { λ r. r.player.now };
}

impl<'a> PlayerRow<'a> {
    #[tactic(auto, unfolding(crate::specs::Status::player_front))]
    fn write_front(&self, out: &mut Vec<u8>) -> Result<(), AllocError>
        ensures text { OnOk result (out.new.items ≡ out.old.items ++ player_front self.now) }
        ensures kept { OnErr result (take (length out.old.items) out.new.items ≡ out.old.items) }
    {
        write_text(out, Key::Mount, self.player.mount.as_slice())?;
        write_number(out, Key::Seat, self.player.seat as u64)?;
        write_addr(out, Key::Peer, self.player.peer)?;
        write_number(out, Key::AgeMs, self.player.age)
    }

    #[tactic(auto, unfolding(crate::specs::Status::player_middle))]
    fn write_middle(&self, out: &mut Vec<u8>) -> Result<(), AllocError>
        ensures text { OnOk result (out.new.items ≡ out.old.items ++ player_middle self.now) }
        ensures kept { OnErr result (take (length out.old.items) out.new.items ≡ out.old.items) }
    {
        write_number(out, Key::Packet(PacketKey::Sent), self.player.sent)?;
        write_number(out, Key::Packet(PacketKey::Skipped), self.player.skipped)?;
        write_number(out, Key::Packet(PacketKey::Lost), self.player.lost)
    }

    #[tactic(auto, unfolding(crate::specs::Status::player_back))]
    fn write_back(&self, out: &mut Vec<u8>) -> Result<(), AllocError>
        ensures text { OnOk result (out.new.items ≡ out.old.items ++ player_back self.now) }
        ensures kept { OnErr result (take (length out.old.items) out.new.items ≡ out.old.items) }
    {
        write_number(out, Key::Bytes, self.player.bytes)?;
        write_number(out, Key::Behind, self.player.behind)?;
        write_number(out, Key::Waiting, self.player.waiting())?;
        out.extend_from_slice(b"}")
    }
}

impl<'a> Written for PlayerRow<'a> {
    ghost use Rattle.status_json.specs.Status.{player_text};

    ghost text = { player_text };

    fn write(&self, out: &mut Vec<u8>) -> Result<(), AllocError> {
        self.write_front(out)?;
        self.write_middle(out)?;
        self.write_back(out)
    }
}

/// Returns the figures of each name.
pub(crate) fn name_rows(alloc: Global, snapshot: &Snapshot) -> Result<Vec<NameRow<'_>>, AllocError>
    ensures { IfOk result (λ rows. rows.items ≡ map (figures_in snapshot.now) snapshot.now.named.items) }
{
    let mut rows = Vec::new(alloc);
    for named in &snapshot.named {
        rows.push(NameRow::of(alloc, snapshot, named)?)?;
    }
    Ok(rows)
}

/// Returns each mount that is recorded.
pub(crate) fn mount_rows(
    alloc: Global,
    snapshot: &Snapshot,
) -> Result<Vec<MountRow<'_>>, AllocError>
    ensures { IfOk result (λ rows. rows.items ≡ recorded_in snapshot.now) }
{
    let mut rows = Vec::new(alloc);
    for mount in &snapshot.mounts {
        if !mount.has_ended {
            rows.push(MountRow { mount })?;
        }
    }
    Ok(rows)
}

/// Returns each player that has a seat.
pub(crate) fn player_rows(
    alloc: Global,
    snapshot: &Snapshot,
) -> Result<Vec<PlayerRow<'_>>, AllocError>
    ensures { IfOk result (λ rows. rows.items ≡ seated_in snapshot.now) }
{
    let mut rows = Vec::new(alloc);
    for player in &snapshot.players {
        if !player.has_left {
            rows.push(PlayerRow { player })?;
        }
    }
    Ok(rows)
}
