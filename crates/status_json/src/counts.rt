//! Counts of packets by what became of them, as objects of JSON.
ghost use Rattle.std.specs.Prelude.{◌≡◌, ◌++◌, length, take, OnOk, OnErr};
ghost use Rattle.status_json.specs.Json.{keyed};
ghost use Rattle.status_json.specs.Status.{account_text, came_back, came_front, came_text, totals_text};

use crate::key::{Key, PacketKey};
use crate::values::write_number;
use mount_series::MountSums;
use relay_accounts::{MountTally, SeatAccount};
use std::alloc::AllocError;

/// Appends what became of the frames that could be published, or a part of it if memory is refused.
#[tactic(auto, unfolding(crate::specs::Status::came_front))]
fn write_came_front(out: &mut Vec<u8>, came: &MountTally) -> Result<(), AllocError>
    ensures text { OnOk result (out.new.items ≡ out.old.items ++ came_front came.now) }
    ensures kept { OnErr result (take (length out.old.items) out.new.items ≡ out.old.items) }
{
    write_number(out, Key::Packet(PacketKey::Published), came.packets)?;
    write_number(out, Key::Packet(PacketKey::Pinned), came.pinned)?;
    write_number(out, Key::Packet(PacketKey::TooLong), came.oversize)
}

/// Appends what became of the other frames, or a part of it if memory is refused.
#[tactic(auto, unfolding(crate::specs::Status::came_back))]
fn write_came_back(out: &mut Vec<u8>, came: &MountTally) -> Result<(), AllocError>
    ensures text { OnOk result (out.new.items ≡ out.old.items ++ came_back came.now) }
    ensures kept { OnErr result (take (length out.old.items) out.new.items ≡ out.old.items) }
{
    write_number(out, Key::Packet(PacketKey::BadRtp), came.bad_rtp)?;
    write_number(
        out,
        Key::Packet(PacketKey::UnknownChannel),
        came.unknown_channel,
    )?;
    write_number(out, Key::Packet(PacketKey::NoMemory), came.unkept)?;
    out.extend_from_slice(b"}")
}

/// Appends what became of the frames that came to mounts, or a part of it if memory is refused.
fn write_came(out: &mut Vec<u8>, came: &MountTally) -> Result<(), AllocError>
    ensures text { OnOk result (out.new.items ≡ out.old.items ++ came_text came.now) }
    ensures kept { OnErr result (take (length out.old.items) out.new.items ≡ out.old.items) }
{
    write_came_front(out, came)?;
    write_came_back(out, came)
}

/// Appends what is before what became of frames, and that, or a part of them if memory is refused.
#[tactic(auto, unfolding(crate::specs::Json::keyed))]
pub(crate) fn write_packets(
    out: &mut Vec<u8>,
    key: Key,
    came: &MountTally,
) -> Result<(), AllocError>
    ensures text { OnOk result (out.new.items ≡ out.old.items ++ keyed key (came_text came.now)) }
    ensures kept { OnErr result (take (length out.old.items) out.new.items ≡ out.old.items) }
{
    out.extend_from_slice(key.text())?;
    write_came(out, came)
}

/// Appends what became of packets for players, or a part of it if memory is refused.
#[tactic(auto, unfolding(crate::specs::Status::account_text))]
fn write_account(out: &mut Vec<u8>, players: &SeatAccount) -> Result<(), AllocError>
    ensures text { OnOk result (out.new.items ≡ out.old.items ++ account_text players.now) }
    ensures kept { OnErr result (take (length out.old.items) out.new.items ≡ out.old.items) }
{
    write_number(out, Key::Packet(PacketKey::FirstSent), players.sent)?;
    write_number(out, Key::Packet(PacketKey::Skipped), players.skipped)?;
    write_number(out, Key::Packet(PacketKey::Lost), players.lost)?;
    write_number(out, Key::Packet(PacketKey::Unsent), players.unsent)?;
    out.extend_from_slice(b"}")
}

/// Appends what is before what became of packets for players, and that, or a part of them if memory is refused.
#[tactic(auto, unfolding(crate::specs::Json::keyed))]
pub(crate) fn write_players(
    out: &mut Vec<u8>,
    key: Key,
    players: &SeatAccount,
) -> Result<(), AllocError>
    ensures text { OnOk result (out.new.items ≡ out.old.items ++ keyed key (account_text players.now)) }
    ensures kept { OnErr result (take (length out.old.items) out.new.items ≡ out.old.items) }
{
    out.extend_from_slice(key.text())?;
    write_account(out, players)
}

/// Appends the sums of all names, or a part of them if memory is refused.
#[tactic(auto, unfolding(crate::specs::Status::totals_text))]
fn write_sums(out: &mut Vec<u8>, sums: &MountSums) -> Result<(), AllocError>
    ensures text { OnOk result (out.new.items ≡ out.old.items ++ totals_text sums.now) }
    ensures kept { OnErr result (take (length out.old.items) out.new.items ≡ out.old.items) }
{
    write_packets(out, Key::FirstPackets, &sums.came)?;
    write_number(out, Key::BytesIn, sums.came.bytes)?;
    write_players(out, Key::PlayerPackets, &sums.players)?;
    write_number(out, Key::BytesOut, sums.players.bytes)?;
    out.extend_from_slice(b"}")
}

/// Appends what is before the sums of all names, and these, or a part of them if memory is refused.
#[tactic(auto, unfolding(crate::specs::Json::keyed))]
pub(crate) fn write_totals(out: &mut Vec<u8>, key: Key, sums: &MountSums) -> Result<(), AllocError>
    ensures text { OnOk result (out.new.items ≡ out.old.items ++ keyed key (totals_text sums.now)) }
    ensures kept { OnErr result (take (length out.old.items) out.new.items ≡ out.old.items) }
{
    out.extend_from_slice(key.text())?;
    write_sums(out, sums)
}
