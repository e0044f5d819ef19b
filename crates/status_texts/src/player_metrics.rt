//! The samples of each player.
ghost use Rattle.std.specs.Prelude.{◌≡◌, ◌++◌, decimal, length, take, OnOk, OnErr};
ghost use Rattle.std.specs.List.{flat_map};
ghost use Rattle.status_texts.specs.declared.player_family.PlayerFamily.TheVariants.{Info};
ghost use Rattle.status_texts.specs.Families.{head_text};
ghost use Rattle.status_texts.specs.Players.{player_family, player_samples, players_text, seat_count, seat_sample, seats_of};

use crate::family::FamilyHead;
use crate::number::Number;
use crate::player_family::PlayerFamily;
use crate::seat_figures::{SeatFigures, seats_of};
use exposition::{Label, put_sample};
use status::Snapshot;
use std::alloc::AllocError;

/// Appends a sample of a player for a result.
fn put_count(
    out: &mut Vec<u8>,
    metric: &'static str,
    seat: &SeatFigures,
    count: &Number,
) -> Result<(), AllocError>
    ensures text { OnOk result (out.new.items ≡ out.old.items ++ seat_count metric.now seat.now count.now) }
    ensures kept { OnErr result (out.new.items ≡ out.old.items) }
{
    let labels = [
        Label::new("mount", seat.mount()),
        Label::new("seat", seat.seat()),
        Label::new("result", count.name().as_bytes()),
    ];
    put_sample(out, metric, &labels, count.value())
}

/// Appends a sample of a player for each result, or a part of them if memory is refused.
fn write_counts(
    out: &mut Vec<u8>,
    metric: &'static str,
    seat: &SeatFigures,
    counts: &[Number],
) -> Result<(), AllocError>
    ensures text { OnOk result (out.new.items ≡ out.old.items ++ flat_map (seat_count metric.now seat.now) counts.now) }
    ensures kept { OnErr result (take (length out.old.items) out.new.items ≡ out.old.items) }
{
    for count in counts {
        put_count(out, metric, seat, count)?;
    }
    Ok(())
}

/// Appends a sample of a player.
fn put_number(
    out: &mut Vec<u8>,
    metric: &'static str,
    seat: &SeatFigures,
    value: u64,
) -> Result<(), AllocError>
    ensures text { OnOk result (out.new.items ≡ out.old.items ++ seat_sample metric.now seat.now (decimal value)) }
    ensures kept { OnErr result (out.new.items ≡ out.old.items) }
{
    let labels = [
        Label::new("mount", seat.mount()),
        Label::new("seat", seat.seat()),
    ];
    put_sample(out, metric, &labels, value)
}

/// Appends the address of a player.
fn put_info(out: &mut Vec<u8>, metric: &'static str, seat: &SeatFigures) -> Result<(), AllocError>
    ensures text { OnOk result (out.new.items ≡ out.old.items ++ player_samples metric.now Info seat.now) }
    ensures kept { OnErr result (out.new.items ≡ out.old.items) }
{
    let labels = [
        Label::new("mount", seat.mount()),
        Label::new("seat", seat.seat()),
        Label::new("peer", seat.peer()),
    ];
    put_sample(out, metric, &labels, 1)
}

/// Appends the samples of a family for a player, or a part of them if memory is refused.
fn write_samples(
    out: &mut Vec<u8>,
    metric: &'static str,
    family: PlayerFamily,
    seat: &SeatFigures,
) -> Result<(), AllocError>
    ensures text { OnOk result (out.new.items ≡ out.old.items ++ player_samples metric.now family seat.now) }
    ensures kept { OnErr result (take (length out.old.items) out.new.items ≡ out.old.items) }
{
    match family {
        PlayerFamily::Packets => write_counts(out, metric, seat, &seat.counts()),
        PlayerFamily::Bytes => put_number(out, metric, seat, seat.bytes()),
        PlayerFamily::Behind => put_number(out, metric, seat, seat.behind()),
        PlayerFamily::Waiting => put_number(out, metric, seat, seat.waiting()),
        PlayerFamily::Info => put_info(out, metric, seat),
    }
}

/// Appends the samples of a family for each player, or a part of them if memory is refused.
fn write_all_samples(
    out: &mut Vec<u8>,
    metric: &'static str,
    family: PlayerFamily,
    seats: &[SeatFigures],
) -> Result<(), AllocError>
    ensures text { OnOk result (out.new.items ≡ out.old.items ++ flat_map (player_samples metric.now family) seats.now) }
    ensures kept { OnErr result (take (length out.old.items) out.new.items ≡ out.old.items) }
{
    for seat in seats {
        write_samples(out, metric, family, seat)?;
    }
    Ok(())
}

/// Appends the head of a family and its samples for each player, or a part of them if memory is refused.
fn write_headed(
    out: &mut Vec<u8>,
    head: &FamilyHead,
    family: PlayerFamily,
    seats: &[SeatFigures],
) -> Result<(), AllocError>
    ensures text { OnOk result (out.new.items ≡ out.old.items ++ (head_text head.now ++ flat_map (player_samples head.now.name family) seats.now)) }
    ensures kept { OnErr result (take (length out.old.items) out.new.items ≡ out.old.items) }
{
    head.put(out)?;
    write_all_samples(out, head.name(), family, seats)
}

/// Appends a family, or a part of its text if memory is refused.
#[tactic(auto, unfolding(crate::specs::Players::player_family))]
fn write_family(
    out: &mut Vec<u8>,
    family: PlayerFamily,
    seats: &[SeatFigures],
) -> Result<(), AllocError>
    ensures text { OnOk result (out.new.items ≡ out.old.items ++ player_family seats.now family) }
    ensures kept { OnErr result (take (length out.old.items) out.new.items ≡ out.old.items) }
{
    write_headed(out, &family.head(), family, seats)
}

/// Appends the families of players, or a part of their text if memory is refused.
fn write_families(out: &mut Vec<u8>, snapshot: &Snapshot) -> Result<(), AllocError>
    ensures text { OnOk result (out.new.items ≡ out.old.items ++ players_text snapshot.now.players.items) }
    ensures kept { OnErr result (take (length out.old.items) out.new.items ≡ out.old.items) }
{
    let seats = seats_of(*out.allocator(), snapshot.players.as_slice())?;
    write_family(out, PlayerFamily::Packets, seats.as_slice())?;
    write_family(out, PlayerFamily::Bytes, seats.as_slice())?;
    write_family(out, PlayerFamily::Behind, seats.as_slice())?;
    write_family(out, PlayerFamily::Waiting, seats.as_slice())?;
    write_family(out, PlayerFamily::Info, seats.as_slice())
}

/// Appends metrics of each player in the text format of Prometheus, by its mount's name and its seat's number: what became of its
/// packets, the bytes that it was sent, how many packets it is behind and how many wait for it, and its address. A seat that was taken
/// again, of a mount that began anew under its name, has the samples of its last player.
///
/// The only error is out of memory. After it, `out` is as before.
pub fn put_player_metrics(out: &mut Vec<u8>, snapshot: &Snapshot) -> Result<(), AllocError>
    ensures ok { OnOk result (out.new.items ≡ out.old.items ++ players_text snapshot.now.players.items) }
    ensures err { OnErr result (out.new.items ≡ out.old.items) }
{
    let before = out.len();
    let written = write_families(out, snapshot);
    if written.is_err() {
        out.truncate(before);
    }
    written
}
