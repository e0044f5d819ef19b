//! The figures of each player that is shown.
ghost use Rattle.std.specs.Prelude.{◌≡◌, count_by, map, filter, IfOk};
ghost use Rattle.status_texts.specs.Players.{is_shown, seat_counts, seat_of, seats_of, takes_over};

use crate::number::Number;
use status::PlayerStatus;
use std::alloc::{AllocError, Global};
use std::marker::Model;

/// The figures of the player in a seat.
#[derive(Drop)]
pub(crate) struct SeatFigures<'a> {
    mount: &'a [u8],
    seat: String,
    peer: String,
    sent: u64,
    bytes: u64,
    skipped: u64,
    lost: u64,
    behind: u64,
    waiting: u64,
}

impl<'a> Model for SeatFigures<'a> {
    ghost use Rattle.std.specs.Prelude.{string_bytes};
    ghost use Rattle.status_texts.specs.Seat.{Seat};

    ghost Value = { Seat };

    ghost view = { λ s. record {
      mount = s.mount.now;
      seat = string_bytes s.seat;
      peer = string_bytes s.peer;
      sent = s.sent;
      bytes = s.bytes;
      skipped = s.skipped;
      lost = s.lost;
      behind = s.behind;
      waiting = s.waiting;
    } };
}

impl<'a> SeatFigures<'a> {
    fn of(alloc: Global, player: &'a PlayerStatus) -> Result<SeatFigures<'a>, AllocError>
        ensures { IfOk result (λ seat. seat ≡ seat_of player.now) }
    {
        Ok(SeatFigures {
            mount: player.mount.as_slice(),
            seat: player.seat.to_string(alloc)?,
            peer: player.peer.to_string(alloc)?,
            sent: player.sent,
            bytes: player.bytes,
            skipped: player.skipped,
            lost: player.lost,
            behind: player.behind,
            waiting: player.waiting(),
        })
    }

    /// The name of the mount.
    pub(crate) fn mount(&self) -> &[u8]
        ensures { result.now ≡ self.now.mount }
    {
        self.mount
    }

    /// The number of the seat, as text.
    pub(crate) fn seat(&self) -> &[u8]
        ensures { result.now ≡ self.now.seat }
    {
        self.seat.as_bytes()
    }

    /// The address of the player, as text.
    pub(crate) fn peer(&self) -> &[u8]
        ensures { result.now ≡ self.now.peer }
    {
        self.peer.as_bytes()
    }

    /// How many bytes the packets have that it was sent.
    pub(crate) fn bytes(&self) -> u64
        ensures { result ≡ self.now.bytes }
    {
        self.bytes
    }

    /// How many packets it is behind.
    pub(crate) fn behind(&self) -> u64
        ensures { result ≡ self.now.behind }
    {
        self.behind
    }

    /// How many packets wait for it.
    pub(crate) fn waiting(&self) -> u64
        ensures { result ≡ self.now.waiting }
    {
        self.waiting
    }

    /// What became of the packets for it.
    pub(crate) fn counts(&self) -> [Number; 3]
        ensures { result ≡ seat_counts self.now }
    {
        [
            Number::new("sent", self.sent),
            Number::new("skipped", self.skipped),
            Number::new("lost", self.lost),
        ]
    }
}

/// Returns whether another player took the same seat later, of a mount of the same name.
fn takes_over(player: &PlayerStatus, other: &PlayerStatus) -> bool
    ensures { result ≡ takes_over player.now other.now }
{
    !other.has_left
        && other.age < player.age
        && other.seat == player.seat
        && other.mount.as_slice() == player.mount.as_slice()
}

/// Returns how many players took the same seat later, of mounts of the same name.
fn count_takeovers(players: &[PlayerStatus], player: &PlayerStatus) -> usize
    ensures { result ≡ count_by (takes_over player.now) players.now }
{
    players
        .iter()
        .filter(|other| takes_over(player, other))
        .count()
}

/// Returns whether a player has a seat, and is the last one of its name and number.
fn is_shown(players: &[PlayerStatus], player: &PlayerStatus) -> bool
    ensures { result ≡ is_shown players.now player.now }
{
    !player.has_left && count_takeovers(players, player) == 0
}

/// Returns the figures of each player that is shown.
pub(crate) fn seats_of(
    alloc: Global,
    players: &[PlayerStatus],
) -> Result<Vec<SeatFigures<'_>>, AllocError>
    ensures { IfOk result (λ seats. seats.items ≡ seats_of players.now) }
{
    let mut seats = Vec::new(alloc);
    for player in players {
        if is_shown(players, player) {
            seats.push(SeatFigures::of(alloc, player)?)?;
        }
    }
    Ok(seats)
}
