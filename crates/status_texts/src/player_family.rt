//! The families with samples for each player.
ghost use Rattle.std.specs.Prelude.{◌≡◌};
ghost use Rattle.status_texts.specs.Players.{player_head};

use crate::family::FamilyHead;

/// A family with samples for each player.
#[derive(Clone, Copy, Debug, PartialEq, Eq, Drop)]
pub(crate) enum PlayerFamily {
    Packets,
    Bytes,
    Behind,
    Waiting,
    Info,
}

impl PlayerFamily {
    pub(crate) fn head(self) -> FamilyHead
        ensures { result ≡ player_head self }
    {
        match self {
            PlayerFamily::Packets => FamilyHead::counter(
                "vasklun_seat_packets_total",
                "Packets for the player in the seat since it took it, by what became of them.",
            ),
            PlayerFamily::Bytes => FamilyHead::counter(
                "vasklun_seat_bytes_total",
                "Bytes of the packets that were sent to the player in the seat since it took it.",
            ),
            PlayerFamily::Behind => FamilyHead::gauge(
                "vasklun_seat_behind_packets",
                "Packets that the player in the seat is behind.",
            ),
            PlayerFamily::Waiting => FamilyHead::gauge(
                "vasklun_seat_waiting_packets",
                "Packets since the player took the seat that were neither sent, skipped nor lost yet.",
            ),
            PlayerFamily::Info => FamilyHead::gauge(
                "vasklun_player_info",
                "1 for each player that has a seat, with its address.",
            ),
        }
    }
}
