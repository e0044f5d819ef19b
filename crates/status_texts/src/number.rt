//! Numbers with names: the counts of packets by what became of them, and of refused connections by the reason.
ghost use Rattle.std.specs.Prelude.{◌≡◌};
ghost use Rattle.status_texts.specs.Numbers.{packet_counts, player_counts, refusal_counts};

use relay_accounts::{MountTally, SeatAccount};
use server_counts::RefusedConnections;
use std::marker::Model;

/// A number and its name. A contract sees the name as a list of bytes.
#[derive(Drop)]
pub(crate) struct Number {
    name: &'static str,
    value: u64,
}

impl Model for Number {
    ghost use Rattle.status_texts.specs.Numbers.{NamedNumber};

    ghost Value = { NamedNumber };

    ghost view = { λ n. record { name = n.name.now; value = n.value } };
}

impl Number {
    pub(crate) fn new(name: &'static str, value: u64) -> Number
        ensures { result ≡ record { name = name.now; value = value } }
    {
        Number { name, value }
    }

    pub(crate) fn name(&self) -> &'static str
        ensures { result.now ≡ self.now.name }
    {
        self.name
    }

    pub(crate) fn value(&self) -> u64
        ensures { result ≡ self.now.value }
    {
        self.value
    }
}

/// Returns how many frames that came to a mount had each result.
pub(crate) fn packet_counts(came: &MountTally) -> [Number; 6]
    ensures { result ≡ packet_counts came.now }
{
    [
        Number::new("published", came.packets),
        Number::new("pinned", came.pinned),
        Number::new("too_long", came.oversize),
        Number::new("bad_rtp", came.bad_rtp),
        Number::new("unknown_channel", came.unknown_channel),
        Number::new("no_memory", came.unkept),
    ]
}

/// Returns how many packets for players had each result.
pub(crate) fn player_counts(players: &SeatAccount) -> [Number; 4]
    ensures { result ≡ player_counts players.now }
{
    [
        Number::new("sent", players.sent),
        Number::new("skipped", players.skipped),
        Number::new("lost", players.lost),
        Number::new("unsent", players.unsent),
    ]
}

/// Returns how many connections were refused for each reason.
pub(crate) fn refusal_counts(refused: &RefusedConnections) -> [Number; 5]
    ensures { result ≡ refusal_counts refused.now }
{
    [
        Number::new("full", refused.full),
        Number::new("address_full", refused.address_full),
        Number::new("out_of_memory", refused.out_of_memory),
        Number::new("no_thread", refused.no_thread),
        Number::new("not_accepted", refused.not_accepted),
    ]
}
