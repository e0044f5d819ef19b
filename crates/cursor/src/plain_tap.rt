ghost use Rattle.std.specs.Prelude.{◌≡◌};
ghost use Rattle.cursor.specs.Plain.{IsAttached};

use crate::lends::Lend;
use crate::plain_log::PlainLog;
use crate::takes::{Account, Taken};
use crate::taps::Tap;
use crate::visits::Visit;
use std::marker::Model;

/// A plain log with one seat that is attached, as a tap.
#[derive(Drop)]
pub struct PlainTap {
    log: PlainLog,
    seat: u16,
}

impl Model for PlainTap {
    ghost use Rattle.cursor.specs.Plain.{Tapped, IsAttached};

    ghost Value = { Tapped };

    ghost view = { λ t. record { log = t.log; seat = t.seat } };

    ghost invariant = { λ t. IsAttached t.log t.seat };
}

impl PlainTap {
    pub fn new(log: PlainLog, seat: u16) -> PlainTap
        requires { IsAttached log seat }
        ensures log { result.log ≡ log }
        ensures seat { result.seat ≡ seat }
    {
        PlainTap { log, seat }
    }

    /// Gives the log back, with the seat still attached and its takes counted.
    pub fn into_log(self) -> PlainLog
        ensures log { result ≡ self.log }
        ensures attached { IsAttached result self.seat }
    {
        self.log
    }
}

impl Tap for PlainTap {
    ghost use Rattle.cursor.specs.Plain.{tapped_account, TakesFrom};

    ghost account = { tapped_account };

    ghost packet_bytes = { λ t. t.log.packet_bytes };

    ghost take_gives = { TakesFrom };

    fn take(&mut self, buf: &mut [u8]) -> Taken {
        self.log.take(self.seat, buf)
    }

    fn cursor(&self) -> u64 {
        self.log.account(self.seat).cursor()
    }

    fn account(&self) -> Account {
        self.log.account(self.seat)
    }

    fn packet_bytes(&self) -> usize {
        self.log.packet_bytes()
    }

    ghost counts = { λ old d new h. h.counts };
}

impl Lend for PlainTap {
    fn take_with<V: Visit>(&mut self, visitor: &mut V) -> Taken {
        self.log.take_with(self.seat, visitor)
    }
}
