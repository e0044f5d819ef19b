ghost use Rattle.std.specs.Prelude.{◌≡◌, false};

use crate::feeds::Feed;
use crate::plain_log::PlainLog;
use crate::refusals::Refused;
use std::marker::Model;

/// A plain log that is open, as a feed.
#[derive(Drop)]
pub struct PlainFeed {
    log: PlainLog,
}

impl Model for PlainFeed {
    ghost use Rattle.std.specs.Prelude.{◌≡◌, false};
    ghost use Rattle.cursor.specs.Plain.{Plain};

    ghost Value = { Plain };

    ghost view = { λ f. f.log };

    ghost invariant = { λ f. f.log.closed ≡ false };
}

impl PlainFeed {
    pub fn new(log: PlainLog) -> PlainFeed
        requires { log.closed ≡ false }
        ensures { result ≡ log }
    {
        PlainFeed { log }
    }

    /// Gives the log back, open and with what was published.
    pub fn into_log(self) -> PlainLog
        ensures log { result ≡ self }
        ensures open { result.closed ≡ false }
    {
        self.log
    }
}

impl Feed for PlainFeed {
    ghost use Rattle.std.specs.Prelude.{Some};
    ghost use Rattle.cursor.specs.Plain.{PlainMayRefuse, Publishes};

    ghost told = { λ f. Some f.packets };

    ghost packet_bytes = { λ f. f.packet_bytes };

    ghost may_refuse = { PlainMayRefuse };

    ghost publish_gives = { Publishes };

    /// Publishing is the log's event: seats, accounts and what is kept stay. A refusal leaves the feed as it was.
    fn publish(&mut self, tag: u8, bytes: &[u8]) -> Result<u64, Refused> {
        self.log.publish(tag, bytes)
    }

    fn packet_bytes(&self) -> usize {
        self.log.packet_bytes()
    }

    fn close(self) {
        let mut log = self.log;
        log.close();
    }
}
