ghost use Rattle.std.specs.Prelude.{◌≡◌, ◌<◌, ◌≤◌, ◌↔◌, ℕ, List, Option, Result, length, IfOk, IfErr, OnErr, IsErrOf};
ghost use Rattle.cursor.specs.declared.packets.Packet.{Packet};
ghost use Rattle.cursor.specs.declared.refusals.Refused.{Refused};
ghost use Rattle.cursor.specs.Feeds.{Appends};
ghost use Rattle.cursor.specs.Log.{packet_of};

use crate::refusals::Refused;

/// Takes packets in, one after another, until it is closed.
pub trait Feed {
    /// The packets published so far, or none where the feed doesn't tell them.
    ghost told: { Self → Option (List Packet) };

    /// The longest packet that it takes, in bytes.
    ghost packet_bytes: { Self → ℕ };

    /// The refusals that it may give at all.
    ghost may_refuse: { Refused → Type 0 };

    /// Whether a publish of this packet may be answered so, by its number or a refusal, and leave the feed so.
    ghost publish_gives: { Self → Packet → Result ℕ Refused → Self → Type 0 };

    /// Publishes one packet, and answers its number. After a refusal the log is as it was.
    fn publish(&mut self, tag: u8, bytes: &[u8]) -> Result<u64, Refused>
        ensures gives { publish_gives self.old (packet_of tag bytes.now) result self.new }
        ensures appended { IfOk result (λ n. Appends (told self.old) (packet_of tag bytes.now) n (told self.new)) }
        ensures refused { OnErr result (told self.new ≡ told self.old) }
        ensures too_long { IsErrOf result Refused.TooLong ↔ (packet_bytes self.old < length bytes.now) }
        ensures may { IfErr result may_refuse }
        ensures same { packet_bytes self.new ≡ packet_bytes self.old };

    /// The longest packet that it takes, in bytes: at most 65,535.
    fn packet_bytes(&self) -> usize
        ensures value { result ≡ packet_bytes self.now }
        ensures bound { result ≤ 65535 };

    /// Ends the log: no packet comes after it.
    fn close(self);
}
