//! The missing and the late packets of a track, and how often its numbering began anew.
ghost use Rattle.std.specs.Prelude.{◌≡◌, ◌+◌, ◌∷◌, ◌++◌, [], List, None};
ghost use Rattle.sequence_counts.specs.Counts.{both_counts, capped, counted_since, nothing_counted, with_highest};
ghost use Rattle.sequence_counts.specs.Counting.{AreCountsOf, Event, Packet, Recorded};

use std::marker::Model;

/// How many sequence numbers a packet can be ahead of the highest one without a restart: one less than MAX_DROPOUT of RFC 3550, A.1.
const MOST_AHEAD: u16 = 2_999;

/// How many sequence numbers a late packet can be behind the highest one: one less than MAX_MISORDER of RFC 3550, A.1.
const MOST_BEHIND: u16 = 99;

/// The two fields of an RTP packet's header that name it (RFC 3550, 5.1).
#[derive(Clone, Copy, Debug, PartialEq, Eq, Drop)]
pub(crate) struct Numbers {
    /// The sequence number.
    number: u16,
    /// The source.
    ssrc: u32,
}

/// Counts of a track's RTP packets by their sequence numbers, since `new`: which numbers are missing, how many packets are late,
/// and how often the numbering began anew (RFC 3550, A.1 and A.3). A count that would exceed 2^64 - 1 stays at 2^64 - 1.
///
/// The highest packet is the last one that was neither late nor a repeat. Each packet is compared with it, and not with the packet
/// before.
#[derive(Clone, Copy, Debug, PartialEq, Eq, Drop)]
pub struct SequenceCounts {
    /// The highest packet since the last RECORD, if there is one.
    highest: Option<Numbers>,
    missing: u64,
    late: u64,
    restarts: u64,
}

impl Model for SequenceCounts {
    ghost use Rattle.sequence_counts.specs.Counts.{Counts};

    ghost Value = { Counts };

    ghost view = { λ c. record { highest = c.highest; missing = c.missing; late = c.late; restarts = c.restarts } };

    ghost inverse = { λ c. record { highest = c.highest; missing = c.missing; late = c.late; restarts = c.restarts } };
}

impl SequenceCounts {
    /// Returns the counts of a track for which no packet was offered.
    pub fn new() -> SequenceCounts
        ensures nothing { result ≡ nothing_counted }
        ensures counts { AreCountsOf [] result }
    {
        SequenceCounts {
            highest: None,
            missing: 0,
            late: 0,
            restarts: 0,
        }
    }

    /// Notes that the publisher's RECORD was accepted. The next packet is compared with none before it. The counts stay.
    pub fn recorded(&mut self)
        ensures new { self.new ≡ record self.old { highest = None } }
        ensures counts { (events : List Event) → AreCountsOf events self.old → AreCountsOf (events ++ Recorded ∷ []) self.new }
    {
        self.highest = None;
    }

    /// Counts a packet that the publisher offers, by its sequence number and its source (SSRC).
    pub fn offered(&mut self, number: u16, ssrc: u32)
        ensures counts { (events : List Event) → AreCountsOf events self.old → AreCountsOf (events ++ Packet number ssrc ∷ []) self.new }
    {
        let packet = Numbers { number, ssrc };
        let Some(highest) = self.highest else {
            self.highest = Some(packet);
            return;
        };
        if highest.ssrc != ssrc {
            self.restart(packet);
            return;
        }
        let distance = number.wrapping_sub(highest.number);
        if distance == 0 {
            return;
        }
        if distance <= MOST_AHEAD {
            self.highest = Some(packet);
            self.missing = self.missing.saturating_add(u64::from(distance - 1));
        } else if distance > u16::MAX - MOST_BEHIND {
            self.late = self.late.saturating_add(1);
        } else {
            self.restart(packet);
        }
    }

    /// Counts a restart: the numbering began anew with this packet, which is the highest now.
    fn restart(&mut self, packet: Numbers)
        ensures { self.new ≡ record (with_highest self.old packet.number packet.ssrc) { restarts = capped (self.old.restarts + 1) } }
    {
        self.highest = Some(packet);
        self.restarts = self.restarts.saturating_add(1);
    }

    /// Returns how many sequence numbers were passed over. A packet that is 1 to 2,999 numbers ahead of the highest one passes over
    /// the numbers between the two. This count never falls. If there was no restart, at least `missing` less `late` packets never
    /// came.
    pub fn missing(&self) -> u64
        ensures { result ≡ self.now.missing }
    {
        self.missing
    }

    /// Returns how many packets were 1 to 99 numbers behind the highest one. Each is late or repeated.
    pub fn late(&self) -> u64
        ensures { result ≡ self.now.late }
    {
        self.late
    }

    /// Returns how often the numbering began anew. A packet begins it anew if its source isn't that of the highest one, or if it is
    /// neither at most 2,999 numbers ahead of it nor at most 99 behind it.
    pub fn restarts(&self) -> u64
        ensures { result ≡ self.now.restarts }
    {
        self.restarts
    }

    /// Returns what was counted since earlier counts of the same track. The highest packet is that of `self`.
    pub fn since(&self, earlier: &SequenceCounts) -> SequenceCounts
        ensures { result ≡ counted_since self.now earlier.now }
    {
        SequenceCounts {
            highest: self.highest,
            missing: self.missing.saturating_sub(earlier.missing),
            late: self.late.saturating_sub(earlier.late),
            restarts: self.restarts.saturating_sub(earlier.restarts),
        }
    }

    /// Returns what was counted of two tracks, with no highest packet.
    pub fn plus(&self, other: &SequenceCounts) -> SequenceCounts
        ensures { result ≡ both_counts self.now other.now }
    {
        SequenceCounts {
            highest: None,
            missing: self.missing.saturating_add(other.missing),
            late: self.late.saturating_add(other.late),
            restarts: self.restarts.saturating_add(other.restarts),
        }
    }
}
