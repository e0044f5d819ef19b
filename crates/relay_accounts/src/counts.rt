//! What became of the packets of a connection.
ghost use Rattle.std.specs.Prelude.{◌≡◌, ◌+◌, ◌^◌, ◌<◌, ◌≤◌, ◌↔◌, IsTrue};
ghost use Rattle.publisher.specs.Fates.{total};
ghost use Rattle.relay_accounts.specs.Counting.{accounted, came_in, counted_since, losses, nothing_counted, with_account, with_missing, with_report, with_strangers, with_wait};

use crate::seat_account::SeatAccount;
use publisher::InReport;
use std::{fmt, mem};

/// What became of the packets of a connection since its session began, or since the session before it ended. A count that
/// would exceed 2^64 - 1 stays at 2^64 - 1.
///
/// The frames that came while it recorded are the sum of the first six counts. The packets that were published to the mount
/// while it had a seat are the sum of `sent`, `skipped`, `lost` and `unsent`.
#[derive(Clone, Copy, Debug, PartialEq, Eq, Drop)]
pub struct Counts {
    /// Frames that were published.
    pub published: u64,
    /// Frames that were refused, because a player was just copying the packet that they would have replaced.
    pub pinned: u64,
    /// Frames that are longer than a packet may be.
    pub oversize: u64,
    /// Frames on an RTP channel that are no RTP packets (RFC 3550, 5.1).
    pub bad_rtp: u64,
    /// Frames on a channel of no track that is set up.
    pub unknown_channel: u64,
    /// Frames that the mount had no number or no memory for.
    pub unkept: u64,
    /// Frames that came while nothing was recorded. They don't count as losses.
    pub strangers: u64,
    /// Packets that the system's socket took, each as a whole frame. What its buffer held when the connection broke is among
    /// them.
    pub sent: u64,
    /// Packets of tracks that aren't set up.
    pub skipped: u64,
    /// Packets that the ring no longer kept when their turn came, or when the seat was left.
    pub lost: u64,
    /// Packets that the ring still kept when the seat was left, and those that were taken from it and not handed to the system.
    pub unsent: u64,
    /// For how many milliseconds in total the published packets waited for players.
    pub slowed: u64,
    /// Packets that were missing when they came, by their sequence numbers: lost before this server.
    pub missing: u64,
}

impl Counts {
    /// Nothing is counted yet.
    pub fn new() -> Counts
        ensures { result ≡ nothing_counted }
    {
        Counts {
            published: 0,
            pinned: 0,
            oversize: 0,
            bad_rtp: 0,
            unknown_channel: 0,
            unkept: 0,
            strangers: 0,
            sent: 0,
            skipped: 0,
            lost: 0,
            unsent: 0,
            slowed: 0,
            missing: 0,
        }
    }

    /// Adds the frames of a stretch of recording, each of which has one fate.
    pub fn add_in(&mut self, report: &InReport)
        ensures counts { self.new ≡ with_report self.old report.now }
        ensures closes { came_in self.old + total report.now < 2 ^ 64 → came_in self.new ≡ came_in self.old + total report.now }
    {
        self.published = self.published.saturating_add(report.published);
        self.pinned = self.pinned.saturating_add(report.pinned);
        self.oversize = self.oversize.saturating_add(report.oversize);
        self.bad_rtp = self.bad_rtp.saturating_add(report.bad_rtp);
        self.unknown_channel = self.unknown_channel.saturating_add(report.strangers);
        self.unkept = self
            .unkept
            .saturating_add(report.worn)
            .saturating_add(report.unkept);
    }

    /// Adds a frame that came while nothing was recorded.
    pub fn add_stranger(&mut self)
        ensures { self.new ≡ with_strangers self.old 1 }
    {
        self.strangers = self.strangers.saturating_add(1);
    }

    /// Adds the account of a seat that was left.
    pub fn add_out(&mut self, account: &SeatAccount)
        ensures counts { self.new ≡ with_account self.old account.now }
        ensures closes { accounted self.old + (account.now.sent + account.now.skipped + account.now.lost + account.now.unsent) < 2 ^ 64
            → accounted self.new ≡ accounted self.old + (account.now.sent + account.now.skipped + account.now.lost + account.now.unsent) }
    {
        self.sent = self.sent.saturating_add(account.sent);
        self.skipped = self.skipped.saturating_add(account.skipped);
        self.lost = self.lost.saturating_add(account.lost);
        self.unsent = self.unsent.saturating_add(account.unsent);
    }

    /// Adds the milliseconds for which packets waited for players.
    pub fn add_wait(&mut self, milliseconds: u64)
        ensures { self.new ≡ with_wait self.old milliseconds }
    {
        self.slowed = self.slowed.saturating_add(milliseconds);
    }

    /// Adds packets that were missing when they came.
    pub fn add_missing(&mut self, packets: u64)
        ensures { self.new ≡ with_missing self.old packets }
    {
        self.missing = self.missing.saturating_add(packets);
    }

    /// Ends the session: returns its counts, and resets them.
    pub fn end(&mut self) -> Counts
        ensures all { result ≡ self.old }
        ensures anew { self.new ≡ nothing_counted }
    {
        mem::replace(self, Counts::new())
    }

    /// Returns what was counted since the earlier counts of the same connection.
    pub fn since(&self, earlier: &Counts) -> Counts
        ensures { result ≡ counted_since self.now earlier.now }
    {
        Counts {
            published: self.published.saturating_sub(earlier.published),
            pinned: self.pinned.saturating_sub(earlier.pinned),
            oversize: self.oversize.saturating_sub(earlier.oversize),
            bad_rtp: self.bad_rtp.saturating_sub(earlier.bad_rtp),
            unknown_channel: self.unknown_channel.saturating_sub(earlier.unknown_channel),
            unkept: self.unkept.saturating_sub(earlier.unkept),
            strangers: self.strangers.saturating_sub(earlier.strangers),
            sent: self.sent.saturating_sub(earlier.sent),
            skipped: self.skipped.saturating_sub(earlier.skipped),
            lost: self.lost.saturating_sub(earlier.lost),
            unsent: self.unsent.saturating_sub(earlier.unsent),
            slowed: self.slowed.saturating_sub(earlier.slowed),
            missing: self.missing.saturating_sub(earlier.missing),
        }
    }

    /// Returns whether a packet of a mount was lost or refused. Strangers and what a player left unsent aren't losses.
    pub fn has_losses(&self) -> bool
        ensures { IsTrue result ↔ (0 < losses self.now) }
    {
        self.pinned > 0
            || self.oversize > 0
            || self.bad_rtp > 0
            || self.unknown_channel > 0
            || self.unkept > 0
            || self.lost > 0
    }
}

impl fmt::Display for Counts {
    fn fmt<W: fmt::Write>(&self, f: &mut fmt::Formatter<W>) -> fmt::Result {
        self.write_in(f)?;
        self.write_out(f)?;
        if self.slowed > 0 {
            write!(f, ", slowed {} ms", self.slowed)?;
        }
        if self.missing > 0 {
            write!(f, ", missing {}", self.missing)?;
        }
        Ok(())
    }
}

impl Counts {
    /// Writes what became of the frames that came in.
    fn write_in<W: fmt::Write>(&self, f: &mut fmt::Formatter<W>) -> fmt::Result {
        write!(
            f,
            "published {}, pinned {}, too long {}, bad RTP {}, unknown channel {}, no memory {}; ",
            self.published,
            self.pinned,
            self.oversize,
            self.bad_rtp,
            self.unknown_channel,
            self.unkept
        )
    }

    /// Writes what became of the packets that were to go out, and the strangers.
    fn write_out<W: fmt::Write>(&self, f: &mut fmt::Formatter<W>) -> fmt::Result {
        write!(
            f,
            "sent {}, skipped {}, lost {}, unsent {}; strangers {}",
            self.sent, self.skipped, self.lost, self.unsent, self.strangers
        )
    }
}
