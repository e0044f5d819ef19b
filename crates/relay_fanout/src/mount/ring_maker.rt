//! Rings as what packets of a mount go through.
ghost use Rattle.std.specs.Prelude.{◌≡◌, ◌≤◌, false, IfOk, replicate};
ghost use Rattle.cursor.specs.Log.{back_from};
ghost use Rattle.pacing.specs.declared.recent.Back.TheVariants.{Packets};
ghost use Rattle.packet_ring.specs.Views.{keep_of, new_pass, packet_bytes_of, seats_of};

use crate::mount::maker::Maker;
use cursor::Left;
use pacing::Back;
use packet_ring::{Pass, Publisher, Subscriber};
use std::alloc::{AllocError, Global};

/// Makes rings.
#[derive(Clone, Copy, Drop)]
pub struct RingMaker {
    /// How many packets each keeps.
    pub keep: usize,
    pub seats: usize,
    /// How many bytes the longest packet has.
    pub packet_bytes: usize,
    /// With which packets from before each PLAY begins.
    pub back: Back,
    /// Whether frame threads write packets from where they lie in the ring.
    pub is_direct: bool,
    ghost keeps: { (1 ≤ keep) × (keep ≤ 4095) },
    ghost seated: { seats ≤ 1024 },
    ghost bounded: { (1 ≤ packet_bytes) × (packet_bytes ≤ 65535) },
}

impl RingMaker {
    /// Makes rings that keep `keep` packets of at most `packet_bytes` bytes, with `seats` seats.
    pub fn new(keep: usize, seats: usize, packet_bytes: usize) -> RingMaker
        requires keep { (1 ≤ keep) × (keep ≤ 4095) }
        requires seats { seats ≤ 1024 }
        requires packet_bytes { (1 ≤ packet_bytes) × (packet_bytes ≤ 65535) }
        ensures rings { (result.keep ≡ keep) × (result.seats ≡ seats) × (result.packet_bytes ≡ packet_bytes) }
        ensures players { (result.back ≡ Packets 0) × (result.is_direct ≡ false) }
    {
        RingMaker {
            keep,
            seats,
            packet_bytes,
            back: Back::Packets(0),
            is_direct: false,
        }
    }

    /// The same, for players that begin with these packets from before.
    pub fn going_back(self, back: Back) -> RingMaker
        ensures back { result.back ≡ back }
        ensures same { (result.keep ≡ self.keep) × (result.seats ≡ self.seats) × (result.packet_bytes ≡ self.packet_bytes) × (result.is_direct ≡ self.is_direct) }
    {
        RingMaker {
            keep: self.keep,
            seats: self.seats,
            packet_bytes: self.packet_bytes,
            back,
            is_direct: self.is_direct,
        }
    }

    /// The same, with `is_direct`: whether frame threads write packets from where they lie in the ring.
    pub fn lending(self, is_direct: bool) -> RingMaker
        ensures direct { result.is_direct ≡ is_direct }
        ensures same { (result.keep ≡ self.keep) × (result.seats ≡ self.seats) × (result.packet_bytes ≡ self.packet_bytes) × (result.back ≡ self.back) }
    {
        RingMaker {
            keep: self.keep,
            seats: self.seats,
            packet_bytes: self.packet_bytes,
            back: self.back,
            is_direct,
        }
    }
}

impl Maker for RingMaker {
    type In = Publisher;

    type Pass = Pass;

    type Out = Subscriber;

    fn make(&self, alloc: Global) -> Result<(Publisher, Vec<Pass>), AllocError>
        ensures sizes { IfOk result (λ r. (keep_of r.0.ring ≡ self.now.keep) × (seats_of r.0.ring ≡ self.now.seats) × (packet_bytes_of r.0.ring ≡ self.now.packet_bytes)) }
        ensures passes { IfOk result (λ r. r.1.items ≡ replicate self.now.seats (new_pass r.0.ring)) }
    {
        packet_ring::new(alloc, self.keep, self.seats, self.packet_bytes)
    }

    fn attach(&self, pass: Pass, back: u64) -> Subscriber {
        pass.attach_back(back)
    }

    fn detach(&self, out: Subscriber) -> (Pass, Left) {
        out.detach()
    }

    fn keep(&self) -> u64
        ensures { result ≡ self.now.keep }
    {
        self.keep as u64
    }

    fn back(&self) -> Back
        ensures { result ≡ self.now.back }
    {
        self.back
    }

    fn is_direct(&self) -> bool
        ensures { result ≡ self.now.is_direct }
    {
        self.is_direct
    }
}
