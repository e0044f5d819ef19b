//! Taps that can be left permanently.
ghost use Rattle.std.specs.Prelude.{◌≡◌};

use cursor::Left;
use packet_ring::Subscriber;

/// A tap that can be left permanently: its seat isn't taken again.
pub trait Leave {
    /// Leaves the seat, with its account. What the tap was a part of may go with it.
    fn leave_for_good(self) -> Left;
}

impl Leave for Subscriber {
    fn leave_for_good(self) -> Left
        ensures { (result.taken ≡ self.account.taken) × (result.lost ≡ self.account.lost) }
    {
        let (_pass, left) = self.detach();
        left
    }
}
