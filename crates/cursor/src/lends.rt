ghost use Rattle.std.specs.Prelude.{◌≡◌, ◌≤◌};
ghost use Rattle.cursor.specs.Taps.{FitsBuffer};
ghost use Rattle.cursor.specs.Visits.{TakesWith};

use crate::takes::Taken;
use crate::taps::Tap;
use crate::visits::Visit;

/// A tap that lends its packets, so that none is copied.
pub trait Lend: Tap {
    /// The next packet, or why there is none now, as `take` answers. A packet is shown to the visitor once,
    /// and nothing is where there is none. No byte is copied, and nothing is lent when the call returns.
    fn take_with<V: Visit>(&mut self, visitor: &mut V) -> Taken
        requires { Self.packet_bytes self.old ≤ V.packet_bytes visitor.old }
        ensures gives { TakesWith Self.take_gives V.see_gives self.old visitor.old result self.new visitor.new }
        ensures fits { FitsBuffer result (Self.packet_bytes self.old) }
        ensures same { Self.packet_bytes self.new ≡ Self.packet_bytes self.old }
        ensures room { V.packet_bytes visitor.new ≡ V.packet_bytes visitor.old };
}
