ghost use Rattle.std.specs.Prelude.{◌≡◌, ◌≤◌, ℕ, length};
ghost use Rattle.cursor.specs.declared.takes.Account.{Account};
ghost use Rattle.cursor.specs.declared.takes.Delivery.{Delivery};
ghost use Rattle.cursor.specs.Account.{cursor_of};
ghost use Rattle.cursor.specs.Taps.{delivery_of, FitsBuffer, Counts};

use crate::takes::{Account, Taken};

/// Gives packets out, one after another.
pub trait Tap {
    /// Where it began, and what it took and lost since.
    ghost account: { Self → Account };

    /// The longest packet that it gives, in bytes.
    ghost packet_bytes: { Self → ℕ };

    /// Whether a take may give this answer, and leave the tap so.
    ghost take_gives: { Self → Delivery → Self → Type 0 };

    /// The next packet, or why there is none now. A packet's bytes are the first `len` of the buffer.
    fn take(&mut self, buf: &mut [u8]) -> Taken
        requires { packet_bytes self.old ≤ length buf.old }
        ensures gives { take_gives self.old (delivery_of result buf.new) self.new }
        ensures fits { FitsBuffer result (packet_bytes self.old) }
        ensures same { packet_bytes self.new ≡ packet_bytes self.old };

    /// The number of the next packet: the start, and the packets taken and lost since.
    fn cursor(&self) -> u64
        ensures { result ≡ cursor_of (account self.now) };

    /// Where the tap began, and what it took and lost since.
    fn account(&self) -> Account
        ensures { result ≡ account self.now };

    /// The longest packet that it gives, in bytes: at most 65,535.
    fn packet_bytes(&self) -> usize
        ensures value { result ≡ packet_bytes self.now }
        ensures bound { result ≤ 65535 };

    /// The account goes on by each answer.
    ghost counts: { (old : Self) (answer : Delivery) (new : Self) → take_gives old answer new
        → Counts (account old) answer (account new) };
}
