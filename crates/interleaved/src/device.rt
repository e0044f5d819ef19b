//! What a device is: where bytes come from, or go to.
ghost use Rattle.std.specs.Prelude.{◌≡◌, ℕ, ◌+◌, ◌^◌, ◌<◌, ◌≤◌, List, [], Option, Bool, true, false, length, take, IfOk, OnOk, OnErr};
ghost use Rattle.std.specs.Io.KnownBytes.{Keeps, Appends, Consumes, IsAtEnd};

use std::error::Error;
use std::fmt;

/// A refused call of a device, which has failed for good.
#[derive(Clone, Copy, Debug, PartialEq, Eq)]
pub struct Failed;

impl fmt::Display for Failed {
    ghost use Rattle.std.specs.Prelude.{Some, codes};

    ghost output = { λ _. Some (codes "the device has failed") };

    fn fmt<W: fmt::Write>(&self, f: &mut fmt::Formatter<W>) -> fmt::Result {
        write!(f, "the device has failed")
    }
}

impl Error for Failed {}

/// A device that bytes come from.
///
/// It works until it refuses a call. A refused call moves no byte, and from then on each call is
/// refused and leaves the device as it is.
pub trait Source {
    /// The bytes still to come, where the device tells them.
    ghost incoming: { Self → Option (List ℕ) };

    /// At most so many bytes are still to come.
    ghost bound: { Self → ℕ };

    /// It has refused a call.
    ghost failed: { Self → Bool };

    /// One call of `read` may lead from the one to the other and give these bytes, none where it is
    /// refused.
    ghost gives: { Self → List ℕ → Self → Type 0 };

    /// Reads bytes to the front of `buf` and says how many: 0 into a buffer that isn't empty is the
    /// end. `Failed` where the device fails now or failed before.
    fn read(&mut self, buf: &mut [u8]) -> Result<usize, Failed>
        ensures count { IfOk result (λ n. n ≤ length buf.new) }
        ensures bytes { IfOk result (λ n. Consumes (incoming self.old) (incoming self.new) (take n buf.new)) }
        ensures gave { IfOk result (λ n. gives self.old (take n buf.new) self.new) }
        ensures end { IfOk result (λ n. n ≡ 0 → 0 < length buf.new → IsAtEnd (incoming self.new)) }
        ensures left { IfOk result (λ n. bound self.new + n ≡ bound self.old) }
        ensures working { OnOk result ((failed self.old ≡ false) × (failed self.new ≡ false)) }

        ensures refused { OnErr result (failed self.new ≡ true) }
        ensures refused_moves_none { OnErr result (Keeps (incoming self.old) (incoming self.new)) }
        ensures refused_gave { OnErr result (gives self.old [] self.new) }
        ensures refused_left { OnErr result (bound self.new ≡ bound self.old) }
        ensures stays { failed self.old ≡ true → self.new ≡ self.old };

    /// At most so many bytes are still to come, and never more than 2^63.
    fn left(&self) -> u64
        ensures value { result ≡ bound self.now }
        ensures most { result ≤ 2 ^ 63 };

    /// Whether the device has refused a call.
    fn has_failed(&self) -> bool
        ensures { result ≡ failed self.now };
}

/// A device that bytes go to.
///
/// It works until it refuses a call. A refused call moves no byte, and from then on each call is
/// refused and leaves the device as it is.
pub trait Sink {
    /// The bytes written so far, where the device tells them.
    ghost written: { Self → Option (List ℕ) };

    /// It has refused a call.
    ghost failed: { Self → Bool };

    /// Writes bytes from the front of `bytes` and says how many: at least 1, if there is one.
    /// `Failed` where the device fails now or failed before.
    fn write(&mut self, bytes: &[u8]) -> Result<usize, Failed>
        ensures count { IfOk result (λ n. n ≤ length bytes.now) }
        ensures progress { IfOk result (λ n. 0 < length bytes.now → 0 < n) }
        ensures bytes { IfOk result (λ n. Appends (written self.old) (written self.new) (take n bytes.now)) }
        ensures working { OnOk result ((failed self.old ≡ false) × (failed self.new ≡ false)) }

        ensures refused { OnErr result (failed self.new ≡ true) }
        ensures refused_moves_none { OnErr result (Keeps (written self.old) (written self.new)) }
        ensures stays { failed self.old ≡ true → self.new ≡ self.old };

    /// Whether the device has refused a call.
    fn has_failed(&self) -> bool
        ensures { result ≡ failed self.now };
}

/// A sink that can also be written to without waiting, as a socket whose peer may read nothing for a while.
pub trait TrySink: Sink {
    /// One call of `try_write` with these bytes may lead from the one to the other, and take so many of them.
    ghost takes: { Self → List ℕ → ℕ → Self → Type 0 };

    /// Writes bytes from the front of `bytes`, as many as the device takes at once, and says how many: none where it takes
    /// none now, which is no failure. `Failed` where the device fails now or failed before.
    fn try_write(&mut self, bytes: &[u8]) -> Result<usize, Failed>
        ensures count { IfOk result (λ n. n ≤ length bytes.now) }
        ensures bytes { IfOk result (λ n. Appends (Self.written self.old) (Self.written self.new) (take n bytes.now)) }
        ensures took { IfOk result (λ n. takes self.old bytes.now n self.new) }
        ensures working { OnOk result ((Self.failed self.old ≡ false) × (Self.failed self.new ≡ false)) }

        ensures refused { OnErr result (Self.failed self.new ≡ true) }
        ensures refused_moves_none { OnErr result (Keeps (Self.written self.old) (Self.written self.new)) }
        ensures stays { Self.failed self.old ≡ true → self.new ≡ self.old };
}
