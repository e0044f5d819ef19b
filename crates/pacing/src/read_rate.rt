//! How fast a connection is read that doesn't record.
ghost use Rattle.std.specs.Prelude.{◌≡◌, ◌≤◌};
ghost use Rattle.pacing.specs.ReadRates.{counted, rest_of};

/// How long a window is, in milliseconds.
const WINDOW: u64 = 16;

/// How many bytes are read in a window before nothing more is read for a while.
const MOST: u64 = 65_536;

/// How many bytes are read in a millisecond, taken over a window and what follows it.
const SPEED: u64 = 4_096;

/// The longest time in which nothing is read, from the window's begin, in milliseconds.
const LONGEST: u64 = 64;

/// How fast a connection is read that doesn't record: once 65,536 bytes were read within 16 milliseconds, nothing more is read until
/// a millisecond has passed for each 4,096 of them: some 4 MB a second. Moments are milliseconds of a clock that doesn't go back.
#[derive(Clone, Copy, Debug, PartialEq, Eq, Drop)]
pub struct ReadRate {
    /// When the window of the last read began.
    pub began: u64,
    /// How many bytes were read in it.
    pub bytes: u64,
}

impl ReadRate {
    /// Nothing was read.
    pub fn new() -> ReadRate
        ensures { result ≡ record { began = 0; bytes = 0 } }
    {
        ReadRate { began: 0, bytes: 0 }
    }

    /// Bytes were read at this moment. Returns for how many milliseconds nothing more is to be read, at most 64.
    pub fn read(&mut self, now: u64, bytes: u64) -> u64
        ensures counted { self.new ≡ counted self.old now bytes }
        ensures rest { result ≡ rest_of self.new now }
        ensures short { result ≤ 64 }
    {
        if now.saturating_sub(self.began) < WINDOW {
            self.bytes = self.bytes.saturating_add(bytes);
        } else {
            *self = ReadRate { began: now, bytes };
        }
        if self.bytes < MOST {
            return 0;
        }
        let passed = now.saturating_sub(self.began);
        (self.bytes / SPEED).min(LONGEST).saturating_sub(passed)
    }
}
