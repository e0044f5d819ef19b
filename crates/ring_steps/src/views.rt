ghost use Rattle.std.specs.Prelude.{◌≡◌, ◌+◌, ◌<◌, ◌^◌};

use crate::words::Head;
use base_syntax::Bytes;
use cursor::Account;

/// Where the publisher is within a call.
#[derive(Clone, Copy, Debug, PartialEq, Eq)]
pub enum PublisherPhase {
    /// Between two calls.
    Between,
    /// The slot was begun, and nothing is written yet.
    Begun,
    /// The length cell is written, and perhaps some bytes.
    Filling,
    /// The slot was finished, and its packet isn't appended yet.
    Finished,
}

/// What the publisher knows, beside the log.
#[derive(Debug, Drop)]
pub struct Publisher {
    pub closed: bool,
    pub phase: PublisherPhase,
    /// The packet that is being published, from its begin to its append.
    pub packet: Bytes,
    /// How many of its bytes are written.
    pub written: usize,
    /// How many begins failed so far.
    pub failed: u64,
    /// The pins that the last failed begin saw.
    pub pins: u64,
}

/// Where a seat is within a call.
#[derive(Clone, Copy, Debug, PartialEq, Eq)]
pub enum SeatPhase {
    /// Detached.
    Out,
    /// Attached, and between two calls.
    Between,
    /// A take's first load found that the packet at the cursor is there.
    Found,
    /// The pin saw the packet's number and no writing.
    Holding,
    /// The length cell is read, and perhaps some bytes.
    Reading,
    /// The pin saw another number, or writing.
    Failed,
    /// The failed pin is taken back.
    Missed,
}

/// What a seat knows.
#[derive(Debug, Drop)]
pub struct Seat {
    pub phase: SeatPhase,
    /// Where the attachment began, what it took and what it lost; together the cursor.
    pub account: Account,
    /// The length of the log that the last load saw.
    pub seen: u64,
    /// Whether the last load saw the log closed.
    pub saw_closed: bool,
    /// How many loads the seat made.
    pub loads: u64,
    /// How many failed pins it took back.
    pub misses: u64,
    /// The length cell as it was read.
    pub length: usize,
    /// The bytes read so far.
    pub read: Bytes,
}

impl Seat {
    /// The head was loaded.
    pub(crate) fn load(&mut self, head: Head)
        requires { self.old.loads < 2 ^ 63 }
        ensures { self.new ≡ record self.old { seen = head.length; saw_closed = head.closed; loads = self.old.loads + 1 } }
    {
        self.seen = head.length;
        self.saw_closed = head.closed;
        self.loads += 1;
    }
}
