ghost use Rattle.std.specs.Prelude.{◌≡◌, ◌<◌, ◌≤◌, ◌^◌, length, take};

use crate::packets::Packet;
use base_syntax::Bytes;

/// What a take answers. The packet's bytes are in the buffer that was handed in.
#[derive(Clone, Copy, Debug, PartialEq, Eq)]
pub enum Taken {
    /// The packet of this number, whose bytes are the first `len` of the buffer.
    Packet { number: u64, tag: u8, len: usize },
    /// So many packets were no longer kept when their turn came.
    Lost(u64),
    /// There is no further packet yet.
    Empty,
    /// There is no further packet, and none will come.
    Ended,
}

/// What a take answers, with the packet itself.
#[derive(Debug, Drop)]
pub enum Delivery {
    /// The packet of this number.
    Got { number: u64, packet: Packet },
    /// So many packets were no longer kept when their turn came.
    Lost(u64),
    /// There is no further packet yet.
    Empty,
    /// There is no further packet, and none will come.
    Ended,
}

/// What one attachment has had so far: where it began, how many packets it took, and how many it lost.
#[derive(Clone, Copy, Debug, PartialEq, Eq)]
pub struct Account {
    /// The number that the seat read from.
    pub start: u64,
    pub taken: u64,
    pub lost: u64,
}

/// What a detachment tells: the packets taken, those lost, and those that were left for later.
#[derive(Clone, Copy, Debug, PartialEq, Eq)]
pub struct Left {
    pub taken: u64,
    pub lost: u64,
    pub left: u64,
}

impl Account {
    ghost use Rattle.cursor.specs.Account.{cursor_of};
    ghost use Rattle.cursor.specs.Log.{back_from};

    /// The account of a seat that begins up to `back` packets back from the end of a log of `count`, whose
    /// last `keep` are kept.
    pub fn begun(keep: u64, back: u64, count: u64) -> Account
        ensures { result ≡ record { start = back_from keep back count; taken = 0; lost = 0 } }
    {
        let kept = keep.min(count);
        Account {
            start: count - back.min(kept),
            taken: 0,
            lost: 0,
        }
    }

    /// The number of the next packet: the start, and the packets taken and lost since.
    pub fn cursor(self) -> u64
        requires { cursor_of self < 2 ^ 64 }
        ensures { result ≡ cursor_of self }
    {
        self.start + self.taken + self.lost
    }
}

impl Taken {
    ghost use Rattle.cursor.specs.Taps.{delivery_of};

    /// The answer with the packet itself, which is cut from the front of the buffer. Takes no memory.
    pub fn delivery(self, mut buffer: Vec<u8>) -> Delivery
        ensures { result ≡ delivery_of self buffer.items }
    {
        match self {
            Taken::Packet { number, tag, len } => {
                buffer.truncate(len);
                let bytes = Bytes::new(buffer);
                Delivery::Got {
                    number,
                    packet: Packet { tag, bytes },
                }
            }
            Taken::Lost(count) => Delivery::Lost(count),
            Taken::Empty => Delivery::Empty,
            Taken::Ended => Delivery::Ended,
        }
    }
}

/// Copies bytes to the front of a buffer, and answers how many these are.
pub(crate) fn copy_front(bytes: &[u8], buffer: &mut [u8]) -> usize
    requires { length bytes.now ≤ length buffer.old }
    ensures len { result ≡ length bytes.now }
    ensures size { length buffer.new ≡ length buffer.old }
    ensures front { take result buffer.new ≡ bytes.now }
{
    let len = bytes.len();
    buffer[..len].copy_from_slice(bytes);
    len
}
