//! Blocks of binary data that stand between the messages of a connection (RFC 2326, 10.12).
ghost use Rattle.std.specs.Prelude.{◌≡◌, ◌↔◌, ℕ, ◌+◌, ◌*◌, ◌<◌, ◌≤◌, List, ◌++◌, length, take, slice_index, OnOk, OnErr};
ghost use Rattle.interleaved.specs.Frame.{IsFrame, MayBeginFrame, StandsAt, frame_of, head_of};

use crate::payload::Payload;
use std::alloc::AllocError;
use std::error::Error;
use std::fmt;

/// The sign that a frame begins with, `$`.
const DOLLAR: u8 = 0x24;

/// A dollar sign, the channel and the two bytes of the length stand before the data.
pub const FRAME_HEAD: usize = 4;

/// A block of binary data on a channel.
#[derive(Debug, Drop)]
pub struct Frame {
    /// The channel that the data belongs to, as SETUP gave it.
    pub channel: u8,
    /// The data, at most 65,535 bytes in a frame that came from a connection.
    pub payload: Payload,
}

/// What stands at the front of some bytes where a frame may begin.
#[derive(Clone, Copy, Debug, PartialEq, Eq)]
pub enum FrameAt {
    /// A whole frame of so many bytes, its head included.
    Whole(usize),
    /// The bytes so far begin with no frame.
    NeedMore,
}

/// Why a frame was not put.
#[derive(Clone, Copy, Debug, PartialEq, Eq)]
pub enum PutFault {
    /// The data is longer than 65,535 bytes.
    TooLong,
    /// There was no memory for it.
    OutOfMemory,
}

impl PutFault {
    /// The number of this fault.
    pub fn number(self) -> u8
        ensures too_long { self ≡ PutFault.TooLong → result ≡ 1 }
        ensures out_of_memory { self ≡ PutFault.OutOfMemory → result ≡ 2 }
    {
        match self {
            PutFault::TooLong => 1,
            PutFault::OutOfMemory => 2,
        }
    }
}

impl fmt::Display for PutFault {
    ghost use Rattle.std.specs.Prelude.{Some};
    ghost use Rattle.interleaved.specs.Frame.{put_fault_text};

    ghost output = { λ fault. Some (put_fault_text fault) };

    fn fmt<W: fmt::Write>(&self, f: &mut fmt::Formatter<W>) -> fmt::Result {
        match self {
            PutFault::TooLong => write!(f, "the data is too long for a frame"),
            PutFault::OutOfMemory => write!(f, "out of memory"),
        }
    }
}

impl Error for PutFault {}

impl From<AllocError> for PutFault {
    ghost use Rattle.interleaved.specs.declared.frame.PutFault.TheVariants.{OutOfMemory};

    ghost from_gives = { λ _ e. e ≡ OutOfMemory };

    fn from(_error: AllocError) -> PutFault {
        PutFault::OutOfMemory
    }
}

/// The four bytes that stand before `len` bytes of data on the channel.
pub fn frame_head(channel: u8, len: u16) -> [u8; FRAME_HEAD]
    ensures { result ≡ head_of channel len }
{
    let [high, low] = len.to_be_bytes();
    [DOLLAR, channel, high, low]
}

/// How long the frame is that begins with these four bytes: they, and the data whose length the last two tell, the high
/// one first.
pub fn frame_len(head: [u8; FRAME_HEAD]) -> usize
    ensures value { result ≡ 4 + (256 * slice_index head 2 + slice_index head 3) }
    ensures most { result ≤ 65_539 }
    ensures frame { (bytes payload : List ℕ) (channel : ℕ) → take 4 bytes ≡ head → IsFrame bytes channel payload → length bytes ≡ result }
{
    let [_, _, high, low] = head;
    FRAME_HEAD + usize::from(u16::from_be_bytes([high, low]))
}

/// Appends the frame of the data on the channel. After a refusal `out` is as it was.
pub fn put_frame(out: &mut Vec<u8>, channel: u8, payload: &[u8]) -> Result<(), PutFault>
    ensures ok { OnOk result (out.new.items ≡ out.old.items ++ frame_of channel payload.now) }
    ensures frame { OnOk result ((block : List ℕ) × (out.new.items ≡ out.old.items ++ block) × IsFrame block channel payload.now) }
    ensures too_long { (result ≡ Err PutFault.TooLong) ↔ (65_535 < length payload.now) }
    ensures err { OnErr result (out.new.items ≡ out.old.items) }
{
    let Ok(len) = u16::try_from(payload.len()) else {
        return Err(PutFault::TooLong);
    };
    let head = frame_head(channel, len);
    out.reserve(FRAME_HEAD + payload.len())?;
    out.extend_from_slice(&head).unwrap();
    out.extend_from_slice(payload).unwrap();
    Ok(())
}

/// What stands at the front of the bytes, at a place where a frame may begin. Bytes that need more are fewer than the
/// 65,539 that a frame may have.
pub fn frame_at(bytes: &[u8]) -> FrameAt
    requires { MayBeginFrame bytes.now }
    ensures stands { StandsAt bytes.now result }
    ensures short { result ≡ FrameAt.NeedMore → length bytes.now < 65_539 }
{
    match bytes {
        [_, _, high, low, ..] => {
            let len = FRAME_HEAD + usize::from(u16::from_be_bytes([*high, *low]));
            if len <= bytes.len() {
                FrameAt::Whole(len)
            } else {
                FrameAt::NeedMore
            }
        }
        _ => FrameAt::NeedMore,
    }
}
