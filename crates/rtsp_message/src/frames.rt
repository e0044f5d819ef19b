//! Whole frames at the front of a stream, cut out of one block.
ghost use Rattle.std.specs.Prelude.{◌≡◌, ◌*◌, ◌<◌, ◌≤◌, length, take, drop, IfOk, IfSome};
ghost use Rattle.interleaved.specs.Frame.{IsFrame};
ghost use Rattle.rtsp_message.specs.declared.peer.Peer.{Peer};
ghost use Rattle.rtsp_message.specs.Stream.{ReadsSoFar};
ghost use Rattle.rtsp_message.specs.Parts.{AreFew};

use crate::unit::Unit;
use interleaved::{FRAME_HEAD, Frame, FrameAt, Payload, frame_at};
use std::alloc::{AllocError, Global};

/// The whole frames at the front of some bytes.
#[derive(Clone, Copy)]
pub struct Frames {
    pub count: usize,
    /// How many bytes they take.
    pub len: usize,
}

/// The whole frames at the front of some bytes: at most `most`, and at most `most_bytes` bytes unless the first is longer.
pub fn frames_at(bytes: &[u8], most: usize, most_bytes: usize) -> Frames
    ensures within { result.len ≤ length bytes.now }
    ensures few { AreFew result.count bytes.now result.len }
    ensures most { result.count ≤ most }
{
    let mut len = 0;
    let mut count = 0;
    while count < most {
        let rest = &bytes[len..];
        if rest.first() != Some(&b'$') {
            break;
        }
        let FrameAt::Whole(size) = frame_at(rest) else {
            break;
        };
        if count > 0 && len + size > most_bytes {
            break;
        }
        len += size;
        count += 1;
    }
    Frames { count, len }
}

/// The frames of a piece that is whole frames and nothing else. It is copied into a block once, and the data of each frame is
/// a part of that. `None` if the piece holds anything else.
pub fn cut_frames(alloc: Global, piece: &[u8]) -> Result<Option<Vec<Unit>>, AllocError>
    ensures reads { IfOk result (λ found. IfSome found (λ units. (peer : Peer) → ReadsSoFar peer piece.now units.items (length piece.now))) }
    ensures few { IfOk result (λ found. IfSome found (λ units. 4 * length units.items ≤ length piece.now)) }
{
    let frames = frames_at(piece, usize::MAX, usize::MAX);
    if frames.count == 0 || frames.len < piece.len() {
        return Ok(None);
    }
    let block = bytes::Bytes::from_vec(Vec::from_slice(alloc, piece)?)?;
    parts_of(alloc, &block, frames.count)
}

/// The frames of a block that is whole frames and nothing else, `count` of them. `None` if the block holds anything else.
fn parts_of(
    alloc: Global,
    block: &bytes::Bytes,
    count: usize,
) -> Result<Option<Vec<Unit>>, AllocError>
    ensures reads { IfOk result (λ found. IfSome found (λ units. (peer : Peer) → ReadsSoFar peer block.now units.items (length block.now))) }
    ensures few { IfOk result (λ found. IfSome found (λ units. 4 * length units.items ≤ length block.now)) }
{
    let mut units = Vec::with_capacity(alloc, count)?;
    let mut from = 0;
    while from < block.len() {
        let Some((frame, len)) = part_at(block, from)? else {
            return Ok(None);
        };
        units.push(Unit::Frame(frame))?;
        from += len;
    }
    Ok(Some(units))
}

/// The frame that stands whole at a place of a block, and how many bytes it takes. Its data is a part of the block.
fn part_at(block: &bytes::Bytes, from: usize) -> Result<Option<(Frame, usize)>, AllocError>
    requires { from < length block.now }
    ensures within { IfOk result (λ found. IfSome found (λ cut. cut.1 ≤ length (drop from block.now))) }
    ensures frame { IfOk result (λ found. IfSome found (λ cut. IsFrame (take cut.1 (drop from block.now)) cut.0.channel cut.0.payload)) }
{
    let bytes = block.as_slice();
    let rest = &bytes[from..];
    if rest.first() != Some(&b'$') {
        return Ok(None);
    }
    let FrameAt::Whole(len) = frame_at(rest) else {
        return Ok(None);
    };
    let channel = rest[1];
    let payload = Payload::from(block.slice(from + FRAME_HEAD..from + len)?);
    Ok(Some((Frame { channel, payload }, len)))
}
