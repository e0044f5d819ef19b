//! Cutting a unit out of a stream, once it is whole.
ghost use Rattle.std.specs.Prelude.{◌≡◌, ◌+◌, ◌≤◌, length, take, drop, IfOk};
ghost use Rattle.interleaved.specs.Frame.{IsFrame, FrameBegins};
ghost use Rattle.rtsp_message.specs.declared.request.Request.{Request};
ghost use Rattle.rtsp_message.specs.Heads.{IsHeadFrom};
ghost use Rattle.rtsp_message.specs.Stream.{IsMessageFrom};
ghost use Rattle.rtsp_message.specs.Stores.{LooksOnly};
ghost use Rattle.rtsp_message.specs.Knowns.{IsMessageStart};

use crate::head::{HeadFront, read_head};
use crate::peer::Peer;
use crate::request::Request;
use crate::store::Store;
use base_syntax::Bytes;
use interleaved::{FRAME_HEAD, Frame, Payload};
use std::alloc::{AllocError, Global};

/// Makes a frame of the bytes of one that stands whole at this place.
pub fn cut_frame(alloc: Global, store: &Store, from: usize, len: usize) -> Result<Frame, AllocError>
    requires start { from ≤ length store.now.bytes }
    requires frame { FrameBegins (drop from store.now.bytes) len }
    ensures { IfOk result (λ frame. IsFrame (take len (drop from store.now.bytes)) frame.channel frame.payload) }
{
    let size = store.len() - from;
    prove!(len <= size);
    frame_of(alloc, store.whole(from, from + len))
}

/// Makes a frame of its bytes.
fn frame_of(alloc: Global, bytes: &[u8]) -> Result<Frame, AllocError>
    requires { FrameBegins bytes.now (length bytes.now) }
    ensures { IfOk result (λ frame. IsFrame bytes.now frame.channel frame.payload) }
{
    let (_, data) = bytes.split_at(FRAME_HEAD);
    let channel = bytes[1];
    let payload = Payload::from(Bytes::from_slice(alloc, data)?);
    Ok(Frame { channel, payload })
}

/// Makes a request of a message from this peer that stands whole at this place. Its head is read once more, and its body is taken as it is.
pub fn cut_message(
    alloc: Global,
    store: &mut Store,
    peer: Peer,
    from: usize,
    head: usize,
    len: usize,
) -> Result<Request, AllocError>
    requires start { from ≤ length store.old.bytes }
    requires whole { len ≤ length (drop from store.old.bytes) }
    requires message { IsMessageStart peer (drop from store.old.bytes) head len }
    ensures ok { IfOk result (λ request. IsMessageFrom peer (take len (drop from store.old.bytes)) request) }
    ensures counts { LooksOnly store.old store.new 0 head }
{
    let size = store.len() - from;
    prove!(len <= size);
    let mut request = cut_head(alloc, peer, store.line(from, from + head))?;
    request.body = Bytes::from_slice(alloc, store.whole(from + head, from + len))?;
    Ok(request)
}

/// Makes a request without a body of its head.
fn cut_head(alloc: Global, peer: Peer, bytes: &[u8]) -> Result<Request, AllocError>
    requires { (request : Request) × IsHeadFrom peer bytes.now request }
    ensures { IfOk result (λ request. IsHeadFrom peer bytes.now request) }
{
    match read_head(alloc, peer, bytes)? {
        HeadFront::Whole { request, .. } => Ok(request),
        HeadFront::Bad(_) => unreachable!(),
        HeadFront::Unfinished => unreachable!(),
    }
}
