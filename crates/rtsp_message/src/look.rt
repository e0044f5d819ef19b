//! What stands at the front of a stream, told from what is known of it and the bytes that came since.
ghost use Rattle.std.specs.Prelude.{◌≡◌, ◌+◌, ◌-◌, ◌*◌, ◌<◌, ◌≤◌, length, take, drop, IfSome, IfNone};
ghost use Rattle.base_syntax.specs.Lines.{HasNoLf};
ghost use Rattle.rtsp_message.specs.declared.peer.Peer.{Peer};
ghost use Rattle.rtsp_message.specs.Limits.{head_limit};
ghost use Rattle.rtsp_message.specs.Stream.{is_pad as is_pad_byte, BeginsFrame, BeginsMessage};
ghost use Rattle.rtsp_message.specs.Stores.{IsFirstLf, LooksOnly};
ghost use Rattle.rtsp_message.specs.Knowns.{IsKnown, IsFirstLineStart, IsFieldsStart, IsLook, looks_for, looks_to_find, searched_to};

use crate::MAX_HEAD;
use crate::fault::Fault;
use crate::judging::{Judged, judge_line};
use crate::known::{Known, Look};
use crate::lines::read_start_line;
use crate::peer::Peer;
use crate::store::Store;
use base_syntax::without_cr;
use interleaved::{FRAME_HEAD, frame_len};

/// Tells what stands at this place of the stream of this peer.
pub fn look(store: &mut Store, peer: Peer, from: usize, known: Known) -> Look
    requires some { from < length store.old.bytes }
    requires known { IsKnown peer (drop from store.old.bytes) known }
    ensures found { IsLook peer (drop from store.old.bytes) result }
    ensures counts { LooksOnly store.old store.new (looks_for known) (looks_to_find (length (drop from store.old.bytes)) result) }
{
    let size = store.len() - from;
    match known {
        Known::Nothing => look_first(store, peer, from),
        Known::Dollar => look_frame_head(store, from),
        Known::Frame { len } => look_frame(size, len),
        Known::FirstLine { searched } => look_first_line(store, peer, from, searched),
        Known::Fields {
            line,
            searched,
            told,
        } => look_fields(store, peer, from, line, searched, told),
        Known::Message { head, len } => look_message(size, head, len),
    }
}

/// Tells what stands at a place where nothing was looked at.
fn look_first(store: &mut Store, peer: Peer, from: usize) -> Look
    requires { from < length store.old.bytes }
    ensures found { IsLook peer (drop from store.old.bytes) result }
    ensures counts { LooksOnly store.old store.new 0 (looks_to_find (length (drop from store.old.bytes)) result) }
{
    let first = store.at(from);
    if is_pad(first) {
        return Look::Pad;
    }
    if first == b'$' {
        look_frame_head(store, from)
    } else {
        look_first_line(store, peer, from, 0)
    }
}

/// Tells what stands after a dollar sign.
fn look_frame_head(store: &mut Store, from: usize) -> Look
    requires start { from < length store.old.bytes }
    requires begins { BeginsFrame (drop from store.old.bytes) }
    ensures found { (peer : Peer) → IsLook peer (drop from store.old.bytes) result }
    ensures counts { LooksOnly store.old store.new 1 (looks_to_find (length (drop from store.old.bytes)) result) }
{
    let size = store.len() - from;
    if size < FRAME_HEAD {
        return Look::Waits(Known::Dollar);
    }
    let channel = store.at(from + 1);
    let high = store.at(from + 2);
    let low = store.at(from + 3);
    look_frame(size, frame_len([b'$', channel, high, low]))
}

/// Tells whether a frame of so many bytes is whole among `size` bytes.
fn look_frame(size: usize, len: usize) -> Look
    ensures whole { len ≤ size → result ≡ Look.Frame len }
    ensures waits { size < len → result ≡ Look.Waits (Known.Frame len) }
{
    if size >= len {
        Look::Frame { len }
    } else {
        Look::Waits(Known::Frame { len })
    }
}

/// Tells whether a message of so many bytes is whole among `size` bytes.
fn look_message(size: usize, head: usize, len: usize) -> Look
    ensures whole { len ≤ size → result ≡ Look.Message head len }
    ensures waits { size < len → result ≡ Look.Waits (Known.Message head len) }
{
    if size >= len {
        Look::Message { head, len }
    } else {
        Look::Waits(Known::Message { head, len })
    }
}

/// Tells what a message is that begins here, where no LF stands below `searched`.
fn look_first_line(store: &mut Store, peer: Peer, from: usize, searched: usize) -> Look
    requires start { from < length store.old.bytes }
    requires known { IsFirstLineStart (drop from store.old.bytes) searched }
    ensures found { IsLook peer (drop from store.old.bytes) result }
    ensures counts { LooksOnly store.old store.new (1 + searched) (looks_to_find (length (drop from store.old.bytes)) result) }
{
    let size = store.len() - from;
    let Some(end) = line_end(store, from, searched) else {
        return unended(size, Known::FirstLine { searched: size });
    };
    match read_start_line(peer, without_cr(store.line(from, from + end))) {
        Some(_) => look_fields(store, peer, from, end + 1, end + 1, None),
        None => Look::Bad(Fault::BadLine),
    }
}

/// Tells what a message is that begins here with lines below `line` that are good, and has no LF from there to `searched`.
fn look_fields(
    store: &mut Store,
    peer: Peer,
    from: usize,
    mut line: usize,
    mut searched: usize,
    mut told: Option<u32>,
) -> Look
    requires start { from < length store.old.bytes }
    requires known { IsFieldsStart peer (drop from store.old.bytes) line searched told }
    ensures found { IsLook peer (drop from store.old.bytes) result }
    ensures counts { LooksOnly store.old store.new (1 + searched + line) (looks_to_find (length (drop from store.old.bytes)) result) }
{
    let size = store.len() - from;
    while let Some(end) = line_end(store, from, searched) {
        match judge_line(told, without_cr(store.line(from + line, from + end))) {
            Judged::Header(length) => told = length,
            Judged::Empty => {
                let head = end + 1;
                let len = head + told.unwrap_or(0) as usize;
                return look_message(size, head, len);
            }
            Judged::Bad(fault) => return Look::Bad(fault),
        }
        line = end + 1;
        searched = line;
    }
    unended(
        size,
        Known::Fields {
            line,
            searched: size,
            told,
        },
    )
}

/// The place of the LF that ends the line under way, where it stands among the bytes that a head may have. Below
/// `searched` no LF stands in that line.
fn line_end(store: &mut Store, from: usize, searched: usize) -> Option<usize>
    requires start { from ≤ length store.old.bytes }
    requires within { searched ≤ length (drop from store.old.bytes) }
    ensures some { IfSome result (λ end. IsFirstLf (drop from store.old.bytes) searched end × (end < head_limit)) }
    ensures none { IfNone result (HasNoLf (drop searched (take head_limit (drop from store.old.bytes)))) }
    ensures counts { LooksOnly store.old store.new searched (searched_to (length (drop from store.old.bytes)) result) }
{
    let size = store.len();
    let place = from + searched;
    prove!(place <= size);
    let end = store.find_lf(place)? - from;
    if end < MAX_HEAD { Some(end) } else { None }
}

/// What a head is that didn't end among `size` bytes: more of it may come, unless it is too long already.
fn unended(size: usize, known: Known) -> Look
    ensures long { head_limit ≤ size → result ≡ Look.Bad Fault.HeadTooLong }
    ensures short { size < head_limit → result ≡ Look.Waits known }
{
    if size < MAX_HEAD {
        Look::Waits(known)
    } else {
        Look::Bad(Fault::HeadTooLong)
    }
}

/// Whether a byte may stand between units: a CR or an LF.
fn is_pad(byte: u8) -> bool
    ensures { result ≡ is_pad_byte byte }
{
    byte == b'\r' || byte == b'\n'
}
