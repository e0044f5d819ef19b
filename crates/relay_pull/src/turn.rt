//! What is read and written in a try.
ghost use Rattle.std.specs.Prelude.{◌<◌, length};

use crate::limits::MOST_ROUNDS;
use crate::wires::{Moved, Wires};
use pull_session::{BLOCK_BYTES, PullSession};
use rtsp_client::{End, Side};

/// Reads and writes as far as both sides have bytes and room, in at most 16 rounds and until the try is over. Returns whether there may be
/// more to do.
pub(crate) fn turn<W: Wires>(
    session: &mut PullSession,
    wires: &mut W,
    buf: &mut Vec<u8>,
    now: u64,
) -> bool {
    for _ in 0..MOST_ROUNDS {
        if session.is_over(now) || !round(session, wires, buf, now) {
            return false;
        }
    }
    true
}

/// Reads each side once if the session takes its bytes, sends what is due, and writes what waits for each side once. Returns whether
/// something was moved.
fn round<W: Wires>(session: &mut PullSession, wires: &mut W, buf: &mut Vec<u8>, now: u64) -> bool {
    let mut has_moved = read_side(session, wires, Side::Target, buf, now);
    if session.may_read_source() {
        has_moved |= read_side(session, wires, Side::Source, buf, now);
    }
    session.advance(now);
    if write_side(session, wires, Side::Target, now) {
        // The next bytes are read into the memory of these, if the target took all of them.
        session.swap_block(buf);
        has_moved = true;
    }
    has_moved |= write_side(session, wires, Side::Source, now);
    has_moved
}

/// Reads a side once. Returns whether something came of it, or it has ended.
fn read_side<W: Wires>(
    session: &mut PullSession,
    wires: &mut W,
    side: Side,
    buf: &mut Vec<u8>,
    now: u64,
) -> bool {
    let most = buf.len().min(BLOCK_BYTES);
    match wires.read(side, &mut buf[..most]) {
        Moved::Bytes(count) => match side {
            Side::Source => session.read_block(buf, count, now),
            Side::Target => session.read(side, &buf[..count], now),
        },
        Moved::Later => return false,
        Moved::Ended => session.lose(side, End::StreamEnded { side }, now),
        Moved::Lost => session.lose(side, End::ConnectionLost { side }, now),
    }
    true
}

/// Writes what waits for a side once. Returns whether it took something, or is lost.
fn write_side<W: Wires>(session: &mut PullSession, wires: &mut W, side: Side, now: u64) -> bool {
    if session.waiting(side).is_empty() {
        return false;
    }
    match wires.write(side, session.waiting(side)) {
        Moved::Bytes(count) => session.took(side, count, now),
        Moved::Later => return false,
        Moved::Ended | Moved::Lost => session.lose(side, End::ConnectionLost { side }, now),
    }
    true
}
