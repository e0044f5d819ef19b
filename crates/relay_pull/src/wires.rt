//! The two connections of a try, as a device.
ghost use Rattle.std.specs.Prelude.{length};

use rtsp_client::Side;
use std::io::ErrorKind;

/// What a read or a write has moved.
#[derive(Clone, Copy, Debug, PartialEq, Eq, Drop)]
pub enum Moved {
    /// This number of bytes.
    Bytes(usize),
    /// Nothing: there are no bytes, or there is no room, or the connection is closed.
    Later,
    /// Nothing: the server sends no more.
    Ended,
    /// Nothing: the connection is lost.
    Lost,
}

/// The connections of a try to its source and its target. No call but `wait` waits for a peer.
pub trait Wires {
    ghost use Rattle.relay_pull.specs.Moving.{IsWithin};

    /// Reads what has come of a side.
    fn read(&mut self, side: Side, buf: &mut [u8]) -> Moved
        ensures { IsWithin result (length buf.new) };

    /// Writes bytes to a side, as far as there is room.
    fn write(&mut self, side: Side, bytes: &[u8]) -> Moved
        ensures { IsWithin result (length bytes.now) };

    /// Returns why the connection to a side is lost, if the system says why.
    fn failure(&self, side: Side) -> Option<ErrorKind>;

    /// Waits until a side has bytes or room that it hadn't before, for at most this number of milliseconds.
    fn wait(&mut self, milliseconds: u64);
}
