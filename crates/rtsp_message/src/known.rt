//! What a reader knows of the unit under way.

use crate::fault::Fault;

/// What is known of the bytes at the front of a stream. Places are counted from the first of them.
#[derive(Clone, Copy)]
pub enum Known {
    /// None of them was looked at.
    Nothing,
    /// They begin with a dollar sign, and fewer than four are there.
    Dollar,
    /// A frame of `len` bytes begins.
    Frame {
        len: usize,
    },
    /// A message begins, and no LF stands below `searched`.
    FirstLine {
        searched: usize,
    },
    /// A request line and good header lines take the bytes below `line`, and from there no LF stands below `searched`.
    /// The header fields announce a body of `told` bytes.
    Fields {
        line: usize,
        searched: usize,
        told: Option<u32>,
    },
    /// A message of `len` bytes begins, of which the first `head` are its head.
    Message {
        head: usize,
        len: usize,
    },
}

/// What stands at the front of a stream, where a unit or a byte between units may stand.
#[derive(Clone, Copy)]
pub enum Look {
    /// A byte between units.
    Pad,
    /// A frame of `len` bytes.
    Frame { len: usize },
    /// A message of `len` bytes, of which the first `head` are its head.
    Message { head: usize, len: usize },
    Bad(Fault),
    /// The beginning of a unit, of which this is known.
    Waits(Known),
}
