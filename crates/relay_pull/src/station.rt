//! What a pull needs of the program around it.
use crate::line::Line;
use crate::try_end::TryEnd;
use crate::wires::Wires;
use base_syntax::Bytes;
use source_urls::{Source, Target};

/// What a pull needs of the program around it: a clock, connections, its log, and a stop.
pub trait Station {
    /// The connections of a try.
    type Wires: Wires + Drop;

    /// Returns the moment, in milliseconds of a clock that doesn't go back.
    fn now(&mut self) -> u64;

    /// Returns whether the program is to stop.
    fn is_stopped(&mut self) -> bool;

    /// Waits for this number of milliseconds, or until the program is to stop.
    fn rest(&mut self, milliseconds: u64);

    /// Connects to both sides of a try.
    fn connect(&mut self, source: &Source, target: &Target) -> Result<Self::Wires, TryEnd>;

    /// Connects to another source, in place of the one that a try has.
    fn reconnect(&mut self, wires: &mut Self::Wires, source: &Source) -> Result<(), TryEnd>;

    /// Reads the password anew. `None` if no file has one, or it can't be read now.
    fn password(&mut self) -> Option<Bytes>;

    /// Returns a text for the answers to the source's challenges that no other try had (RFC 7616, 3.4).
    fn draw(&mut self) -> Result<Bytes, TryEnd>;

    /// Logs a line.
    fn log(&mut self, line: &Line);
}
