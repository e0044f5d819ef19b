//! A station whose clock, connections and log are in memory.

use base_syntax::Bytes;
use relay_pull::{Line, Moved, Station, TryEnd, Wires};
use rtsp_client::Side;
use source_urls::{Source, Target};
use std::alloc::Global;
use std::io::ErrorKind;

/// Two connections of which the source's ends at once, and the target takes each byte.
#[derive(Drop)]
pub(crate) struct EndingWires {
    has_ended: bool,
}

impl Wires for EndingWires {
    fn read(&mut self, side: Side, _buf: &mut [u8]) -> Moved {
        if side == Side::Target || self.has_ended {
            return Moved::Later;
        }
        self.has_ended = true;
        Moved::Ended
    }

    fn write(&mut self, _side: Side, bytes: &[u8]) -> Moved {
        Moved::Bytes(bytes.len())
    }

    fn failure(&self, _side: Side) -> Option<ErrorKind> {
        None
    }

    fn wait(&mut self, _milliseconds: u64) {}
}

/// A station in memory. Every tenth connection is made, and the others are refused. It stops after a number of connections.
#[derive(Drop)]
pub(crate) struct MemoryStation {
    pub(crate) alloc: Global,
    pub(crate) now: u64,
    pub(crate) connects: u64,
    pub(crate) most: u64,
    pub(crate) ends: u64,
    pub(crate) rested: u64,
    pub(crate) longest: u64,
}

impl MemoryStation {
    /// Nothing was connected, and it stops after this number of connections.
    pub(crate) fn new(alloc: Global, most: u64) -> MemoryStation {
        MemoryStation {
            alloc,
            now: 0,
            connects: 0,
            most,
            ends: 0,
            rested: 0,
            longest: 0,
        }
    }
}

impl Station for MemoryStation {
    type Wires = EndingWires;

    fn now(&mut self) -> u64 {
        self.now = self.now.saturating_add(1);
        self.now
    }

    fn is_stopped(&mut self) -> bool {
        self.connects >= self.most
    }

    fn rest(&mut self, milliseconds: u64) {
        self.now = self.now.saturating_add(milliseconds);
        self.rested = self.rested.saturating_add(milliseconds);
        self.longest = self.longest.max(milliseconds);
    }

    fn connect(&mut self, _source: &Source, _target: &Target) -> Result<EndingWires, TryEnd> {
        self.connects = self.connects.saturating_add(1);
        if self.connects % 10 != 0 {
            let (side, kind) = (Side::Source, ErrorKind::ConnectionRefused);
            return Err(TryEnd::NotConnected { side, kind });
        }
        Ok(EndingWires { has_ended: false })
    }

    fn reconnect(&mut self, _wires: &mut EndingWires, _source: &Source) -> Result<(), TryEnd> {
        Ok(())
    }

    fn password(&mut self) -> Option<Bytes> {
        None
    }

    fn draw(&mut self) -> Result<Bytes, TryEnd> {
        match Bytes::from_slice(self.alloc, b"0123456789abcdef") {
            Ok(text) => Ok(text),
            Err(_) => Err(TryEnd::OutOfMemory),
        }
    }

    fn log(&mut self, line: &Line) {
        if let Line::Ends { .. } = line {
            self.ends = self.ends.saturating_add(1);
        }
    }
}
