//! Parts of cases that a text has once, for any number of cases.

use crate::fault::Fault;
use std::alloc::Global;

/// Lines that can be in several cases.
#[derive(Drop)]
pub(crate) struct Part<'a> {
    name: &'a [u8],
    /// The number of its first line.
    pub line: usize,
    pub lines: Vec<&'a [u8]>,
}

/// The parts of a text.
#[derive(Drop)]
pub(crate) struct Parts<'a> {
    alloc: Global,
    parts: Vec<Part<'a>>,
    /// Whether the last part has no end yet.
    is_open: bool,
}

impl<'a> Parts<'a> {
    /// None is read.
    pub fn new(alloc: Global) -> Parts<'a> {
        Parts {
            alloc,
            parts: Vec::new(alloc),
            is_open: false,
        }
    }

    /// Returns whether a part has no end yet.
    pub fn is_open(&self) -> bool {
        self.is_open
    }

    /// Begins a part, with the line of this number.
    pub fn begin(&mut self, name: &'a [u8], line: usize) -> Result<(), Fault> {
        self.parts.push(Part {
            name,
            line,
            lines: Vec::new(self.alloc),
        })?;
        self.is_open = true;
        Ok(())
    }

    /// Reads the next line of the part that has no end yet.
    pub fn add(&mut self, line: &'a [u8]) -> Result<(), Fault> {
        if line == b"end".as_slice() {
            self.is_open = false;
            return Ok(());
        }
        match self.parts.last_mut() {
            Some(part) => Ok(part.lines.push(line)?),
            None => Err(Fault::NoPart),
        }
    }

    /// Returns the part of a name.
    pub fn named(&self, name: &[u8]) -> Result<&Part<'a>, Fault> {
        for part in &self.parts {
            if part.name == name {
                return Ok(part);
            }
        }
        Err(Fault::NoPart)
    }
}
