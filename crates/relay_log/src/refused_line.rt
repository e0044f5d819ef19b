//! The line that reports requests that were refused.
ghost use Rattle.std.specs.Prelude.{◌≡◌, ◌↔◌, IsTrue, IsOk, IfOk};
ghost use Rattle.relay_log.specs.Kept.{IsAbout, IsUnnamed};

use crate::subject::Subject;
use base_syntax::Bytes;
use rtsp_message::Status;
use std::alloc::{AllocError, Global};
use std::fmt;
use std::net::SocketAddr;

/// A line that reports requests that were refused.
#[derive(Drop)]
pub struct RefusedLine {
    pub(crate) count: u64,
    pub(crate) kept: Kept,
    pub(crate) status: Status,
    pub(crate) last: SocketAddr,
}

impl fmt::Display for RefusedLine {
    fn fmt<W: fmt::Write>(&self, f: &mut fmt::Formatter<W>) -> fmt::Result {
        write!(f, "{} refused {} on ", self.count, self.status.code())?;
        match &self.kept {
            Kept::Mount(name) => write!(f, "{}", name.as_slice().escape_ascii())?,
            Kept::Others => write!(f, "others")?,
            Kept::NoMount => write!(f, "no mount")?,
        }
        write!(f, ", the last {}", self.last)
    }
}

/// A subject that is kept.
#[derive(Drop)]
pub(crate) enum Kept {
    Mount(Bytes),
    Others,
    NoMount,
}

impl Kept {
    /// Returns a copy of the subject. The only error is out of memory.
    pub(crate) fn of(alloc: Global, subject: Subject) -> Result<Kept, AllocError>
        ensures kept { IfOk result (λ kept. IsAbout kept subject.entry) }
        ensures without_memory { IsUnnamed subject.entry → IsOk result }
    {
        Ok(match subject {
            Subject::Mount(name) => Kept::Mount(Bytes::from_slice(alloc, name)?),
            Subject::Others => Kept::Others,
            Subject::NoMount => Kept::NoMount,
        })
    }

    /// Returns whether it is this subject.
    pub(crate) fn is_about(&self, subject: Subject) -> bool
        ensures { IsTrue result ↔ IsAbout self.now subject.entry }
    {
        match (self, subject) {
            (Kept::Mount(name), Subject::Mount(text)) => name.as_slice() == text,
            (Kept::Others, Subject::Others) | (Kept::NoMount, Subject::NoMount) => true,
            _ => false,
        }
    }

    /// Returns a copy. The only error is out of memory.
    pub(crate) fn copy(&self, alloc: Global) -> Result<Kept, AllocError>
        ensures { IfOk result (λ copied. copied ≡ self.now) }
    {
        Ok(match self {
            Kept::Mount(name) => Kept::Mount(Bytes::from_slice(alloc, name.as_slice())?),
            Kept::Others => Kept::Others,
            Kept::NoMount => Kept::NoMount,
        })
    }
}
