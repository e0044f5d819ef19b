//! What a peer sends, read by read, for tests.
use crate::moments::Dial;
use std::alloc::Global;
use std::io;
use std::io::{ErrorKind, Read};
use std::process::Abort;
use std::vec::IntoIter;

/// A read: the moment at which it returns, and what it gives, which fits in the buffer of an intake, or why it fails.
pub(crate) type Step = (u64, Result<&'static [u8], ErrorKind>);

/// Nothing comes until a read's timeout.
pub(crate) const SILENT: Result<&[u8], ErrorKind> = Err(ErrorKind::WouldBlock);

/// Takes a step at each read, and sets its clock to that moment; after the last one it is at its end.
#[derive(Drop)]
pub(crate) struct Stepped {
    clock: Dial,
    steps: IntoIter<Step>,
}

impl Stepped {
    /// It takes these steps, the first ones first.
    pub(crate) fn new(
        rt: &impl Abort,
        alloc: Global,
        clock: Dial,
        first: &[Step],
        then: &[Step],
    ) -> Stepped {
        let mut steps = Vec::from_slice(alloc, first).expect(rt, "memory");
        steps.extend_from_slice(then).expect(rt, "memory");
        Stepped {
            clock,
            steps: steps.into_iter(),
        }
    }
}

impl Read for Stepped {
    fn read(&mut self, buf: &mut [u8]) -> io::Result<usize> {
        let Some((moment, gives)) = self.steps.next() else {
            return Ok(0);
        };
        self.clock.set(moment);
        let bytes = gives?;
        let count = bytes.len().min(buf.len());
        buf[..count].copy_from_slice(&bytes[..count]);
        Ok(count)
    }
}
