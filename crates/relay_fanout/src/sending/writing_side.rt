//! What a connection's replies and frames are written on.
ghost use Rattle.std.specs.Prelude.{◌≡◌};
ghost use Rattle.relay_fanout.specs.Ways.{HasRoom};

use crate::sending::batch::Line;
use crate::sending::counted::Counted;
use crate::sending::gather::{gather, gather_held};
use crate::sending::marked_line::{LineSkipped, MarkedLine};
use crate::sending::way::Way;
use cursor::Lend;
use interleaved::{Failed, Gathering, Sink, write_all};
use player::OutStop;
use relay_accounts::Handover;
use sockets::HangUp;
use std::alloc::Global;
use std::sync::{MutexGuard, Wait};
use transport_header::TrackChannels;

/// The sink of a connection. A reply, or the frames of up to sixteen takes, are written while its lock is held, so that
/// each stays whole. Its lock may be held while the peer reads nothing. The only lock that is taken meanwhile is that of
/// the mount's pace, which is held for a few words.
///
/// A writer never waits. If the lock is taken, the writer skips the connection and marks it; the thread that gives the lock
/// back checks the mark afterwards.
///
/// Who sends frames lends it a buffer. Where bytes wait that the socket didn't take, it keeps that one until a look leaves none.
#[derive(Drop)]
pub struct WritingSide<W: Sink> {
    line: MarkedLine<W>,
}

impl<W: Sink + Drop> WritingSide<W> {
    /// The writing side over a sink, without a buffer. Takes no memory.
    pub fn new(alloc: Global, sink: W) -> WritingSide<W> {
        let line = Gathering::new(Counted::new(sink), Vec::new(alloc));
        WritingSide {
            line: MarkedLine::new(line),
        }
    }

    /// Changes its buffer for this one, if no bytes wait.
    pub(super) fn swap_buffer(&self, rt: &impl Wait, buffer: &mut Vec<u8>) {
        let _ = self.line.lock(rt).swap_buffer(buffer);
    }

    /// Returns the sink, if no thread has it. Else marks it: the thread that has the sink wakes the writers after it gives it back.
    pub(super) fn try_hold(&self) -> Result<MutexGuard<'_, Line<W>>, LineSkipped> {
        match self.line.try_first() {
            Ok(sink) => Ok(sink),
            Err(taken) => self.line.try_again(self.line.mark(taken)),
        }
    }

    /// Returns whether a writer has skipped it since the last call. Called after the sink was given back; the swap isn't
    /// reordered before that.
    pub(super) fn was_skipped(&self) -> bool {
        self.line.take_mark()
    }

    /// Writes a reply.
    pub(super) fn write(&self, rt: &impl Wait, text: &[u8]) -> Result<(), Failed> {
        let mut sink = self.line.lock(rt);
        if let Err(_) = write_all(&mut *sink, text) {
            return Err(Failed);
        }
        sink.flush()
    }

    /// Returns how many bytes the socket has taken.
    pub fn taken(&self, rt: &impl Wait) -> u64 {
        self.line.lock(rt).inner().taken()
    }

    /// Sends the peer the end of its stream, after what is being written.
    pub(crate) fn close_writes(&self, rt: &impl Wait, shutdown: &impl HangUp) {
        let _sink = self.line.lock(rt);
        shutdown.close_writes();
    }

    /// Writes the frames of the next packets of a tap, and returns why no more came.
    pub(crate) fn relay<T: Lend>(
        &self,
        rt: &impl Wait,
        tap: &mut T,
        channels: &TrackChannels,
        way: &mut Way,
        handover: &mut Handover,
    ) -> OutStop
        requires { HasRoom way.old (T.packet_bytes tap.old) }
        ensures same { T.packet_bytes tap.new ≡ T.packet_bytes tap.old }
        ensures room { HasRoom way.new (T.packet_bytes tap.new) }
    {
        let mut sink = self.line.lock(rt);
        let stop = match way {
            Way::Copied(buf) => gather(tap, &mut *sink, channels, buf.as_mut_slice(), handover),
            Way::Direct => gather_held(tap, &mut *sink, channels, handover),
        };
        match sink.flush() {
            Ok(()) => {
                handover.pass();
                stop
            }
            Err(_) => OutStop::WriteFailed,
        }
    }
}
