//! Reads from a peer that may be silent, or send more than it should.
ghost use Rattle.std.specs.Prelude.{◌≡◌, ◌↔◌, IsTrue};
ghost use Rattle.std.specs.IoError.{error_kind};
ghost use Rattle.std.specs.declared.io.ErrorKind.TheVariants.{WouldBlock};

use crate::connection_clock::ConnectionClock;
use crate::idle_policy::{IdlePolicy, QuietTime};
use crate::limits::SETUP_WAIT;
use crate::server_book::SharedBook;
use pacing::ReadRate;
use relay_accounts::ConnectionEnd;
use session_state::{Act, Moments};
use std::alloc::AllocError;
use std::io::{ErrorKind, Read};
use std::sync::{Arc, Wait};
use std::time::{Clock, Duration};
use std::{io, thread};

/// A reader of a peer whose reads end after a while if nothing comes. Such a read is made again, and is no failure, until the
/// connection is closing or was silent for too long: then its session has expired, or it has none. A read that a signal
/// interrupts is made again too: the system doesn't, for a socket whose reads end after a while.
///
/// Silence is looked for before a read and never after one, so that what has just come is heard first. A connection that doesn't
/// record is read at some 4 MB a second at most: its bytes wait in its peer's system meanwhile.
pub struct IdleReader<R, P, N, S> {
    rt: R,
    inner: S,
    book: SharedBook<P>,
    conn: u64,
    clock: ConnectionClock<N>,
    idle_policy: IdlePolicy,
    /// When it was last looked.
    looked: u64,
    rate: ReadRate,
    /// For how many milliseconds nothing is read, before the next read.
    rest: u64,
}

impl<R: Drop, P: Drop, N: Drop, S: Drop> Drop for IdleReader<R, P, N, S> {
    fn drop(self) {
        let IdleReader {
            rt: _,
            inner: _,
            book: _,
            conn: _,
            clock: _,
            idle_policy: _,
            looked: _,
            rate: _,
            rest: _,
        } = self;
    }
}

impl<R: Drop, P, N: Copy, S: Drop> IdleReader<R, P, N, S> {
    /// Reads for this connection of a book.
    pub fn new(
        rt: R,
        inner: S,
        book: &SharedBook<P>,
        conn: u64,
        clock: &ConnectionClock<N>,
        idle_policy: IdlePolicy,
    ) -> Result<IdleReader<R, P, N, S>, AllocError> {
        let clock = clock.share()?;
        let looked = clock.watch().heard.now();
        Ok(IdleReader {
            rt,
            inner,
            book: Arc::try_clone(book)?,
            conn,
            clock,
            idle_policy,
            looked,
            rate: ReadRate::new(),
            rest: 0,
        })
    }
}

impl<R: Wait, P: Drop, N: Moments + Drop, S> IdleReader<R, P, N, S> {
    /// Whether it is time to look.
    fn is_due(&self) -> bool {
        let now = self.clock.watch().heard.now();
        now.saturating_sub(self.looked) >= self.idle_policy.looks
    }

    /// Fails if the connection was silent for too long.
    fn look(&mut self) -> io::Result<()> {
        let now = self.clock.watch().heard.now();
        self.looked = now;
        match self.end_at(now) {
            None => Ok(()),
            Some(end) => {
                self.clock.watch().end_so(&self.rt, end);
                Err(io::Error::from(ErrorKind::TimedOut))
            }
        }
    }

    /// Ends the session if it has expired. Returns how the connection ends, if its silence ends it: one whose session left
    /// nothing to do stays.
    fn end_at(&self, now: u64) -> Option<ConnectionEnd> {
        let watch = self.clock.watch();
        let last = watch.heard.last();
        let mut book = self.book.lock(&self.rt);
        if let Some(Act::Stop { .. } | Act::End) = book.expire(self.conn, last, now) {
            return Some(ConnectionEnd::Expired);
        }
        let has_session = book.session_of(self.conn).is_some();
        drop(book);
        self.idle_policy.end_of(QuietTime {
            time: now.saturating_sub(last),
            is_unset: watch.is_unset(now, SETUP_WAIT),
            is_recording: watch.is_recording(),
            has_session,
        })
    }
}

impl<R: Clock, P, N, S> IdleReader<R, P, N, S> {
    /// Waits as long as nothing is to be read.
    fn hold_back(&mut self) {
        if self.rest > 0 {
            thread::sleep(&self.rt, Duration::from_millis(self.rest));
            self.rest = 0;
        }
    }

    /// Counts what was read. While a connection records all of it is wanted.
    fn count(&mut self, now: u64, read: &io::Result<usize>) {
        if let Ok(count) = read {
            if !self.clock.watch().is_recording() {
                self.rest = self.rate.read(now, *count as u64);
            }
        }
    }
}

impl<R: Wait + Clock + Copy, P: Drop, N: Moments + Drop, S: Read> Read for IdleReader<R, P, N, S> {
    fn read(&mut self, buf: &mut [u8]) -> io::Result<usize> {
        let rt = self.rt;
        self.hold_back();
        let mut looks = self.is_due();
        for _ in rt.forever() {
            if looks {
                self.look()?;
            }
            let read = self.inner.read(buf);
            let now = self.clock.now();
            match read {
                // If the process was held meanwhile, waiting bytes are read before the next check.
                Err(error) if error.kind() == ErrorKind::Interrupted => {
                    self.looked = now;
                    looks = false;
                }
                Err(error) if is_late(&error) && !self.clock.watch().is_closing() => {
                    looks = true;
                }
                read => {
                    self.count(now, &read);
                    return read;
                }
            }
        }
        unreachable!()
    }
}

/// Whether a read failed because nothing came for as long as it may wait. `TimedOut` is no such failure: it means that
/// the system has disconnected the peer.
fn is_late(error: &io::Error) -> bool
    ensures { IsTrue result ↔ error_kind error.now ≡ WouldBlock }
{
    error.kind() == ErrorKind::WouldBlock
}
