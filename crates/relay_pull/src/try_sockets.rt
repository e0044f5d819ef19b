//! The two sockets of a try, on which one thread waits.
ghost use Rattle.std.specs.Prelude.{length};
ghost use Rattle.relay_pull.specs.Moving.{IsWithin};

use crate::readiness::Readiness;
use crate::try_end::TryEnd;
use crate::wires::{Moved, Wires};
use mio::event::Event;
use mio::net::TcpStream;
use mio::{Events, Interest, Poll, Registry, Token};
use rtsp_client::Side;
use std::alloc::Global;
use std::io;
use std::io::{ErrorKind, Read, Write};
use std::net::Net;
use std::time::Duration;

/// How many events a wait reports: one for each socket, and more for one that was closed.
const MOST_EVENTS: usize = 8;

/// Names the source in the events of the system.
const SOURCE: Token = Token(0);

/// Names the target in the events of the system.
const TARGET: Token = Token(1);

/// A socket, and what the system has reported of it.
#[derive(Drop)]
struct Wire {
    stream: TcpStream,
    ready: Readiness,
    /// Why a read or a write has failed, the first of them.
    failure: Option<ErrorKind>,
}

/// The two sockets of a try.
#[derive(Drop)]
pub(crate) struct Sockets {
    poll: Poll,
    events: Events,
    source: Wire,
    target: Wire,
}

impl Wire {
    /// Has the system report what is ready of a socket under this token.
    fn new(registry: &Registry, token: Token, mut stream: TcpStream) -> io::Result<Wire> {
        registry.register(&mut stream, token, Interest::READABLE | Interest::WRITABLE)?;
        Ok(Wire {
            stream,
            ready: Readiness::new(),
            failure: None,
        })
    }

    /// The system reports this of the socket.
    fn note(&mut self, event: &Event) {
        let (is_lost, is_at_end) = (event.is_error(), event.is_read_closed());
        self.ready.reported(
            event.is_readable() || is_at_end || is_lost,
            event.is_writable() || event.is_write_closed() || is_lost,
            is_at_end || is_lost,
            is_at_end && !is_lost && !event.is_write_closed(),
        );
    }

    /// Reads once.
    fn read(&mut self, buf: &mut [u8]) -> Moved
        ensures { IsWithin result (length buf.new) }
    {
        if !self.ready.may_read() {
            return Moved::Later;
        }
        match self.stream.read(buf) {
            Ok(0) => self.end(),
            Ok(count) => {
                self.ready.has_read(count == buf.len());
                Moved::Bytes(count)
            }
            Err(error) => self.fail_read(error.kind()),
        }
    }

    /// Nothing more comes.
    fn end(&mut self) -> Moved
        ensures { IsWithin result 0 }
    {
        self.ready.close_reading();
        if self.failure.is_some() && !self.ready.has_closed {
            return Moved::Lost;
        }
        Moved::Ended
    }

    /// Writes once. After a write that failed what came before can still be read.
    fn write(&mut self, bytes: &[u8]) -> Moved
        ensures { IsWithin result (length bytes.now) }
    {
        if !self.ready.may_write() {
            return Moved::Later;
        }
        match self.stream.write(bytes) {
            Ok(count) => Moved::Bytes(count),
            Err(error) => {
                self.fail_write(error.kind());
                Moved::Later
            }
        }
    }

    /// A read has failed so.
    fn fail_read(&mut self, kind: ErrorKind) -> Moved
        ensures { IsWithin result 0 }
    {
        match kind {
            ErrorKind::Interrupted => Moved::Later,
            ErrorKind::WouldBlock => {
                self.ready.has_bytes = false;
                Moved::Later
            }
            kind => {
                self.failure = Some(self.failure.unwrap_or(kind));
                self.ready.close_reading();
                Moved::Lost
            }
        }
    }

    /// A write has failed so.
    fn fail_write(&mut self, kind: ErrorKind) {
        match kind {
            ErrorKind::Interrupted => {}
            ErrorKind::WouldBlock => self.ready.has_room = false,
            kind => {
                self.failure = Some(self.failure.unwrap_or(kind));
                self.ready.close_writing();
            }
        }
    }
}

impl Sockets {
    /// Has the system report what is ready of two sockets.
    pub(crate) fn new(
        rt: &impl Net,
        alloc: Global,
        source: TcpStream,
        target: TcpStream,
    ) -> Result<Sockets, TryEnd> {
        let Ok(events) = Events::with_capacity(alloc, MOST_EVENTS) else {
            return Err(TryEnd::OutOfMemory);
        };
        match wired(rt, source, target) {
            Ok((poll, source, target)) => Ok(Sockets {
                poll,
                events,
                source,
                target,
            }),
            Err(error) => Err(TryEnd::NoSystem(error.kind())),
        }
    }

    /// Takes another socket for the source in place of the one that it had.
    pub(crate) fn replace_source(&mut self, source: TcpStream) -> Result<(), TryEnd> {
        match Wire::new(self.poll.registry(), SOURCE, source) {
            Ok(source) => {
                self.source = source;
                Ok(())
            }
            Err(error) => Err(TryEnd::NoSystem(error.kind())),
        }
    }
}

/// Has the system report what is ready of two sockets.
fn wired(rt: &impl Net, source: TcpStream, target: TcpStream) -> io::Result<(Poll, Wire, Wire)> {
    let poll = Poll::new(rt)?;
    let source = Wire::new(poll.registry(), SOURCE, source)?;
    let target = Wire::new(poll.registry(), TARGET, target)?;
    Ok((poll, source, target))
}

impl Wires for Sockets {
    fn read(&mut self, side: Side, buf: &mut [u8]) -> Moved {
        match side {
            Side::Source => self.source.read(buf),
            Side::Target => self.target.read(buf),
        }
    }

    fn write(&mut self, side: Side, bytes: &[u8]) -> Moved {
        match side {
            Side::Source => self.source.write(bytes),
            Side::Target => self.target.write(bytes),
        }
    }

    fn failure(&self, side: Side) -> Option<ErrorKind> {
        match side {
            Side::Source => self.source.failure,
            Side::Target => self.target.failure,
        }
    }

    fn wait(&mut self, milliseconds: u64) {
        let wait = Duration::from_millis(milliseconds);
        // What is ready is reported by the next wait, if this one fails.
        if self.poll.poll(&mut self.events, Some(wait)).is_err() {
            return;
        }
        for event in self.events.iter() {
            if event.token() == SOURCE {
                self.source.note(event);
            } else {
                self.target.note(event);
            }
        }
    }
}
