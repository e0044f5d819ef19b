//! What holds a connection's socket.
ghost use Rattle.std.specs.Prelude.{◌≡◌, IfSome};
ghost use Rattle.http_server.specs.Connection.{history};
ghost use Rattle.status_listener.specs.Phase.{phase_at};

use crate::discarded::Discarded;
use crate::exchange::{Flow, answer, discard};
use crate::limits::{MOST_HEAD_BYTES, READ_BYTES};
use crate::phase::Phase;
use http_server::{Config, Connection, Service, State};
use mio::net::TcpStream;
use mio::{Interest, Registry, Token};
use std::alloc::Global;
use std::collections::hash_map::RandomState;
use std::io;
use std::net::Shutdown;

/// A connection's socket, and what it is read and written for.
#[derive(Drop)]
pub(crate) struct Peer {
    token: Token,
    stream: TcpStream,
    pub(crate) talk: Talk,
}

/// What a socket is read and written for.
#[derive(Drop)]
pub(crate) enum Talk {
    /// A request and its answer.
    Request(Connection),
    /// What comes after the answer is discarded.
    Rest(Discarded),
}

impl Peer {
    ghost use Rattle.status_listener.specs.Peer.{phase_of};

    /// Takes a socket that was accepted, and has its readiness reported under this token. It takes no memory before the first read.
    pub(crate) fn new(
        alloc: Global,
        keys: RandomState,
        registry: &Registry,
        token: usize,
        mut stream: TcpStream,
    ) -> io::Result<Peer> {
        let token = Token(token);
        registry.register(&mut stream, token, Interest::READABLE | Interest::WRITABLE)?;
        let mut config = Config::default();
        config.limits.max_head_len = MOST_HEAD_BYTES;
        config.max_body_len = 0;
        config.read_size = READ_BYTES;
        let talk = Talk::Request(Connection::new(alloc, keys, config));
        Ok(Peer {
            token,
            stream,
            talk,
        })
    }

    /// Reads and writes as far as the system has bytes and room. Returns the phase that the connection has come to. `None` if it is to
    /// be closed.
    pub(crate) fn advance<S: Service>(
        &mut self,
        registry: &Registry,
        service: &mut S,
    ) -> Option<Phase>
        ensures { IfSome result (λ phase. phase ≡ phase_of self.new.talk) }
    {
        if let Talk::Request(connection) = &mut self.talk {
            match answer(&mut self.stream, connection, service) {
                Flow::Waits => return Some(phase_of(connection)),
                Flow::Pauses => {
                    let phase = phase_of(connection);
                    return self.pause(registry, phase);
                }
                Flow::Done => {}
                Flow::Broken => return None,
            }
            self.stream.shutdown(Shutdown::Write).ok()?;
            self.talk = Talk::Rest(Discarded::nothing());
        }
        self.discard_rest(registry)
    }

    /// Reads and discards what comes after the answer.
    fn discard_rest(&mut self, registry: &Registry) -> Option<Phase>
        ensures { IfSome result (λ phase. phase ≡ phase_of self.new.talk) }
    {
        let Talk::Rest(discarded) = &mut self.talk else {
            return None;
        };
        match discard(&mut self.stream, discarded) {
            Flow::Waits => Some(Phase::Closing),
            Flow::Pauses => self.pause(registry, Phase::Closing),
            Flow::Done | Flow::Broken => None,
        }
    }

    /// Has the system report again what is ready now, after the others had their turn.
    fn pause(&mut self, registry: &Registry, phase: Phase) -> Option<Phase>
        ensures phase { IfSome result (λ same. same ≡ phase) }
        ensures talk { self.new.talk ≡ self.old.talk }
    {
        let both = Interest::READABLE | Interest::WRITABLE;
        registry
            .reregister(&mut self.stream, self.token, both)
            .ok()?;
        Some(phase)
    }
}

/// Returns the phase of a connection that isn't done.
fn phase_of(connection: &Connection) -> Phase
    ensures { result ≡ phase_at (history connection.now).state }
{
    match connection.state() {
        State::Open => Phase::Asking,
        _ => Phase::Answering,
    }
}
