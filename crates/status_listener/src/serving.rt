//! A status listener that serves.
ghost use Rattle.std.specs.Prelude.{◌<◌, length};

use crate::accepting::Accepting;
use crate::ending::Ending;
use crate::limits::{ACCEPT_RETRY, MOST_ACCEPTS, MOST_EVENTS};
use crate::listener::{LISTENER, StatusListener};
use crate::peer::Peer;
use crate::visits::Visits;
use crate::watch::Watch;
use mio::net::{TcpListener, TcpStream};
use mio::{Events, Poll};
use status_answers::{Answers, Pages};
use std::alloc::{AllocError, Global};
use std::collections::hash_map::RandomState;
use std::io::ErrorKind;
use std::sync::{Arc, Wait};
use std::thread;
use std::time::{Clock, Duration};

/// The first token of a connection.
const FIRST_VISIT: usize = 2;

/// A status listener that serves.
#[derive(Drop)]
pub(crate) struct Serving<P> {
    alloc: Global,
    keys: RandomState,
    poll: Poll,
    listener: TcpListener,
    ending: Arc<Ending>,
    answers: Answers<P>,
    visits: Visits<Peer>,
    accepting: Accepting,
    /// The token of the next connection.
    next_token: usize,
}

impl<P: Pages + Drop> Serving<P> {
    /// No connection was accepted. The only error is out of memory.
    pub(crate) fn new(listening: StatusListener, pages: P) -> Result<Serving<P>, AllocError> {
        let StatusListener {
            alloc,
            keys,
            poll,
            listener,
            ending,
        } = listening;
        Ok(Serving {
            alloc,
            keys,
            poll,
            listener,
            ending,
            answers: Answers {
                alloc,
                pages,
                moment: 0,
            },
            visits: Visits::new(alloc)?,
            accepting: Accepting { at: Some(0) },
            next_token: FIRST_VISIT,
        })
    }

    /// Serves until it is ended.
    pub(crate) fn serve<R: Wait + Clock>(mut self, rt: &R) -> Result<(), AllocError> {
        let mut events = Events::with_capacity(self.alloc, MOST_EVENTS)?;
        let mut watch = Watch::new();
        for _ in rt.forever() {
            let now = watch.read(rt);
            self.answers.moment = watch.date;
            self.wait(rt, &mut events, now);
            if self.ending.is_asked() {
                break;
            }
            let now = watch.read(rt);
            self.answers.moment = watch.date;
            self.take_events(&events, now);
            self.visits.close_due(now);
            if self.accepting.is_due(now) {
                self.accept_all(now);
            }
        }
        self.close();
        Ok(())
    }

    /// Waits until the system reports something, or something is due. A wait that fails is tried again after 100 ms.
    fn wait<R: Clock>(&mut self, rt: &R, events: &mut Events, now: u64) {
        let wait = self.accepting.wait(self.visits.next_due(), now);
        if self
            .poll
            .poll(events, wait.map(Duration::from_millis))
            .is_err()
        {
            let _ = thread::sleep(rt, Duration::from_millis(ACCEPT_RETRY));
        }
    }

    /// Does what the system reports at this moment.
    fn take_events(&mut self, events: &Events, now: u64) {
        for event in events.iter() {
            let token = event.token().0;
            if token == LISTENER {
                self.accepting.ask(now);
            } else if let Some(place) = self.visits.place_of(token) {
                self.advance(place, now);
            }
        }
    }

    /// Reads and writes on the connection at this place, and closes it if it has ended.
    fn advance(&mut self, place: usize, now: u64)
        requires { place < length self.old.visits.list.items }
    {
        let peer = &mut self.visits.list[place].peer;
        let phase = peer.advance(self.poll.registry(), &mut self.answers);
        self.visits.come_to(place, phase, now);
    }

    /// Accepts the connections that wait at this moment, at most 64 of them before the others have their turn.
    fn accept_all(&mut self, now: u64) {
        for _ in 0..MOST_ACCEPTS {
            match self.listener.accept() {
                Ok((stream, _)) => self.welcome(stream, now),
                Err(error) if error.kind() == ErrorKind::WouldBlock => {
                    self.accepting.rest();
                    return;
                }
                Err(error) if error.kind() == ErrorKind::Interrupted => {}
                Err(error) if error.kind() == ErrorKind::ConnectionAborted => {}
                Err(_) => {
                    self.accepting.fail(now);
                    return;
                }
            }
        }
    }

    /// Takes a connection that was accepted at this moment, if there is room or another gives way to it, and begins to read it.
    fn welcome(&mut self, stream: TcpStream, now: u64) {
        if !self.visits.make_room() {
            return;
        }
        let token = self.next_token;
        self.next_token = token.wrapping_add(1).max(FIRST_VISIT);
        let registry = self.poll.registry();
        if let Ok(peer) = Peer::new(self.alloc, self.keys, registry, token, stream) {
            self.visits.add(token, peer, now);
            if let Some(place) = self.visits.place_of(token) {
                self.advance(place, now);
            }
        }
    }

    /// Closes the port, and after it the connections.
    fn close(self) {
        let Serving {
            alloc: _,
            keys: _,
            poll: _,
            listener,
            ending: _,
            answers: _,
            visits,
            accepting: _,
            next_token: _,
        } = self;
        drop(listener);
        drop(visits);
    }
}
