//! A status listener.
use crate::ending::Ending;
use crate::serving::Serving;
use mio::net::TcpListener;
use mio::{Interest, Poll, Token, Waker};
use status_answers::Pages;
use std::alloc::{AllocError, Global};
use std::collections::hash_map::RandomState;
use std::net::{Net, SocketAddr};
use std::random::RandomSource;
use std::sync::{Arc, Wait};
use std::time::Clock;
use std::{io, net};

/// Names the listener in the events of the system.
pub(crate) const LISTENER: usize = 0;

/// Names the end in the events of the system.
const ENDING: usize = 1;

/// A listener at an address that serves the pages of a status listener by HTTP/1.1, to at most 64 connections at a time.
#[derive(Drop)]
pub struct StatusListener {
    pub(crate) alloc: Global,
    pub(crate) keys: RandomState,
    pub(crate) poll: Poll,
    pub(crate) listener: TcpListener,
    pub(crate) ending: Arc<Ending>,
}

impl StatusListener {
    /// Serves the connections of a listener that is bound. Each has what was set on it: how much of a page the system holds for a client,
    /// and after which time it disconnects one that acknowledges nothing. They wait in the system's backlog until `serve`. The errors are
    /// the system's, or out of memory.
    pub fn new<R: Net<Listener = net::TcpListener, Stream = net::TcpStream> + RandomSource>(
        rt: &R,
        alloc: Global,
        listener: net::TcpListener,
    ) -> io::Result<StatusListener> {
        listener.set_nonblocking(true)?;
        let mut listener = TcpListener::from_std(listener);
        let poll = Poll::new(rt)?;
        let registry = poll.registry();
        registry.register(&mut listener, Token(LISTENER), Interest::READABLE)?;
        let waker = Waker::new(registry, Token(ENDING))?;
        Ok(StatusListener {
            alloc,
            keys: RandomState::new(rt)?,
            poll,
            listener,
            ending: Ending::shared(alloc, waker)?,
        })
    }

    /// Returns the address that it listens at. The errors are the system's.
    pub fn local_addr(&self) -> io::Result<SocketAddr> {
        self.listener.local_addr()
    }

    /// Returns what ends it, for another thread. The only error is out of memory.
    pub fn ending(&self) -> Result<Arc<Ending>, AllocError> {
        Arc::try_clone(&self.ending)
    }

    /// Serves the pages until it is ended. Then its port is closed first, and after it the connections. The only error is out of memory
    /// before it begins.
    pub fn serve<R: Wait + Clock, P: Pages + Drop>(
        self,
        rt: &R,
        pages: P,
    ) -> Result<(), AllocError> {
        Serving::new(self, pages)?.serve(rt)
    }
}
