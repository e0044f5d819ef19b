//! The thread that serves the status pages of a server.

use crate::addresses::log_no_listener;
use crate::process::ProcessFiles;
use crate::serve::CANNOT_LISTEN;
use crate::server_pages::ServerPages;
use log::Log;
use mounts::MAX_MOUNTS;
use relay_command::{Endpoints, VERSION};
use relay_server::{ClockMoments, Reports, limit_peers, set_send_buffer};
use session_state::MAX_CONNECTIONS;
use status_listener::{Ending, StatusListener};
use status_texts::ServerFacts;
use std::alloc::{AllocError, Global};
use std::fs::File;
use std::io::Eprint;
use std::net::{Net, TcpListener, TcpStream};
use std::random::RandomSource;
use std::rt::Files;
use std::sync::{Arc, Wait};
use std::thread::{JoinHandle, Threads};
use std::time::Clock;
use std::{io, thread};

/// The send buffer of a connection to the status pages, in bytes. The rest of a page waits in the relay until the connection's end.
const PAGE_BUFFER: u32 = 65_536;

/// The thread that serves status pages.
pub(crate) struct StatusThread {
    ending: Arc<Ending, Global>,
    thread: JoinHandle<()>,
}

impl Drop for StatusThread {
    fn drop(self) {
        let StatusThread {
            ending: _,
            thread: _,
        } = self;
    }
}

impl StatusThread {
    /// Starts it. The only error is that there is no memory or no thread for it.
    pub(crate) fn start<R>(
        rt: R,
        listener: StatusListener,
        pages: ServerPages<R>,
    ) -> Result<StatusThread, AllocError>
    where
        R: Threads + Wait + Clock + Copy + Send + Sync + 'static,
    {
        let ending = listener.ending()?;
        let thread = thread::spawn(&rt, move || {
            let _ = listener.serve(&rt, pages);
        })?;
        Ok(StatusThread { ending, thread })
    }

    /// Ends it, and waits until it has ended.
    pub(crate) fn end(self, rt: &(impl Threads + Wait)) {
        let StatusThread { ending, thread } = self;
        ending.end();
        thread.join(rt);
    }
}

/// Listens for status pages, if the command line asks for them. Logs why it can't.
pub(crate) fn bind_pages<R>(
    rt: &R,
    alloc: Global,
    endpoints: &Endpoints,
) -> Result<Option<StatusListener>, &'static str>
where
    R: Log + RandomSource + Net<Listener = TcpListener, Stream = TcpStream>,
{
    let Some(addr) = &endpoints.http else {
        return Ok(None);
    };
    match listen(rt, alloc, addr) {
        Ok(listener) => Ok(Some(listener)),
        Err(error) => {
            log_no_listener(rt, addr, error);
            Err(CANNOT_LISTEN)
        }
    }
}

/// Listens for status pages at an address. The system holds a part of a page for a client, and disconnects one that acknowledges nothing.
fn listen<R>(rt: &R, alloc: Global, addr: &str) -> io::Result<StatusListener>
where
    R: RandomSource + Net<Listener = TcpListener, Stream = TcpStream>,
{
    let listener = TcpListener::bind(rt, addr)?;
    // Without either a client that reads nothing leaves more to the system.
    let _ = limit_peers(&listener);
    let _ = set_send_buffer(&listener, PAGE_BUFFER);
    StatusListener::new(rt, alloc, listener)
}

/// Starts the thread that serves status pages, if they are asked for. Their figures are those of these reports.
pub(crate) fn start_pages<R>(
    rt: R,
    alloc: Global,
    listener: Option<StatusListener>,
    reports: &Option<Arc<Reports, Global>>,
    seats: usize,
    shows_players: bool,
    moments: ClockMoments<R>,
) -> Result<Option<StatusThread>, AllocError>
where
    R: Threads + Wait + Clock + Eprint + Files<File = File> + Copy + Send + Sync + 'static,
{
    let (Some(listener), Some(reports)) = (listener, reports) else {
        return Ok(None);
    };
    if let Ok(bound) = listener.local_addr() {
        let _ = eprintln!(rt; "relay: status pages on http://{bound}/");
    }
    let facts = ServerFacts {
        connections: MAX_CONNECTIONS as u64,
        mounts: MAX_MOUNTS as u64,
        seats: seats as u64,
        version: String::from_str(alloc, VERSION)?,
    };
    let reports = Arc::try_clone(reports)?;
    let process = ProcessFiles::open(&rt);
    let pages = ServerPages::new(rt, alloc, reports, facts, shows_players, process, moments);
    Ok(Some(StatusThread::start(rt, listener, pages)?))
}
