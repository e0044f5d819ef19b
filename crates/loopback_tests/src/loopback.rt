//! Clients over loopback, for tests.
use crate::dial::{Dial, Told};
use log::Log;
use pacing::Back;
use packet_ring::Pass;
use relay_server::{
    Accepts, Access, Gate, Maker, Options, Reports, RingMaker, Seat, SharedBook, Stopping,
    run_server,
};
use session_lock::Book;
use session_words::FixedWord;
use std::alloc::{AllocError, Global};
use std::collections::hash_map::RandomState;
use std::io::{Eprint, Read, Write};
use std::net::{Net, SocketAddr, TcpListener, TcpStream};
use std::process::Abort;
use std::random::RandomSource;
use std::sync::{Arc, Mutex, Wait};
use std::thread::{JoinHandle, Threads};
use std::time::{Clock, Duration};
use std::{io, thread};

/// What is announced: one track of video.
pub(crate) const ANNOUNCE: &str =
    "ANNOUNCE rtsp://127.0.0.1:8554/cam RTSP/1.0\r\nCSeq: 2\r\nContent-Length: 137\r\n\r\nv=0\r\no=- 0 0 IN IP4 127.0.0.1\r\ns=No Name\r\nc=IN IP4 127.0.0.1\r\nt=0 0\r\nm=video 0 RTP/AVP 96\r\na=rtpmap:96 H264/90000\r\na=control:streamid=0\r\n";

pub(crate) const OPTIONS: &[u8] = b"OPTIONS * RTSP/1.0\r\nCSeq: 9\r\n\r\n";

/// The word in each session's identifier.
const WORD: FixedWord = FixedWord(0x0000_abcd);

/// A peer of a server, with a read timeout of thirty seconds.
#[derive(Drop)]
pub(crate) struct Client {
    stream: TcpStream,
    alloc: Global,
    /// What was read and isn't taken yet.
    rest: Vec<u8>,
}

impl Client {
    pub(crate) fn connect<R: Net<Stream = TcpStream> + Abort>(
        rt: &R,
        alloc: Global,
        addr: SocketAddr,
    ) -> Client {
        let stream = TcpStream::connect(rt, addr).expect(rt, "a connection");
        stream
            .set_read_timeout(Some(Duration::from_secs(30)))
            .expect(rt, "a limit to reads");
        Client {
            stream,
            alloc,
            rest: Vec::new(alloc),
        }
    }

    /// Returns its own address, which the server names it by.
    pub(crate) fn addr(&self, rt: &impl Abort) -> SocketAddr {
        self.stream.local_addr().expect(rt, "its address")
    }

    pub(crate) fn say(&mut self, rt: &impl Abort, bytes: &[u8]) {
        self.stream.write_all(bytes).expect(rt, "a write");
    }

    /// Reads one more piece. `false` at the end.
    fn read_more(&mut self) -> io::Result<bool> {
        let mut piece = [0; 4096];
        let count = self.stream.read(&mut piece)?;
        self.rest.extend_from_slice(&piece[..count])?;
        Ok(count > 0)
    }

    /// Takes the first `count` bytes of what was read.
    fn take(&mut self, rt: &impl Abort, count: usize) -> Vec<u8> {
        let count = count.min(self.rest.len());
        let taken = Vec::from_slice(self.alloc, &self.rest[..count]).expect(rt, "memory");
        self.rest = Vec::from_slice(self.alloc, &self.rest[count..]).expect(rt, "memory");
        taken
    }

    /// Returns the next `count` bytes, or fewer if there are no more.
    pub(crate) fn bytes(&mut self, rt: &impl Abort, count: usize) -> Vec<u8> {
        for _ in 0..100_000u32 {
            if self.rest.len() >= count || !self.read_more().expect(rt, "a read") {
                break;
            }
        }
        self.take(rt, count)
    }

    /// Returns the next bytes up to an empty line, or up to the end.
    pub(crate) fn head(&mut self, rt: &impl Abort) -> Vec<u8> {
        for _ in 0..100_000u32 {
            let end = self
                .rest
                .as_slice()
                .windows(4)
                .position(|four| four == b"\r\n\r\n".as_slice());
            if let Some(place) = end {
                return self.take(rt, place.saturating_add(4));
            }
            if !self.read_more().expect(rt, "a read") {
                break;
            }
        }
        self.take(rt, usize::MAX)
    }

    /// Reads the frames before the next reply, and returns how many there are.
    pub(crate) fn frames(&mut self, rt: &impl Abort) -> u32 {
        let mut count = 0u32;
        for _ in 0..100_000u32 {
            let head = self.bytes(rt, 4);
            let [b'$', _, high, low] = head.as_slice() else {
                self.put_back(rt, head.as_slice());
                break;
            };
            let len = usize::from(u16::from_be_bytes([*high, *low]));
            self.bytes(rt, len);
            count = count.saturating_add(1);
        }
        count
    }

    /// Puts back these bytes, which come next again.
    fn put_back(&mut self, rt: &impl Abort, bytes: &[u8]) {
        let mut rest = Vec::from_slice(self.alloc, bytes).expect(rt, "memory");
        rest.extend_from_slice(self.rest.as_slice())
            .expect(rt, "memory");
        self.rest = rest;
    }

    /// Sends a request, and returns the head of the reply.
    pub(crate) fn ask(&mut self, rt: &impl Abort, request: &[u8]) -> Vec<u8> {
        self.say(rt, request);
        self.head(rt)
    }

    /// Sends a request, and returns the status of the reply.
    pub(crate) fn status_of(&mut self, rt: &impl Abort, request: &[u8]) -> u16 {
        status(self.ask(rt, request).as_slice())
    }

    /// Returns whether exactly these bytes come next.
    pub(crate) fn reads(&mut self, rt: &impl Abort, wanted: &[u8]) -> bool {
        self.bytes(rt, wanted.len()).as_slice() == wanted
    }

    /// Returns whether nothing comes any more.
    pub(crate) fn is_hung_up(&mut self, rt: &impl Abort) -> bool {
        self.bytes(rt, 1).is_empty()
    }
}

/// Returns the status code of a reply.
pub(crate) fn status(head: &[u8]) -> u16 {
    let mut code = 0u16;
    for byte in head.get(9..12).unwrap_or(b"") {
        code = code
            .wrapping_mul(10)
            .wrapping_add(u16::from(byte.wrapping_sub(b'0')));
    }
    code
}

/// A server that is running in a thread of its own.
#[derive(Drop)]
pub(crate) struct Running {
    pub(crate) addr: SocketAddr,
    book: SharedBook<Seat<Pass>>,
    thread: JoinHandle<Result<(), AllocError>>,
}

/// What the book of a server that has ended has.
#[derive(Clone, Copy)]
pub(crate) struct Ended {
    /// How many calls it keeps.
    pub(crate) kept: usize,
    /// Whether connection 1 is open, and connection 2.
    pub(crate) open: [bool; 2],
}

impl Running {
    /// Opens connections up to the limit. Returns how many these are.
    pub(crate) fn fill<R: Wait>(&self, rt: &R) -> u32 {
        let mut count = 0u32;
        for _ in 0..1024u32 {
            if self.book.lock(rt).connect().is_ok() {
                count = count.saturating_add(1);
            }
        }
        count
    }

    /// Waits until the server has ended.
    pub(crate) fn end<R: Threads + Wait + Abort>(self, rt: &R) -> Ended {
        let Running {
            addr: _,
            book,
            thread,
        } = self;
        thread.join(rt).expect(rt, "the server's memory");
        let book = book.lock(rt);
        Ended {
            kept: book.kept(),
            open: [book.is_open(1), book.is_open(2)],
        }
    }
}

impl Running {
    /// Waits for a server that doesn't begin. Returns whether it reports that there was no memory or no thread.
    pub(crate) fn refuses<R: Threads>(self, rt: &R) -> bool {
        self.thread.join(rt).is_err()
    }
}

/// The settings of a test's server.
#[derive(Clone, Copy)]
pub(crate) struct Set {
    pub(crate) accept: u64,
    pub(crate) seats: usize,
    /// The milliseconds for which packets gather.
    pub(crate) gather: u64,
    /// How many threads send all frames; 0 for one thread for each player.
    pub(crate) writers: usize,
    /// The milliseconds between two reports of mounts and losses; `None` for none.
    pub(crate) report: Option<u64>,
    /// The clock; `None` for one that is always at 0.
    pub(crate) dial: Option<Dial>,
    /// The milliseconds after which a silent peer is checked.
    pub(crate) read_wait: u64,
}

/// How frames are sent: by one thread for each player, and by two writers.
pub(crate) const MODES: [usize; 2] = [0, 2];

impl Set {
    /// Packets gather for a millisecond, each player has a thread, there are no reports, and the clock is always at 0.
    pub(crate) fn of(accept: u64, seats: usize) -> Set {
        Set {
            accept,
            seats,
            gather: 1,
            writers: 0,
            report: None,
            dial: None,
            read_wait: 2_000,
        }
    }

    /// The same with this clock, and a silent peer is checked every ten milliseconds.
    pub(crate) fn timed(self, dial: Dial) -> Set {
        Set {
            dial: Some(dial),
            read_wait: 10,
            ..self
        }
    }

    /// The same with `writers` threads that send all frames.
    pub(crate) fn by(self, writers: usize) -> Set {
        Set { writers, ..self }
    }

    /// The server's options with these settings. Players stay connected when their mount has ended.
    fn options(self) -> Options {
        Options {
            accept: Some(self.accept),
            gather: self.gather,
            back: Back::Packets(0),
            after_end: None,
            write_wait: Some(20_000),
            end_wait: 20_000,
            writers: self.writers,
            is_direct: false,
            is_verbose: false,
            report: self.report,
            read_wait: self.read_wait,
            idle: None,
            silent: None,
        }
    }
}

/// Serves in a thread of its own, with this runtime.
fn serve<R, S, L, G>(
    rt: &R,
    served: S,
    alloc: Global,
    listener: L,
    options: Options,
    maker: RingMaker,
    book: SharedBook<Seat<Pass>>,
    gate: G,
    moments: Told,
    access: Access,
) -> JoinHandle<Result<(), AllocError>>
where
    R: Threads + Abort,
    S: Threads + Wait + Clock + Log + Eprint + Copy + Send + Sync + 'static,
    L: Accepts + Drop + Send + 'static,
    G: Gate + Drop + Send + Sync + 'static,
{
    thread::spawn(rt, move || {
        let stopping = match Arc::new(alloc, Stopping::new()) {
            Ok(stopping) => stopping,
            Err(_) => return Err(AllocError),
        };
        let reports = match options.report {
            Some(_) => Some(Arc::new(alloc, Reports::new(alloc, maker.keep(), true)?)?),
            None => None,
        };
        run_server(
            served, alloc, &listener, options, maker, book, WORD, gate, moments, stopping, access,
            reports,
        )
    })
    .expect(rt, "a thread")
}

/// A listener on a free port, and its address.
pub(crate) fn listening<R>(rt: &R) -> (TcpListener, SocketAddr)
where
    R: Abort + Net<Listener = TcpListener, Stream = TcpStream>,
{
    let listener = TcpListener::bind(rt, "127.0.0.1:0").expect(rt, "a listener");
    let addr = listener.local_addr().expect(rt, "its address");
    (listener, addr)
}

/// Starts a server whose packets have at most 16,384 bytes.
pub(crate) fn start<R, G>(rt: R, alloc: Global, set: Set, gate: G) -> Running
where
    R: Threads
        + Wait
        + Clock
        + Log
        + Eprint
        + RandomSource
        + Abort
        + Net<Listener = TcpListener, Stream = TcpStream>
        + Copy
        + Send
        + Sync
        + 'static,
    G: Gate + Drop + Send + Sync + 'static,
{
    let (listener, addr) = listening(&rt);
    start_on(&rt, rt, alloc, listener, addr, set, gate)
}

/// Starts a server of this address, which has this runtime and takes its connections from `listener`. Its packets have at most
/// 16,384 bytes, its rings keep 512 packets, and players stay connected when their mount has ended.
pub(crate) fn start_on<R, S, L, G>(
    rt: &R,
    served: S,
    alloc: Global,
    listener: L,
    addr: SocketAddr,
    set: Set,
    gate: G,
) -> Running
where
    R: Threads + RandomSource + Abort,
    S: Threads + Wait + Clock + Log + Eprint + Copy + Send + Sync + 'static,
    L: Accepts + Drop + Send + 'static,
    G: Gate + Drop + Send + Sync + 'static,
{
    let access = Access::unlimited();
    start_with(rt, served, alloc, listener, addr, set, gate, access)
}

/// The same with a server whose peers may do what `access` gives their addresses.
pub(crate) fn start_with<R, S, L, G>(
    rt: &R,
    served: S,
    alloc: Global,
    listener: L,
    addr: SocketAddr,
    set: Set,
    gate: G,
    access: Access,
) -> Running
where
    R: Threads + RandomSource + Abort,
    S: Threads + Wait + Clock + Log + Eprint + Copy + Send + Sync + 'static,
    L: Accepts + Drop + Send + 'static,
    G: Gate + Drop + Send + Sync + 'static,
{
    let seats = set.seats.min(1024);
    let hasher = RandomState::new(rt).expect(rt, "random bytes");
    let book = Book::new(alloc, seats, hasher);
    let book = Arc::new(alloc, Mutex::new(book)).expect(rt, "memory");
    let theirs = Arc::try_clone(&book).expect(rt, "a count of the book's users");
    let maker = RingMaker::new(512, seats, 16_384);
    let thread = serve(
        rt,
        served,
        alloc,
        listener,
        set.options(),
        maker,
        theirs,
        gate,
        Told(set.dial),
        access,
    );
    Running { addr, book, thread }
}
