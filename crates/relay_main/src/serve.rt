//! The command `relay serve`.
ghost use Rattle.std.specs.Prelude.{◌≡◌, ◌↔◌, ◌⊎◌, IfOk, IsSome};
ghost use Rattle.relay_command.specs.Serving.{IsInRange};
ghost use Rattle.relay_main.specs.Served.{milliseconds_of, told_to};

use crate::addresses::log_no_listener;
use crate::send_buffers::{bound_send_buffers, warn_of_buffers};
use crate::status_pages::{bind_pages, start_pages};
use log::{Log, warn};
use rand::make_rng;
use rand::rngs::StdRng;
use relay_command::{Endpoints, Origins, SendBuffer, Settings};
use relay_server::{
    Access, ClockMoments, Maker, OpenGate, Options, Reports, RingMaker, Stopping, limit_peers,
    run_server, set_send_buffer, shared_book, stop_listening,
};
use session_words::{DrawnWords, NoWords};
use std::alloc::{AllocError, Global};
use std::collections::hash_map::RandomState;
use std::fs::File;
use std::io::{Eprint, ErrorKind, Read};
use std::net::{Net, TcpListener, TcpStream};
use std::random::RandomSource;
use std::rt::Files;
use std::sync::{Arc, Wait};
use std::thread::Threads;
use std::time::Clock;
use std::{io, thread};

/// The line on standard error of a server that can't go on.
pub(crate) const CANNOT_LISTEN: &str = "relay: cannot listen";

const OUT_OF_MEMORY: &str = "relay: out of memory";

/// Without `--keep-ended`, for how many milliseconds a player may stay after the last packet of its mount.
const AFTER_END: u64 = 10_000;

/// For how many milliseconds a write may move no byte, if the system doesn't disconnect peers that acknowledge nothing.
const WRITE_WAIT: u64 = 20_000;

/// For how many milliseconds after a mount's end its packets are kept for a player that takes them slowly.
const END_WAIT: u64 = 20_000;

/// After how many milliseconds of silence a peer is looked at: its session ends at most this much after its time.
const READ_WAIT: u64 = 2_000;

/// A writer for each processor that the process may use, if the system says how many, and at most 64.
fn one_a_processor(rt: &impl Threads) -> usize {
    match thread::available_parallelism(rt) {
        Ok(count) => count.get().min(64),
        Err(_) => 1,
    }
}

/// What a server with these settings does, with this number of processors, on a system that disconnects peers that acknowledge nothing, or
/// doesn't.
fn options_of(settings: Settings, processors: usize, is_limited: bool) -> Options
    ensures { result ≡ told_to settings processors is_limited }
{
    Options {
        accept: settings.accept,
        gather: settings.gather,
        back: settings.back,
        after_end: settings.hang_up_ended.then_some(AFTER_END),
        write_wait: if is_limited { None } else { Some(WRITE_WAIT) },
        end_wait: END_WAIT,
        read_wait: READ_WAIT,
        idle: in_milliseconds(settings.idle),
        silent: in_milliseconds(settings.silent),
        writers: if settings.is_direct {
            0
        } else {
            settings.writers.unwrap_or(processors)
        },
        is_direct: settings.is_direct,
        is_verbose: settings.is_verbose,
        report: in_milliseconds(settings.report),
    }
}

/// As many seconds, in milliseconds.
fn in_milliseconds(seconds: Option<u64>) -> Option<u64>
    ensures { result ≡ milliseconds_of seconds }
{
    match seconds {
        Some(seconds) => Some(seconds.saturating_mul(1_000)),
        None => None,
    }
}

/// What peers may do by their addresses, as the command line says.
fn access_of(settings: Settings, origins: Origins) -> Access {
    Access {
        publish_from: origins.publish,
        play_from: origins.play,
        connections: settings.per_address,
        mounts: settings.mounts_per_address,
        exempt: origins.exempt,
        proxies: origins.proxies,
    }
}

/// Warns that the system has no limit for peers that acknowledge nothing.
fn warn_of_peers<R: Log>(rt: &R) {
    warn!(rt; "the system disconnects no peer that acknowledges nothing: such a player is disconnected once its send buffer has been full for 20 s, such a publisher when its session expires")
}

/// Starts a thread that reads this input to its end, and then has the server stop.
fn stop_at_end<R, I>(
    rt: R,
    input: I,
    listener: &Arc<TcpListener, Global>,
    stopping: &Arc<Stopping, Global>,
) -> Result<(), AllocError>
where
    R: Threads + Copy + Send + 'static,
    I: Read + Drop + Send + 'static,
{
    let listener = Arc::try_clone(listener)?;
    let stopping = Arc::try_clone(stopping)?;
    thread::spawn(&rt, move || {
        read_to_end(input);
        stopping.stop();
        stop_listening(&listener);
    })?;
    Ok(())
}

/// Reads until nothing more comes.
fn read_to_end<I: Read + Drop>(mut input: I) {
    let mut buf = [0; 1024];
    for _ in 0..u64::MAX {
        match input.read(&mut buf) {
            Ok(count) if count > 0 => {}
            Err(error) if error.kind() == ErrorKind::Interrupted => {}
            _ => return,
        }
    }
}

/// What goes on in a server, if lines or status pages tell of it. Each ring keeps `keep` packets.
fn reports_of(
    alloc: Global,
    endpoints: &Endpoints,
    settings: Settings,
    keep: u64,
) -> Result<Option<Arc<Reports, Global>>, AllocError>
    ensures { IfOk result (λ reports. IsSome reports ↔ (IsSome settings.report ⊎ IsSome endpoints.now.http)) }
{
    let is_told = settings.report.is_some();
    if !is_told && endpoints.http.is_none() {
        return Ok(None);
    }
    let reports = Reports::new(alloc, keep, is_told)?;
    Ok(Some(Arc::new(alloc, reports)?))
}

/// Listens for publishers and players. Logs why it can't.
fn bind_server<R>(rt: &R, addr: &str) -> Result<TcpListener, &'static str>
where
    R: Log + Net<Listener = TcpListener, Stream = TcpStream>,
{
    match TcpListener::bind(rt, addr) {
        Ok(listener) => Ok(listener),
        Err(error) => {
            log_no_listener(rt, addr, error);
            Err(CANNOT_LISTEN)
        }
    }
}

/// What a server draws: how the book hashes, and the generator of its sessions' words.
fn draw(rt: &impl RandomSource) -> Result<(RandomState, StdRng), &'static str> {
    let Ok(hasher) = RandomState::new(rt) else {
        return Err(NoWords::NoRandomSource.line());
    };
    let drawn: io::Result<StdRng> = make_rng(rt);
    match drawn {
        Ok(rng) => Ok((hasher, rng)),
        Err(_) => Err(NoWords::NoRandomSource.line()),
    }
}

/// Says that the server listens, and warns of what the system doesn't grant.
fn tell_started<R: Log + Eprint>(
    rt: &R,
    listener: &TcpListener,
    buffer: SendBuffer,
    granted: Option<u32>,
    is_limited: bool,
) {
    if let Ok(bound) = listener.local_addr() {
        let _ = eprintln!(rt; "relay: listening on {bound}");
    }
    if let Some(granted) = granted {
        warn_of_buffers(rt, buffer, granted);
    }
    if !is_limited {
        warn_of_peers(rt);
    }
}

/// Listens and serves, if the settings say so until the end of an input. Returns the line that says why it can't go on.
pub fn serve<R, I>(
    rt: R,
    alloc: Global,
    endpoints: &Endpoints,
    settings: Settings,
    origins: Origins,
    input: I,
) -> Result<(), &'static str>
where
    I: Read + Drop + Send + 'static,
    R: Threads
        + Wait
        + Clock
        + Log
        + Eprint
        + Files<File = File>
        + RandomSource
        + Net<Listener = TcpListener, Stream = TcpStream>
        + Copy
        + Send
        + Sync
        + 'static,
    requires ranges { IsInRange settings }
{
    let listener = bind_server(&rt, &endpoints.rtsp)?;
    let pages = bind_pages(&rt, alloc, endpoints)?;
    let listener = in_memory(Arc::new(alloc, listener))?;
    let granted = bound_send_buffers(&rt, &listener, settings.send_buffer);
    let is_limited = limit_peers(&listener).is_ok();
    let stopping = in_memory(Arc::new(alloc, Stopping::new()))?;
    if settings.until_eof {
        in_memory(stop_at_end(rt, input, &listener, &stopping))?;
    }
    let (hasher, rng) = draw(&rt)?;
    let maker = RingMaker::new(settings.keep, settings.seats, settings.packet_bytes);
    let book = in_memory(shared_book(alloc, settings.seats, hasher))?;
    let options = options_of(settings, one_a_processor(&rt), is_limited);
    let reports = in_memory(reports_of(alloc, endpoints, settings, maker.keep()))?;
    tell_started(&rt, &listener, settings.send_buffer, granted, is_limited);
    let moments = ClockMoments::new(rt);
    let shows_players = endpoints.http_players;
    let status = start_pages(
        rt,
        alloc,
        pages,
        &reports,
        settings.seats,
        shows_players,
        moments,
    );
    let status = in_memory(status)?;
    let served = run_server(
        rt,
        alloc,
        &*listener,
        options,
        maker,
        book,
        DrawnWords(rng),
        OpenGate,
        moments,
        stopping,
        access_of(settings, origins),
        reports,
    );
    if let Some(status) = status {
        status.end(&rt);
    }
    in_memory(served)
}

/// Returns what memory was found for, or else the line of a server for which there is none.
fn in_memory<T, E: Drop>(made: Result<T, E>) -> Result<T, &'static str> {
    made.map_err(|_| OUT_OF_MEMORY)
}
