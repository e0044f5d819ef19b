//! A server: what its connections share, and how long it serves.
ghost use Rattle.std.specs.Prelude.{◌≡◌, ◌↔◌, ◌<◌, None, IfOk, IsSome};

use crate::limits::STOPS;
use crate::listen::accepting::accept_all;
use crate::listen::accepts::Accepts;
use crate::listen::helpers::Helpers;
use crate::listen::options::Options;
use crate::listen::refused_peers::RefusedPeers;
use crate::listen::stopping::Stopping;
use admission::{Access, Gate, LiveSockets, Peers};
use interleaved::Writing;
use log::Log;
use packet_ring::{Pass, Subscriber};
use relay_connection::{IdlePolicy, Shared, SharedBook};
use relay_fanout::{Maker, RingMaker, Seat, Waits, Writers};
use relay_log::{Lines, PublishedMounts, Refusing, Reports};
use server_counts::ServerCounts;
use session_state::{Moments, Words};
use sockets::Socket;
use std::alloc::{AllocError, Global};
use std::io::Eprint;
use std::sync::{Arc, Wait};
use std::thread::Threads;
use std::time::{Clock, Duration};

/// What the threads of a server share whose mounts are rings.
pub(super) type RingShared<V, G> = Shared<RingMaker, V, G>;

/// The writers of a server whose players are sockets.
pub(super) type SocketWriters = Writers<Subscriber, Writing<Socket>, Socket>;

/// Serves connections of a listener: each is read by a thread of its own, and may do what `access` gives its address. Returns once
/// `options.accept` connections were accepted and have ended; or after a stop, once `accept` fails: then all sockets are shut down,
/// and what became of each connection is logged as far as lines are read within two seconds; else never. Returns an error if there
/// is no memory or no thread for what all connections share. `reports` has what goes on, for lines and for snapshots; without it
/// no lines are reported, whatever the options say. The book and the maker are of one number of seats; if they aren't,
/// each ANNOUNCE is answered 503. Sessions expire by these moments, of which each connection has its own copy.
pub fn run_server<R, L, V, G, N>(
    rt: R,
    alloc: Global,
    listener: &L,
    options: Options,
    maker: RingMaker,
    book: SharedBook<Seat<Pass>>,
    words: V,
    gate: G,
    moments: N,
    stopping: Arc<Stopping, Global>,
    access: Access,
    reports: Option<Arc<Reports, Global>>,
) -> Result<(), AllocError>
where
    R: Threads + Wait + Clock + Log + Eprint + Copy + Send + Sync + 'static,
    L: Accepts,
    V: Words + Drop + Send + 'static,
    G: Gate + Drop + Send + Sync + 'static,
    N: Moments + Copy + Send + Sync + 'static,
{
    let after_end = options.after_end.map(Duration::from_millis);
    let maker = maker.going_back(options.back).lending(options.is_direct);
    let counts = counts_of(alloc, &reports)?;
    let shared = Shared::new(alloc, maker, book, words, gate, after_end, counts)?;
    let shared = Arc::new(alloc, shared)?;
    if let Some(reports) = &reports {
        reports.watch(&rt, Arc::try_clone(&shared.wake_signal)?, options.writers);
    }
    let server = Server::new(
        rt, alloc, shared, options, moments, stopping, access, reports,
    )?;
    let helpers = Helpers::start(rt, alloc, &server, options)?;
    accept_all(rt, alloc, listener, options, &server);
    server.stopping.wait(&rt);
    if server.stopping.is_stopped() {
        server.stop(&rt);
    }
    helpers.end(&rt, &server);
    Ok(())
}

/// What connections share, and where it is logged what becomes of them.
pub(super) struct Server<R, V, G, N> {
    pub(super) shared: Arc<RingShared<V, G>, Global>,
    /// `None` if each player has a thread of its own.
    pub(super) writers: Option<Arc<SocketWriters, Global>>,
    pub(super) lines: Arc<Lines<R>, Global>,
    pub(super) refusing: Arc<Refusing, Global>,
    pub(super) refused: Arc<RefusedPeers, Global>,
    /// What is reported of mounts and players while they go on. `None` for nothing.
    pub(super) reports: Option<Arc<Reports, Global>>,
    pub(super) published: Arc<PublishedMounts, Global>,
    pub(super) live: Arc<LiveSockets, Global>,
    pub(super) peers: Arc<Peers, Global>,
    pub(super) access: Arc<Access, Global>,
    pub(super) stopping: Arc<Stopping, Global>,
    /// The clock, of which each connection has a copy.
    pub(super) moments: N,
    pub(super) idle_policy: IdlePolicy,
    /// Whether lines report each mount and each player.
    pub(super) is_verbose: bool,
}

impl<R: Drop, V: Drop, G: Drop, N: Drop> Drop for Server<R, V, G, N> {
    fn drop(self) {
        let Server {
            shared: _,
            writers: _,
            lines: _,
            refusing: _,
            refused: _,
            reports: _,
            published: _,
            live: _,
            peers: _,
            access: _,
            stopping: _,
            moments: _,
            idle_policy: _,
            is_verbose: _,
        } = self;
    }
}

impl<R: Wait + Clock + Copy, V: Drop, G: Drop, N: Copy> Server<R, V, G, N> {
    /// No connection has come, and none of the shared threads is started.
    fn new(
        rt: R,
        alloc: Global,
        shared: Arc<RingShared<V, G>, Global>,
        options: Options,
        moments: N,
        stopping: Arc<Stopping, Global>,
        access: Access,
        reports: Option<Arc<Reports, Global>>,
    ) -> Result<Server<R, V, G, N>, AllocError> {
        let counts = &shared.counts;
        let lines = Arc::new(alloc, Lines::new(rt, alloc, Arc::try_clone(counts)?)?)?;
        let refusing = Refusing::new(&rt, alloc, Arc::try_clone(counts)?)?;
        let refusing = Arc::new(alloc, refusing)?;
        let live = LiveSockets::new(alloc, Arc::try_clone(counts)?);
        let refused = RefusedPeers::new(alloc, Arc::try_clone(&refusing)?)?;
        let writers = writers_of(alloc, &shared, options)?;
        Ok(Server {
            shared,
            writers,
            lines,
            refusing,
            refused: Arc::new(alloc, refused)?,
            reports,
            published: Arc::new(alloc, PublishedMounts::new(alloc)?)?,
            live: Arc::new(alloc, live)?,
            peers: Arc::new(alloc, Peers::new(alloc))?,
            access: Arc::new(alloc, access)?,
            stopping,
            moments,
            idle_policy: IdlePolicy {
                looks: options.read_wait,
                idle: options.idle,
                silent: options.silent,
            },
            is_verbose: options.is_verbose,
        })
    }
}

impl<R: Wait + Clock, V: Drop, G: Drop, N> Server<R, V, G, N> {
    /// Ends all connections, and waits until each has logged what became of it, for two seconds at most.
    fn stop(&self, rt: &R) {
        let most = Duration::from_millis(STOPS);
        self.lines.wait_for_room(most);
        self.live.shut_down(rt);
        let left = self.stopping.wait_for_all(rt, most);
        self.lines.miss_all(left);
    }
}

/// What the server counts: what its reports have, or else what nobody reads.
fn counts_of(
    alloc: Global,
    reports: &Option<Arc<Reports, Global>>,
) -> Result<Arc<ServerCounts, Global>, AllocError> {
    match reports {
        Some(reports) => Ok(Arc::try_clone(reports.counts())?),
        None => Ok(Arc::new(alloc, ServerCounts::new())?),
    }
}

/// The writers that the options ask for, which aren't started yet.
fn writers_of<V, G>(
    alloc: Global,
    shared: &RingShared<V, G>,
    options: Options,
) -> Result<Option<Arc<SocketWriters, Global>>, AllocError>
    ensures { IfOk result (λ writers. IsSome writers ↔ 0 < options.writers) }
{
    if options.writers == 0 {
        return Ok(None);
    }
    let wake_signal = Arc::try_clone(&shared.wake_signal)?;
    let waits = Waits {
        stall: options.write_wait,
        end: options.end_wait,
    };
    let writers = Writers::new(alloc, options.writers, wake_signal, waits)?;
    Ok(Some(Arc::new(alloc, writers)?))
}
