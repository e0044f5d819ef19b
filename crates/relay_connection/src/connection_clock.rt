//! The clock of a connection, and when it was last heard.
ghost use Rattle.std.specs.Prelude.{◌≡◌, IfOk};
ghost use Rattle.std.specs.Arc.{arc_value};

use relay_accounts::{ConnectionEnd, LastActivity};
use session_state::Moments;
use std::alloc::{AllocError, Global};
use std::sync::atomic::{AtomicBool, AtomicU64, Ordering};
use std::sync::{Arc, Mutex, Wait};

/// The clock of a connection, and when it was last heard, which the thread that serves it and the device that it reads from both
/// have.
#[derive(Drop)]
pub struct ConnectionClock<N> {
    moments: N,
    watch: Arc<Watch, Global>,
}

/// When a connection was last heard, what its silence is measured by, and whether that has ended it.
#[derive(Drop)]
pub(crate) struct Watch {
    pub(crate) heard: LastActivity,
    /// How its silence has ended it, before the thread that serves it knows.
    end: Mutex<Option<ConnectionEnd>>,
    /// Whether a read that nothing comes to fails.
    is_closing: AtomicBool,
    /// Whether its session records.
    is_recording: AtomicBool,
    /// When it announced a mount of which it has set up no track since. `NEVER` if there is none.
    announced: AtomicU64,
}

/// A moment that never comes.
const NEVER: u64 = u64::MAX;

impl Watch {
    /// A read that nothing comes to fails from now on, after as long as the socket waits.
    pub(crate) fn close(&self) {
        self.is_closing.store(true, Ordering::SeqCst);
    }

    pub(crate) fn is_closing(&self) -> bool {
        self.is_closing.load(Ordering::SeqCst)
    }

    /// Silence has ended the connection so.
    pub(crate) fn end_so(&self, rt: &impl Wait, end: ConnectionEnd) {
        *self.end.lock(rt) = Some(end);
    }

    /// How silence has ended it, if it has.
    pub(crate) fn end(&self, rt: &impl Wait) -> Option<ConnectionEnd> {
        *self.end.lock(rt)
    }

    /// Notes whether the connection's session records, and whether it has announced a mount without a session yet.
    pub(crate) fn note_session(&self, is_recording: bool, is_announced: bool) {
        self.is_recording.store(is_recording, Ordering::SeqCst);
        let moment = if is_announced {
            self.announced.load(Ordering::SeqCst).min(self.heard.now())
        } else {
            NEVER
        };
        self.announced.store(moment, Ordering::SeqCst);
    }

    /// Whether the connection's session records.
    pub(crate) fn is_recording(&self) -> bool {
        self.is_recording.load(Ordering::SeqCst)
    }

    /// Whether it announced a mount this many milliseconds before a moment, or earlier, and has set up no track of it.
    pub(crate) fn is_unset(&self, now: u64, most: u64) -> bool {
        let announced = self.announced.load(Ordering::SeqCst);
        announced != NEVER && now.saturating_sub(announced) >= most
    }
}

impl<N: Moments + Drop> ConnectionClock<N> {
    /// The connection comes now.
    pub fn new(alloc: Global, moments: N) -> Result<ConnectionClock<N>, AllocError> {
        let mut moments = moments;
        let watch = Watch {
            heard: LastActivity::new(moments.now()),
            end: Mutex::new(None),
            is_closing: AtomicBool::new(false),
            is_recording: AtomicBool::new(false),
            announced: AtomicU64::new(NEVER),
        };
        Ok(ConnectionClock {
            moments,
            watch: Arc::new(alloc, watch)?,
        })
    }

    /// Reads the clock.
    pub(crate) fn now(&mut self) -> u64 {
        let now = self.moments.now();
        self.watch.heard.pass(now);
        now
    }
}

impl<N> ConnectionClock<N> {
    pub(crate) fn watch(&self) -> &Arc<Watch, Global>
        ensures { result.now ≡ self.now.watch }
    {
        &self.watch
    }
}

impl<N: Copy> ConnectionClock<N> {
    /// The same for one more owner.
    pub(crate) fn share(&self) -> Result<ConnectionClock<N>, AllocError>
        ensures moments { IfOk result (λ clock. clock.moments ≡ self.now.moments) }
        ensures watch { IfOk result (λ clock. arc_value clock.watch ≡ arc_value self.now.watch) }
    {
        Ok(ConnectionClock {
            moments: self.moments,
            watch: Arc::try_clone(&self.watch)?,
        })
    }
}
