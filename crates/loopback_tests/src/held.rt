//! A gate that holds a connection back, for tests.
use relay_server::Gate;
use std::alloc::Global;
use std::process::Abort;
use std::sync::Arc;
use std::sync::atomic::{AtomicBool, Ordering};
use std::time::Clock;
use test_kit::wait_for;

/// What a test and the gate of its server signal each other.
#[derive(Drop)]
pub(crate) struct Latch {
    is_held: AtomicBool,
    is_open: AtomicBool,
    gave_up: AtomicBool,
}

impl Latch {
    /// A closed latch, which no connection has come to.
    pub(crate) fn new(rt: &impl Abort, alloc: Global) -> Arc<Latch, Global> {
        let latch = Latch {
            is_held: AtomicBool::new(false),
            is_open: AtomicBool::new(false),
            gave_up: AtomicBool::new(false),
        };
        Arc::new(alloc, latch).expect(rt, "memory")
    }

    /// Waits until the gate holds connection 1, for at most ten seconds. Returns whether it does.
    pub(crate) fn wait_until_held<R: Clock>(&self, rt: &R) -> bool {
        wait_for(rt, &self.is_held)
    }

    /// Opens the latch: connection 1 goes on.
    pub(crate) fn open(&self) {
        self.is_open.store(true, Ordering::SeqCst);
    }

    /// Returns whether connection 1 went on before the latch was opened.
    pub(crate) fn gave_up(&self) -> bool {
        self.gave_up.load(Ordering::SeqCst)
    }
}

/// Holds the first call of connection 1 until its latch is opened, for at most ten seconds.
#[derive(Drop)]
pub(crate) struct Held<R> {
    rt: R,
    latch: Arc<Latch, Global>,
}

impl<R: Abort> Held<R> {
    pub(crate) fn new(rt: R, latch: &Arc<Latch, Global>) -> Held<R> {
        let latch = Arc::try_clone(latch).expect(&rt, "a count of the latch's users");
        Held { rt, latch }
    }
}

impl<R: Clock> Gate for Held<R> {
    fn pass(&self, conn: u64, turn: u64) {
        if conn != 1 || turn != 0 {
            return;
        }
        self.latch.is_held.store(true, Ordering::SeqCst);
        if !wait_for(&self.rt, &self.latch.is_open) {
            self.latch.gave_up.store(true, Ordering::SeqCst);
        }
    }
}
