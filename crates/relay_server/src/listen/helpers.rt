//! The threads that all connections of a server share.
use crate::limits::LAST_LINES;
use crate::listen::options::Options;
use crate::listen::server::Server;
use admission::Gate;
use log::Log;
use relay_log::{Lines, Reports, tell_not_started};
use session_state::{Moments, Words};
use std::alloc::{AllocError, Global};
use std::io::Eprint;
use std::sync::{Arc, Wait};
use std::thread;
use std::thread::{JoinHandle, Threads};
use std::time::{Clock, Duration};

/// The threads that all connections of a server share. One wakes players, one closes the connections of refused peers, and one
/// reports mounts and players if that is set. Writers send frames. One writes lines; it isn't joined, because standard error
/// may have no reader.
#[derive(Drop)]
pub(super) struct Helpers {
    waking: Option<JoinHandle<()>>,
    closing: Option<JoinHandle<()>>,
    writing: Vec<JoinHandle<()>>,
    reporting: Option<JoinHandle<()>>,
}

impl Helpers {
    /// Starts them. If one can't be started, that is logged, and those that were started are ended again.
    pub(super) fn start<R, V, G, N>(
        rt: R,
        alloc: Global,
        server: &Server<R, V, G, N>,
        options: Options,
    ) -> Result<Helpers, AllocError>
    where
        R: Threads + Wait + Clock + Log + Eprint + Copy + Send + Sync + 'static,
        V: Words + Drop + Send + 'static,
        G: Gate + Drop + Send + Sync + 'static,
        N: Moments + Copy + Send + 'static,
    {
        let mut helpers = Helpers {
            waking: None,
            closing: None,
            writing: Vec::new(alloc),
            reporting: None,
        };
        match helpers.start_all(rt, alloc, server, options) {
            Ok(()) => Ok(helpers),
            Err(refused) => {
                tell_not_started(&rt);
                helpers.end(&rt, server);
                Err(refused)
            }
        }
    }

    /// Starts one after another.
    fn start_all<R, V, G, N>(
        &mut self,
        rt: R,
        alloc: Global,
        server: &Server<R, V, G, N>,
        options: Options,
    ) -> Result<(), AllocError>
    where
        R: Threads + Wait + Clock + Log + Eprint + Copy + Send + Sync + 'static,
        V: Words + Drop + Send + 'static,
        G: Gate + Drop + Send + Sync + 'static,
        N: Moments + Copy + Send + 'static,
    {
        let gate = &server.shared.gate;
        let written = Arc::try_clone(&server.lines)?;
        ask(gate)?;
        thread::spawn(&rt, move || written.write_all())?;
        self.start_writers(rt, alloc, server)?;
        let shared = Arc::try_clone(&server.shared)?;
        let gather = Duration::from_millis(options.gather);
        ask(gate)?;
        self.waking = Some(thread::spawn(&rt, move || { shared.wake_players(&rt, gather) })?);
        let refused = Arc::try_clone(&server.refused)?;
        let told = Arc::try_clone(&server.lines)?;
        ask(gate)?;
        self.closing = Some(thread::spawn(&rt, move || refused.close_all(&rt, &told))?);
        self.start_reports(rt, server, options)
    }

    /// Starts the writers, if players are sent their frames by such.
    fn start_writers<R, V, G, N>(
        &mut self,
        rt: R,
        alloc: Global,
        server: &Server<R, V, G, N>,
    ) -> Result<(), AllocError>
    where
        R: Threads + Wait + Clock + Log + Eprint + Copy + Send + Sync + 'static,
        V: Words + Drop + Send + 'static,
        G: Gate + Drop + Send + Sync + 'static,
        N: Moments + Copy + Send + 'static,
    {
        let Some(writers) = &server.writers else {
            return Ok(());
        };
        for number in 0..writers.len() {
            let theirs = Arc::try_clone(writers)?;
            ask(&server.shared.gate)?;
            let thread = thread::spawn(&rt, move || theirs.write_all(&rt, alloc, number))?;
            self.writing.push(thread)?;
        }
        Ok(())
    }

    /// Starts the thread that reports mounts and players, if that is set.
    fn start_reports<R, V, G, N>(
        &mut self,
        rt: R,
        server: &Server<R, V, G, N>,
        options: Options,
    ) -> Result<(), AllocError>
    where
        R: Threads + Wait + Clock + Log + Eprint + Copy + Send + Sync + 'static,
        V: Words + Drop + Send + 'static,
        G: Gate + Drop + Send + Sync + 'static,
        N: Moments + Copy + Send + 'static,
    {
        let (Some(reports), Some(distance)) = (&server.reports, options.report) else {
            return Ok(());
        };
        let reports = Arc::try_clone(reports)?;
        let lines = Arc::try_clone(&server.lines)?;
        let distance = Duration::from_millis(distance);
        let moments = server.moments;
        ask(&server.shared.gate)?;
        self.reporting = Some(thread::spawn(&rt, move || {
            report_all(&rt, &reports, &lines, distance, moments)
        })?);
        Ok(())
    }

    /// Ends them, after the last connection.
    pub(super) fn end<R: Threads + Wait + Clock, V, G, N>(
        self,
        rt: &R,
        server: &Server<R, V, G, N>,
    ) {
        let Helpers {
            waking,
            closing,
            writing,
            reporting,
        } = self;
        server.shared.stop_waking();
        join(rt, waking);
        if let Some(writers) = &server.writers {
            writers.stop();
        }
        for thread in writing {
            thread.join(rt);
        }
        if let Some(reports) = &server.reports {
            reports.close(rt);
        }
        join(rt, reporting);
        server.refusing.end(rt);
        join(rt, closing);
        server.lines.close(Duration::from_millis(LAST_LINES));
    }
}

/// Reports what came, each time that `distance` has passed, and once more after the reports are closed.
fn report_all<R: Wait + Clock>(
    rt: &R,
    reports: &Reports,
    lines: &Lines<R>,
    distance: Duration,
    mut moments: impl Moments + Drop,
) {
    let mark = &reports.counts().reporting;
    for _ in rt.forever() {
        mark.look();
        let is_closed = reports.wait(rt, distance);
        mark.raise();
        reports.tell(rt, lines, moments.now());
        if is_closed {
            return;
        }
    }
}

/// Waits for a thread, if it was started.
fn join<R: Threads + Wait>(rt: &R, thread: Option<JoinHandle<()>>) {
    if let Some(thread) = thread {
        thread.join(rt);
    }
}

/// Fails if the gate refuses a thread, as if the system did.
fn ask(gate: &impl Gate) -> Result<(), AllocError> {
    if gate.may_help() {
        Ok(())
    } else {
        Err(AllocError)
    }
}
