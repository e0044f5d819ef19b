//! The threads of a server that leave marks.
ghost use Rattle.std.specs.Prelude.{◌≡◌};

use mount_signals::WakeSignal;
use server_counts::{Mark, ServerCounts, ServerThread, ThreadLook};
use std::alloc::{AllocError, Global};
use std::sync::Arc;

/// What the waking thread and the writers leave their marks in, and how many writers there are.
#[derive(Drop)]
pub(super) struct MarkedThreads {
    pub(super) wake_signal: Arc<WakeSignal, Global>,
    pub(super) writers: usize,
}

/// Reads the marks of the threads that serve many. Those of the waking thread and of the writers are there once the server has started.
pub(super) fn marks_of(
    alloc: Global,
    counts: &ServerCounts,
    marked_threads: &Option<MarkedThreads>,
) -> Result<Vec<ThreadLook>, AllocError> {
    let mut looks = Vec::new(alloc);
    looks.push(look_at(ServerThread::Accepting, counts.accepting.read()))?;
    looks.push(look_at(ServerThread::Refusing, counts.refusing.read()))?;
    looks.push(look_at(ServerThread::Reporting, counts.reporting.read()))?;
    let Some(
        MarkedThreads {
            wake_signal,
            writers,
        },
    ) = marked_threads
    else {
        return Ok(looks);
    };
    looks.push(look_at(ServerThread::Waking, wake_signal.waking_mark()))?;
    for number in 0..*writers {
        if let Some(mark) = wake_signal.writer_mark(number) {
            looks.push(look_at(ServerThread::Writing(number), mark))?;
        }
    }
    Ok(looks)
}

/// The mark of a thread as it was read.
fn look_at(thread: ServerThread, mark: Mark) -> ThreadLook
    ensures { result ≡ record { thread = thread; mark = mark } }
{
    ThreadLook { thread, mark }
}
