//! The command `relay pull`.
use crate::ended::Ended;
use crate::helpers::{read_passwords, stop_at_end, write_lines};
use crate::limits::LAST_LINES;
use crate::password_file::PasswordFiles;
use crate::plan::Plan;
use crate::program::Program;
use crate::stopping::Stopping;
use crate::tries::run_tries;
use base_syntax::Bytes;
use log::Log;
use pull_plan::{LONGEST_RETRY, PullSettings, name_of};
use pull_session::PullOptions;
use relay_log::Lines;
use sockets::SteadyClock;
use std::alloc::{AllocError, Global};
use std::io::{Eprint, Read};
use std::net::{Net, TcpListener, TcpStream};
use std::random::RandomSource;
use std::sync::{Arc, Wait};
use std::thread;
use std::thread::{JoinHandle, Threads};
use std::time::{Clock, Duration};

/// Fetches a stream and publishes it, until the input ends if the settings say so, or until one try has ended. The URLs of the settings were
/// read without a fault. After a stop it returns within five seconds, whatever a try, the password file and the reader of standard error
/// make it wait for: its threads may still run then.
pub fn pull<R, I>(rt: R, alloc: Global, settings: PullSettings, input: I) -> Ended
where
    I: Read + Drop + Send + 'static,
    R: Threads
        + Wait
        + Clock
        + Log
        + Eprint
        + PasswordFiles
        + RandomSource
        + Net<Listener = TcpListener, Stream = TcpStream>
        + Copy
        + Send
        + Sync
        + 'static,
{
    let once = settings.once;
    let Ok(started) = start(rt, alloc, settings, input) else {
        return Ended::OutOfMemory;
    };
    let Started {
        stopping,
        lines,
        tries,
    } = started;
    let ended = match stopping.wait_ended(&rt) {
        Some(ended) => {
            tries.join(&rt);
            ended
        }
        None => Ended::stopped(alloc, once),
    };
    lines.close(Duration::from_millis(LAST_LINES));
    ended
}

/// What a pull has started.
struct Started<R> {
    stopping: Arc<Stopping, Global>,
    lines: Arc<Lines<R>, Global>,
    tries: JoinHandle<()>,
}

/// Starts the threads of a pull: one for its tries, one that writes their lines, and if the settings say so, one that reads the password
/// file and one that waits for the end of the input. The only error is that there is no memory or no thread.
fn start<R, I>(
    rt: R,
    alloc: Global,
    mut settings: PullSettings,
    input: I,
) -> Result<Started<R>, AllocError>
where
    I: Read + Drop + Send + 'static,
    R: Threads
        + Wait
        + Clock
        + Log
        + Eprint
        + PasswordFiles
        + RandomSource
        + Net<Listener = TcpListener, Stream = TcpStream>
        + Copy
        + Send
        + Sync
        + 'static,
{
    let stopping = Arc::new(alloc, Stopping::new())?;
    if settings.until_eof {
        stop_at_end(rt, input, Arc::try_clone(&stopping)?)?;
    }
    let file = settings.password_file.take();
    let has_password_file = file.is_some();
    if let Some(path) = file {
        read_passwords(rt, alloc, path, Arc::try_clone(&stopping)?)?;
    }
    let lines = write_lines(rt, alloc)?;
    let (theirs, logged) = (Arc::try_clone(&stopping)?, Arc::try_clone(&lines)?);
    let tries = thread::spawn(&rt, move || {
        let ended = try_all(rt, alloc, settings, has_password_file, &theirs, logged);
        theirs.end(&rt, ended);
    })?;
    Ok(Started {
        stopping,
        lines,
        tries,
    })
}

/// Reads the password if a file has one, and then tries until the stop, or once.
fn try_all<R>(
    rt: R,
    alloc: Global,
    settings: PullSettings,
    has_password_file: bool,
    stopping: &Arc<Stopping, Global>,
    lines: Arc<Lines<R>, Global>,
) -> Ended
where
    R: Wait + Clock + RandomSource + Net<Listener = TcpListener, Stream = TcpStream> + Copy,
{
    let mut password = None;
    if has_password_file {
        match stopping.first_password(&rt) {
            Some(Ok(read)) => password = Some(read),
            Some(Err(fault)) => return Ended::no_password(alloc, fault),
            None => return Ended::stopped(alloc, settings.once),
        }
    }
    let Ok((name, stopping)) = shared(alloc, &settings, stopping) else {
        return Ended::OutOfMemory;
    };
    let mut program = Program {
        rt,
        alloc,
        clock: SteadyClock::new(&rt),
        stopping,
        lines,
        name,
        has_password_file,
        is_verbose: settings.is_verbose,
    };
    run_program(&mut program, alloc, &settings, password)
}

/// Tries until the stop, or once, as the settings say.
fn run_program<R>(
    program: &mut Program<R>,
    alloc: Global,
    settings: &PullSettings,
    password: Option<Bytes>,
) -> Ended
where
    R: Wait + Clock + RandomSource + Net<Listener = TcpListener, Stream = TcpStream> + Copy,
{
    let options = PullOptions {
        takes_audio: settings.tracks.audio,
        takes_video: settings.tracks.video,
        silent: settings.silent,
    };
    let plan = Plan {
        source: settings.source.as_str(),
        target: settings.target.as_str(),
        options,
        report: settings.report,
        once: settings.once,
    };
    let first = settings.retry.min(LONGEST_RETRY);
    run_tries(program, alloc, &plan, first, password)
}

/// Returns the name of the target's mount, and one more owner of the stop.
fn shared(
    alloc: Global,
    settings: &PullSettings,
    stopping: &Arc<Stopping, Global>,
) -> Result<(String, Arc<Stopping, Global>), AllocError> {
    let name = String::from_utf8_lossy(alloc, name_of(settings.target.as_str().as_bytes()))?;
    Ok((name, Arc::try_clone(stopping)?))
}
