//! The threads beside that of the tries. Each waits for something of the program's surroundings that may never come: the end of its input,
//! its password file, the reader of its standard error.
use crate::password_file::{PasswordFiles, read_password};
use crate::stopping::Stopping;
use log::Log;
use relay_log::Lines;
use server_counts::ServerCounts;
use std::alloc::{AllocError, Global};
use std::io::{Eprint, ErrorKind, Read};
use std::sync::{Arc, Wait};
use std::thread;
use std::thread::Threads;
use std::time::Clock;

/// Starts a thread that writes lines to standard error. A try doesn't wait for its reader.
pub(crate) fn write_lines<R>(rt: R, alloc: Global) -> Result<Arc<Lines<R>, Global>, AllocError>
where
    R: Threads + Wait + Clock + Log + Eprint + Copy + Send + Sync + 'static,
{
    let counts = Arc::new(alloc, ServerCounts::new())?;
    let lines = Arc::new(alloc, Lines::new(rt, alloc, counts)?)?;
    let written = Arc::try_clone(&lines)?;
    thread::spawn(&rt, move || written.write_all())?;
    Ok(lines)
}

/// Starts a thread that reads the password file each time that the tries want it.
pub(crate) fn read_passwords<R>(
    rt: R,
    alloc: Global,
    path: String,
    stopping: Arc<Stopping, Global>,
) -> Result<(), AllocError>
where
    R: Threads + Wait + PasswordFiles + Copy + Send + Sync + 'static,
{
    thread::spawn(&rt, move || {
        for _ in rt.forever() {
            if !stopping.wait_wanted(&rt) {
                return;
            }
            stopping.give_password(&rt, read_password(&rt, alloc, path.as_str()));
        }
    })?;
    Ok(())
}

/// Starts a thread that reads this input to its end, and then stops the tries.
pub(crate) fn stop_at_end<R, I>(
    rt: R,
    input: I,
    stopping: Arc<Stopping, Global>,
) -> Result<(), AllocError>
where
    R: Threads + Wait + Copy + Send + Sync + 'static,
    I: Read + Drop + Send + 'static,
{
    thread::spawn(&rt, move || {
        read_to_end(input);
        stopping.stop(&rt);
    })?;
    Ok(())
}

/// Reads until nothing more comes.
fn read_to_end<I: Read + Drop>(mut input: I) {
    let mut buf = [0; 1024];
    for _ in 0..u64::MAX {
        match input.read(&mut buf) {
            Ok(count) if count > 0 => {}
            Err(error) if error.kind() == ErrorKind::Interrupted => {}
            _ => return,
        }
    }
}
