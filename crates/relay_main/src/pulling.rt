//! The command `relay pull`.
use crate::{COMMAND_LINE_FAULT, FAILED, fails};
use log::Log;
use pull_plan::PullSettings;
use relay_command::exit_code;
use relay_pull::{Ended, PasswordFiles, pull, read_urls};
use std::alloc::Global;
use std::io::{Eprint, Read};
use std::net::{Net, TcpListener, TcpStream};
use std::process::ExitCode;
use std::random::RandomSource;
use std::sync::Wait;
use std::thread::Threads;
use std::time::Clock;

/// The line of a pull for which there is no memory.
const OUT_OF_MEMORY: &str = "relay: pull: out of memory";

/// Fetches a stream and publishes it, until the input ends if the settings say so. Returns the exit code of how that went.
pub(crate) fn pull_stream<R, I>(rt: R, alloc: Global, settings: PullSettings, input: I) -> ExitCode
where
    I: Read + Drop + Send + 'static,
    R: Threads
        + Wait
        + Clock
        + Log
        + Eprint
        + PasswordFiles
        + RandomSource
        + Net<Listener = TcpListener, Stream = TcpStream>
        + Copy
        + Send
        + Sync
        + 'static,
{
    if let Err(line) = read_urls(alloc, &settings) {
        // The status tells it, wherever the line goes.
        let _ = rt.eprintln(line);
        return exit_code(COMMAND_LINE_FAULT);
    }
    match pull(rt, alloc, settings, input) {
        Ended::Good => exit_code(0),
        Ended::Failed(line) => fails(&rt, FAILED, line.as_str()),
        Ended::OutOfMemory => fails(&rt, FAILED, OUT_OF_MEMORY),
    }
}
