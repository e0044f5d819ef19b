//! The commands with their texts, and how the options of each are put together.
use crate::options::{CommandRow, command_of};
use crate::pipe_options::{PASS_OPTIONS, STEPS_OPTIONS, TALK_OPTIONS};
use crate::pull_options::PULL_OPTIONS;
use crate::serve_options::SERVE_OPTIONS;
use clap::Command;
use std::alloc::{AllocError, Global};

/// The version of the program, as `relay --version` prints it.
pub const VERSION: &str = "0.1.0";

/// A server for clients of the same machine, as a line for the shell.
const EXAMPLE: &str = "Example: a server for clients on this machine

./relay serve 127.0.0.1:8554";

/// A server that players begin with a picture from, as a line for the shell.
const SERVE_EXAMPLE: &str = "Example: on all addresses, and players start with a picture at once

./relay serve 0.0.0.0:8554 --keep 2048 --back-ms 2000";

/// A request that `relay talk` answers, as a line for the shell.
const TALK_EXAMPLE: &str = "Example: the methods that the relay knows

printf 'OPTIONS * RTSP/1.0\\r\\nCSeq: 1\\r\\n\\r\\n' | ./relay talk --word 0000abcd";

/// An input that `relay steps` runs, as a line for the shell.
const STEPS_EXAMPLE: &str =
    "Example: a seat loses the first of three packets, since the ring keeps two

printf \\
'keep 2\\nseats 1\\np 41\\np 42\\np 43\\n0 attach\\n0 take\\n0 take\\n0 detach\\ngo 0 p*15 0 0*5 0\\n' |
./relay steps";

/// A recorded stream that `relay pass` passes on, as a line for the shell.
const PASS_EXAMPLE: &str =
    "Example: a recorded stream's first track, from channels 0 and 1 to 2 and 3

printf '$\\000\\000\\014\\200\\140\\000\\001\\000\\000\\000\\001\\000\\000\\000\\007' |
./relay pass --to 2-3 | od -An -tx1";

/// A camera that is a server, as a line for the shell.
const PULL_EXAMPLE: &str =
    "Example: a camera's stream as the mount door of the relay on this machine

./relay pull rtsp://10.0.0.9/stream rtsp://127.0.0.1:8554/door";

/// The command line: `relay serve`, `relay pull`, `relay talk`, `relay steps` and `relay pass`.
pub(crate) fn command<'a>(alloc: Global) -> Result<Command<'a>, AllocError> {
    let serve = serve_command(alloc)?;
    let pull = pull_command(alloc)?;
    let talk = talk_command(alloc)?;
    let steps = steps_command(alloc)?;
    let pass = pass_command(alloc)?;
    Command::new(alloc, "relay")
        .version(VERSION)
        .about("A live relay for RTSP 1.0 (RFC 2326)")
        .after_help(EXAMPLE)
        .subcommand_required(true)
        .subcommand(serve)?
        .subcommand(pull)?
        .subcommand(talk)?
        .subcommand(steps)?
        .subcommand(pass)
}

fn talk_command<'a>(alloc: Global) -> Result<Command<'a>, AllocError> {
    let row = CommandRow {
        name: "talk",
        about: "Answers one RTSP connection on standard input and standard output",
        example: TALK_EXAMPLE,
    };
    command_of(alloc, row, TALK_OPTIONS.as_slice())
}

/// `relay steps`, with its option.
pub(crate) fn steps_command<'a>(alloc: Global) -> Result<Command<'a>, AllocError> {
    let row = CommandRow {
        name: "steps",
        about: "Runs a schedule of the ring's atomic steps from standard input, and prints each step",
        example: STEPS_EXAMPLE,
    };
    command_of(alloc, row, STEPS_OPTIONS.as_slice())
}

/// `relay pass`, with its options.
pub(crate) fn pass_command<'a>(alloc: Global) -> Result<Command<'a>, AllocError> {
    let row = CommandRow {
        name: "pass",
        about: "Passes a publisher's stream from standard input through a ring to standard output",
        example: PASS_EXAMPLE,
    };
    command_of(alloc, row, PASS_OPTIONS.as_slice())
}

/// `relay serve ADDR`, with its options, their ranges and their defaults.
pub(crate) fn serve_command<'a>(alloc: Global) -> Result<Command<'a>, AllocError> {
    let row = CommandRow {
        name: "serve",
        about: "Relays streams from publishers to players over TCP",
        example: SERVE_EXAMPLE,
    };
    command_of(alloc, row, SERVE_OPTIONS.as_slice())
}

/// `relay pull SOURCE TARGET`, with its options, their ranges and their defaults.
pub(crate) fn pull_command<'a>(alloc: Global) -> Result<Command<'a>, AllocError> {
    let row = CommandRow {
        name: "pull",
        about: "Fetches the stream of a camera that is an RTSP server, and publishes it",
        example: PULL_EXAMPLE,
    };
    command_of(alloc, row, PULL_OPTIONS.as_slice())
}
