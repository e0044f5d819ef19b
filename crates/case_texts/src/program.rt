//! What a program of cases reads and prints.

use crate::fault::Fault;
use crate::running::Outcome;
use std::alloc::AllocError;
use std::io;
use std::io::{Read, Write};
use std::process::ExitCode;

/// Reads all of the standard input.
pub fn read_input(rt: &(impl Input + AllocGlobal)) -> io::Result<Vec<u8>> {
    let mut text = Vec::new(rt.alloc());
    rt.reader().read_to_end(&mut text)?;
    Ok(text)
}

/// Prints what differs, and on standard error why the text can't be run on from a line.
pub fn tell(rt: &(impl Print + Eprint), program: &str, outcome: &Outcome) -> io::Result<()> {
    io::writer(rt).write_all(&outcome.report)?;
    match outcome.fault {
        None => Ok(()),
        Some((_, Fault::OutOfMemory)) => Err(io::Error::from(AllocError)),
        Some((line, fault)) => eprintln!(rt; "{program}: line {line}: {fault}"),
    }
}

/// Returns the status of a program: success if each step gave what it had to. Prints an error.
pub fn exit_code(rt: &impl Eprint, program: &str, holds: io::Result<bool>) -> io::Result<ExitCode> {
    match holds {
        Ok(true) => Ok(ExitCode::SUCCESS),
        Ok(false) => Ok(ExitCode::FAILURE),
        Err(error) => {
            eprintln!(rt; "{program}: {error}")?;
            Ok(ExitCode::FAILURE)
        }
    }
}
