//! The file that has a password.
ghost use Rattle.std.specs.Prelude.{◌≤◌};

use crate::limits::MOST_PASSWORD_BYTES;
use base_syntax::Bytes;
use std::alloc::Global;
use std::fs::File;
use std::io::Read;
use std::{fmt, io};

/// Why a file gives no password.
#[derive(Debug, Drop)]
pub(crate) enum PasswordFault {
    /// It can't be read.
    Unreadable(io::Error),
    /// It has no byte before the end of its first line.
    Empty,
    /// It has 1,024 bytes or more.
    TooLong,
}

impl From<io::Error> for PasswordFault {
    fn from(error: io::Error) -> PasswordFault {
        PasswordFault::Unreadable(error)
    }
}

impl fmt::Display for PasswordFault {
    fn fmt<W: fmt::Write>(&self, f: &mut fmt::Formatter<W>) -> fmt::Result {
        match self {
            PasswordFault::Unreadable(error) => write!(f, "{error}"),
            PasswordFault::Empty => write!(f, "no password in the file"),
            PasswordFault::TooLong => write!(f, "more than {} bytes", MOST_PASSWORD_BYTES - 1),
        }
    }
}

/// The first bytes of a file, at most 1,024.
#[derive(Drop)]
pub struct Beginning {
    text: [u8; MOST_PASSWORD_BYTES],
    len: usize,
    ghost within: { len ≤ 1024 },
}

/// What can read files on a thread of its own. (What std's `Files` opens can belong to one thread.)
pub trait PasswordFiles {
    /// Reads the first bytes of a file.
    fn beginning(&self, path: &str) -> io::Result<Beginning>;
}

impl PasswordFiles for HostRuntime {
    fn beginning(&self, path: &str) -> io::Result<Beginning> {
        let mut file = File::open(self, path)?;
        read_beginning(&mut file)
    }
}

/// Reads until nothing more comes, at most 1,024 bytes.
fn read_beginning<F: Read>(file: &mut F) -> io::Result<Beginning> {
    let mut text = [0; MOST_PASSWORD_BYTES];
    let mut len = 0;
    for _ in 0..MOST_PASSWORD_BYTES {
        let count = file.read(&mut text[len..])?;
        if count == 0 {
            break;
        }
        len += count;
    }
    Ok(Beginning { text, len })
}

/// Reads a file of at most 1,023 bytes, without the end of its last line. A file that is being written can be found empty, which is no
/// password.
pub(crate) fn read_password(
    files: &impl PasswordFiles,
    alloc: Global,
    path: &str,
) -> Result<Bytes, PasswordFault> {
    let Beginning { text, len } = files.beginning(path)?;
    if len == MOST_PASSWORD_BYTES {
        return Err(PasswordFault::TooLong);
    }
    let text = without_line_end(&text[..len]);
    if text.is_empty() {
        return Err(PasswordFault::Empty);
    }
    match Bytes::from_slice(alloc, text) {
        Ok(password) => Ok(password),
        Err(error) => Err(PasswordFault::Unreadable(error.into())),
    }
}

/// Returns a text without a line feed at its end, and a carriage return before that.
fn without_line_end(text: &[u8]) -> &[u8] {
    match text {
        [line @ .., b'\r', b'\n'] => line,
        [line @ .., b'\n'] => line,
        line => line,
    }
}
