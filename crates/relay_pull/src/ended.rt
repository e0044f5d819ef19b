//! How a pull has ended.
ghost use Rattle.std.specs.Prelude.{◌≡◌, ◌↔◌, ◌≢◌};
ghost use Rattle.relay_pull.specs.Ends.{IsDone};

use crate::password_file::PasswordFault;
use crate::try_end::TryEnd;
use std::alloc::{AllocError, Global};

/// How a pull has ended.
#[derive(Drop)]
pub enum Ended {
    /// It was stopped, or with `--once` frames went on until the source ended.
    Good,
    /// It failed, as this line says.
    Failed(String),
    /// It failed since memory was refused.
    OutOfMemory,
}

impl Ended {
    /// A pull of one try has ended, in which this number of frames went on.
    pub(crate) fn once(alloc: Global, end: TryEnd, sent: u64) -> Ended
        ensures { (result ≡ Ended.Good) ↔ IsDone end sent }
    {
        if sent > 0 && end.is_good() {
            return Ended::Good;
        }
        Ended::failed(format!(in alloc; "relay: pull: {end}"))
    }

    /// The password file gives no password at the start.
    pub(crate) fn no_password(alloc: Global, fault: PasswordFault) -> Ended {
        Ended::failed(format!(in alloc; "relay: pull: --password-file: {fault}"))
    }

    /// A pull was stopped, and its last try didn't end in time.
    pub(crate) fn stopped(alloc: Global, once: bool) -> Ended {
        if once {
            Ended::failed(format!(in alloc; "relay: pull: stopped"))
        } else {
            Ended::Good
        }
    }

    /// It failed, as this line says.
    fn failed(line: Result<String, AllocError>) -> Ended
        ensures { result ≢ Ended.Good }
    {
        match line {
            Ok(line) => Ended::Failed(line),
            Err(AllocError) => Ended::OutOfMemory,
        }
    }
}
