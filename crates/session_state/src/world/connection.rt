//! What is remembered of an open connection.
ghost use Rattle.std.specs.Prelude.{◌≡◌, IfOk};

use crate::session::{Session, copy_session};
use std::alloc::{AllocError, Global};

/// What is remembered of an open connection.
#[derive(Drop)]
pub(crate) struct Connection {
    pub session: Option<Session>,
    /// The greatest moment of its requests, in milliseconds; 0 before the first.
    pub heard: u64,
}

impl Connection {
    /// A copy, or out of memory.
    pub(crate) fn copy(&self, alloc: Global) -> Result<Connection, AllocError>
        ensures { IfOk result (λ copied. copied ≡ self.now) }
    {
        Ok(Connection {
            session: copy_session(alloc, &self.session)?,
            heard: self.heard,
        })
    }
}
