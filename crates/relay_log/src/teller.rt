//! What is reported of a connection, and where.
use crate::lines::Lines;
use crate::published::PublishedMounts;
use crate::refusing::Refusing;
use crate::reports::Reports;
use std::alloc::Global;
use std::net::SocketAddr;
use std::sync::Arc;

/// What lines report of a connection, and where they are written.
pub struct Teller<R> {
    pub lines: Arc<Lines<R>, Global>,
    pub peer: SocketAddr,
    pub conn: u64,
    /// Whether a line reports each mount, each player, each session's account and each refusal.
    pub is_verbose: bool,
    /// What is reported of mounts and players while they go on. `None` for nothing.
    pub reports: Option<Arc<Reports, Global>>,
    pub published: Arc<PublishedMounts, Global>,
    pub refusing: Arc<Refusing, Global>,
}

impl<R: Drop> Drop for Teller<R> {
    fn drop(self) {
        let Teller {
            lines: _,
            peer: _,
            conn: _,
            is_verbose: _,
            reports: _,
            published: _,
            refusing: _,
        } = self;
    }
}
