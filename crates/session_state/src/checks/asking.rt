//! A request with what is known for it.

use crate::session::Session;
use mounts::Mounts;
use rtsp_message::Request;

/// A request of a connection, with what is known for it.
#[derive(Clone, Copy)]
pub(crate) struct Asking<'a> {
    pub request: &'a Request,
    pub conn: u64,
    /// The connection's session.
    pub session: Option<&'a Session>,
    pub mounts: &'a Mounts,
    /// How many sessions have begun.
    pub begun: u32,
}
