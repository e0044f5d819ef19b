//! Lines that report a request as it is refused.
ghost use Rattle.std.specs.Prelude.{◌≡◌};
ghost use Rattle.relay_log.specs.Requests.{is_counted as counts_by_mount, shortened_text};

use crate::events::{Events, path_in};
use log::info;
use mounts::MAX_NAME;
use rtsp_message::{Request, Status};
use std::alloc::Global;
use std::sync::Wait;
use std::time::Clock;

/// The source that lines are logged with.
const TARGET: &str = "relay_server::events";

impl<R: Wait + Clock> Events<R> {
    /// A request was refused with this status, by which the server counts it. If a line reports such requests once in a while, it is
    /// counted by mount and status, too.
    pub fn refused(&self, rt: &R, alloc: Global, request: &Request, status: Status) {
        let Some(teller) = &self.teller else {
            return;
        };
        teller.refusing.count_status(status);
        let peer = teller.peer;
        let path = path_in(alloc, request).unwrap_or(None);
        let found = match &path {
            Some(path) => teller.published.find(rt, path.as_slice()),
            None => None,
        };
        if is_counted(status) {
            let name = found.as_ref().map(|mount| mount.name.as_slice());
            teller.refusing.count_request(rt, name, status, peer);
        }
        if !teller.is_verbose {
            return;
        }
        let code = status.code();
        let method = shortened(request.method.as_slice()).escape_ascii();
        match (&found, &path) {
            (Some(mount), _) => {
                let publisher = mount.peer;
                info!(teller.lines; target: TARGET, "{peer}: {method} of {} refused {code}, published by {publisher}", mount.name.as_slice().escape_ascii())
            }
            (None, Some(path)) => {
                info!(teller.lines; target: TARGET, "{peer}: {method} of {} refused {code}", shortened(path.as_slice()).escape_ascii())
            }
            (None, None) => {
                info!(teller.lines; target: TARGET, "{peer}: {method} of {} refused {code}", shortened(request.uri.as_slice()).escape_ascii())
            }
        }
    }
}

/// Returns what is logged of a text that a peer chose: as many bytes of it as a mount's name may have, or a dash if it has none.
fn shortened(text: &[u8]) -> &[u8]
    ensures { result.now ≡ shortened_text text.now }
{
    if text.is_empty() {
        b"-"
    } else if text.len() <= MAX_NAME {
        text
    } else {
        &text[..MAX_NAME]
    }
}

/// Returns whether requests that are refused so are counted by mount, and reported without `--verbose`: a name that another has or a
/// network that isn't allowed, no seat, no place for a mount, a name that no mount has, and a transport that isn't interleaved.
fn is_counted(status: Status) -> bool
    ensures { result ≡ counts_by_mount status }
{
    matches!(
        status,
        Status::Forbidden
            | Status::NotEnoughBandwidth
            | Status::ServiceUnavailable
            | Status::NotFound
            | Status::UnsupportedTransport
    )
}
