//! Lines that report mounts and players as they come and leave.
mod account_lines;
mod mount_lines;
mod request_lines;
mod seat_lines;
mod tracks;

ghost use Rattle.std.specs.Prelude.{None, Some, IfOk};
ghost use Rattle.relay_log.specs.News.{IsNew, IsPathIn};

use crate::line_rate::LineRate;
use crate::lines::Lines;
use crate::published::PublishedMounts;
use crate::refusing::Refusing;
use crate::teller::Teller;
pub(crate) use account_lines::{has_to_be_logged, log_account};
use base_syntax::Bytes;
use mount_lines::Announced;
use mounts::{Uri, UriFault, read_uri};
use rtsp_message::Request;
use status::TrackStatus;
use std::alloc::{AllocError, Global};
use std::net::SocketAddr;
use std::sync::Arc;
use std::time::Clock;

/// What a connection reports: the mount that it announced, the seat that it plays from, its sessions' accounts and its requests that
/// are refused. What there is no memory for counts as a dropped line.
pub struct Events<R> {
    /// `None` if nothing is reported.
    teller: Option<Teller<R>>,
    /// The mount that it has announced, until that ends, if lines report it.
    mount: Option<Announced>,
    /// The tracks of the mount that it has announced, until that is recorded, if reports have mounts.
    tracks: Option<Vec<TrackStatus>>,
    /// How many accounts of its sessions were logged in a second.
    accounts: LineRate,
    /// How many starts that were shortened.
    starts: LineRate,
}

impl<R: Drop> Drop for Events<R> {
    fn drop(self) {
        let Events {
            teller: _,
            mount: _,
            tracks: _,
            accounts: _,
            starts: _,
        } = self;
    }
}

impl<R> Events<R> {
    /// Nothing is reported.
    pub fn none() -> Events<R>
        ensures { IsNew result None }
    {
        Events {
            teller: None,
            mount: None,
            tracks: None,
            accounts: LineRate::new(),
            starts: LineRate::new(),
        }
    }

    /// What a connection reports.
    pub fn new(teller: Teller<R>) -> Events<R>
        ensures { IsNew result (Some teller) }
    {
        Events {
            teller: Some(teller),
            mount: None,
            tracks: None,
            accounts: LineRate::new(),
            starts: LineRate::new(),
        }
    }

    /// All that a connection reports, in these lines, of a server that has no other.
    pub fn alone(
        clock: &impl Clock,
        alloc: Global,
        lines: &Arc<Lines<R>, Global>,
        peer: SocketAddr,
        conn: u64,
    ) -> Result<Events<R>, AllocError>
    where
        R: Drop,
    {
        let counts = Arc::try_clone(lines.counts())?;
        Ok(Events::new(Teller {
            lines: Arc::try_clone(lines)?,
            peer,
            conn,
            is_verbose: true,
            reports: None,
            published: Arc::new(alloc, PublishedMounts::new(alloc)?)?,
            refusing: Arc::new(alloc, Refusing::new(clock, alloc, counts)?)?,
        }))
    }
}

/// Returns the path of a request's URI, which for an accepted ANNOUNCE is the name of the mount that it makes. `None` if it has none.
/// The only error is out of memory.
fn path_in(alloc: Global, request: &Request) -> Result<Option<Bytes>, AllocError>
    ensures { IfOk result (IsPathIn request.now.uri) }
{
    match read_uri(alloc, request.uri.as_slice()) {
        Ok(Uri::At(target)) => Ok(Some(target.path)),
        Ok(Uri::Star) | Err(UriFault::BadUri) => Ok(None),
        Err(UriFault::OutOfMemory) => Err(AllocError),
    }
}
