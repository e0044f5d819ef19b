//! What a client is told of a reply.
ghost use Rattle.std.specs.Prelude.{◌≡◌, IfOk};
ghost use Rattle.std.specs.Option.{option_copied};
ghost use Rattle.rtsp_client.specs.Facts.{AreFactsOf, names_get_parameter};

use crate::opened::{Opened, SessionFault, opened_by};
use crate::public::has_method;
use crate::reply_channels::ReplyChannels;
use std::alloc::{AllocError, Global};

/// The parts of a reply that a client looks at: its status (RFC 2326, 7.1.1) and the values of headers (12), without the name.
#[derive(Clone, Copy, Drop)]
pub struct ReplyHeaders<'a> {
    /// `None` if it has no CSeq, or none that can be read.
    pub cseq: Option<u32>,
    pub status: u16,
    pub session: Option<&'a [u8]>,
    pub transport: Option<&'a [u8]>,
    pub public: Option<&'a [u8]>,
}

/// What the parts of a reply say.
#[derive(Drop)]
pub struct ReplyFacts {
    /// The number of the request that it answers, if it says so.
    pub number: Option<u32>,
    pub status: u16,
    /// The channels that it gives a track, if it is a reply to SETUP.
    pub channels: ReplyChannels,
    /// The session that it opens, if it is a reply to SETUP.
    pub session: Result<Opened, SessionFault>,
    /// Whether its server has GET_PARAMETER, if it is a reply to OPTIONS.
    pub has_get_parameter: bool,
}

impl ReplyFacts {
    /// Returns what the parts of a reply say. The only error is out of memory.
    pub fn of(alloc: Global, headers: ReplyHeaders<'_>) -> Result<ReplyFacts, AllocError>
        ensures { IfOk result (AreFactsOf headers.entry) }
    {
        Ok(ReplyFacts {
            number: headers.cseq,
            status: headers.status,
            channels: ReplyChannels::of(alloc, headers.transport)?,
            session: opened_by(alloc, headers.session)?,
            has_get_parameter: has_get_parameter(headers.public),
        })
    }
}

/// Returns whether a Public header's value names GET_PARAMETER.
fn has_get_parameter(public: Option<&[u8]>) -> bool
    ensures { result ≡ names_get_parameter (option_copied public.entry) }
{
    match public {
        Some(methods) => has_method(methods, b"GET_PARAMETER"),
        None => false,
    }
}
