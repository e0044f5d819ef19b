//! The channels that a reply to SETUP gives a track (RFC 2326, 10.12 and 12.39).
ghost use Rattle.std.specs.Prelude.{◌≡◌, IfOk};
ghost use Rattle.std.specs.List.{list_any};
ghost use Rattle.std.specs.Option.{option_copied};
ghost use Rattle.base_syntax.specs.Quotes.{rest_parts};
ghost use Rattle.rtsp_client.specs.ReplyChannels.{channels_by, channels_of, has_interleaved, is_parameter, pair_by};

use base_syntax::{cut, cut_unquoted, is_same_name, trim};
use std::alloc::{AllocError, Global};
use transport_header::{ChannelPair, Protocol, Spec, read_transport};

/// Why the channels that a server gives a track can't be used.
#[derive(Clone, Copy, Debug, PartialEq, Eq, Drop)]
pub enum ChannelFault {
    /// It gives the track no channels of the connection: its transport isn't RTP/AVP/TCP, or it names none.
    NotInterleaved,
    /// It has an `interleaved` that can't be read.
    Unreadable,
    /// The two are the same, or another track has one of them.
    OfAnotherTrack,
}

/// The channels that a reply to SETUP names.
#[derive(Clone, Copy, Debug, PartialEq, Eq, Drop)]
pub enum ReplyChannels {
    /// None: those that were asked for.
    AsAsked,
    /// These. `interleaved=a` names a and a + 1.
    Given(ChannelPair),
    /// None that can be used.
    Fault(ChannelFault),
}

impl ReplyChannels {
    /// Returns the channels that a reply with this Transport header names. Of several transports the first counts.
    ///
    /// The only error is out of memory.
    pub fn of(alloc: Global, transport: Option<&[u8]>) -> Result<ReplyChannels, AllocError>
        ensures { IfOk result (λ named. named ≡ channels_of (option_copied transport.entry)) }
    {
        let Some(text) = transport else {
            return Ok(ReplyChannels::Fault(ChannelFault::NotInterleaved));
        };
        let specs = read_transport(alloc, text)?;
        Ok(named_by(specs.first().copied(), names_interleaved(text)))
    }

    /// Returns the channels of the track that these were asked for.
    pub(crate) fn pair(self, asked: ChannelPair) -> Result<ChannelPair, ChannelFault>
        ensures { result ≡ pair_by self asked }
    {
        match self {
            ReplyChannels::AsAsked => Ok(asked),
            ReplyChannels::Given(pair) => Ok(pair),
            ReplyChannels::Fault(fault) => Err(fault),
        }
    }
}

/// Returns the channels that a transport names, if it has a parameter `interleaved` or not.
fn named_by(spec: Option<Spec>, has: bool) -> ReplyChannels
    ensures { result ≡ channels_by spec has }
{
    let Some(spec) = spec else {
        return ReplyChannels::Fault(ChannelFault::NotInterleaved);
    };
    match (spec.protocol, spec.interleaved) {
        (Protocol::Other, _) => ReplyChannels::Fault(ChannelFault::NotInterleaved),
        (Protocol::Tcp, Some(pair)) => ReplyChannels::Given(pair),
        (Protocol::Tcp, None) if has => ReplyChannels::Fault(ChannelFault::Unreadable),
        (Protocol::Tcp, None) => ReplyChannels::AsAsked,
    }
}

/// Returns whether the first transport has a parameter `interleaved`, whatever its value.
fn names_interleaved(text: &[u8]) -> bool
    ensures { result ≡ has_interleaved text.now }
{
    let (transport, _) = cut_unquoted(text, b',');
    let (_, parameters) = cut_unquoted(transport, b';');
    has_parameter(parameters, b"interleaved")
}

/// Returns whether one of the parameters has this name.
fn has_parameter(parameters: Option<&[u8]>, name: &[u8]) -> bool
    ensures { result ≡ list_any (is_parameter name.now) (rest_parts 59 (option_copied parameters.entry)) }
{
    let mut rest = parameters;
    while let Some(text) = rest {
        let (part, others) = cut_unquoted(text, b';');
        if is_same_name(trim(cut(trim(part), b'=').0), name) {
            return true;
        }
        rest = others;
    }
    false
}
