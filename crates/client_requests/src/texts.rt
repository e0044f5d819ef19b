//! The texts that a client makes for its requests.
ghost use Rattle.std.specs.Prelude.{◌≡◌, IfOk};
ghost use Rattle.client_requests.specs.Requests.{given_uri, made_transport, made_uri, mode_text, track_in, track_uri, transport_text};

use crate::places::Places;
use base_syntax::Bytes;
use itoa::Buffer;
use rtsp_client::{Ask, Asked, Method, Side};
use std::alloc::{AllocError, Global};
use transport_header::ChannelPair;

/// Returns the parameter by which a target is asked to record (RFC 2326, 12.39).
fn mode(side: Side) -> &'static [u8]
    ensures { result.now ≡ mode_text side }
{
    match side {
        Side::Source => b"",
        Side::Target => b";mode=record",
    }
}

/// Returns the value of Transport of a track on these channels. The only error is out of memory.
fn transport(alloc: Global, side: Side, channels: ChannelPair) -> Result<Bytes, AllocError>
    ensures { IfOk result (λ text. text ≡ transport_text side channels) }
{
    let mut digits = Buffer::new();
    let mut text = Vec::from_slice(alloc, b"RTP/AVP/TCP;unicast;interleaved=")?;
    text.extend_from_slice(digits.format(channels.first).as_bytes())?;
    text.extend_from_slice(b"-")?;
    text.extend_from_slice(digits.format(channels.second).as_bytes())?;
    text.extend_from_slice(mode(side))?;
    Ok(Bytes::new(text))
}

/// Returns the value of Transport of a request, which is empty if it isn't SETUP. The only error is out of memory.
pub(crate) fn transport_of(alloc: Global, ask: &Ask) -> Result<Bytes, AllocError>
    ensures { IfOk result (λ text. text ≡ made_transport ask.now) }
{
    match ask.method {
        Method::SetUp { channels, .. } => transport(alloc, ask.asked.side(), channels),
        _ => Ok(Bytes::empty(alloc)),
    }
}

/// Returns the URI of a track of a mount. The only error is out of memory.
fn track_uri(alloc: Global, mount: &[u8], track: usize) -> Result<Bytes, AllocError>
    ensures { IfOk result (λ uri. uri ≡ track_uri mount.now track) }
{
    let mut digits = Buffer::new();
    let mut uri = Vec::from_slice(alloc, mount)?;
    uri.extend_from_slice(b"/trackID=")?;
    uri.extend_from_slice(digits.format(track).as_bytes())?;
    Ok(Bytes::new(uri))
}

/// Returns the track that a request sets up, and 0 if it isn't SETUP.
fn track_in(method: Method) -> usize
    ensures { result ≡ track_in method }
{
    match method {
        Method::SetUp { track, .. } => track,
        _ => 0,
    }
}

/// Returns the URI of a request to set up a track of the target. `None` if the request is another one. The only error is out of memory.
pub(crate) fn made_uri(alloc: Global, ask: &Ask, target: &[u8]) -> Result<Option<Bytes>, AllocError>
    ensures { IfOk result (λ made. made ≡ made_uri ask.now.asked (track_in ask.now.method) target.now) }
{
    match ask.asked {
        Asked::SetUpTarget => Ok(Some(track_uri(alloc, target, track_in(ask.method))?)),
        _ => Ok(None),
    }
}

/// Returns the place that a request goes to. SETUP at the target goes to a track below it.
pub(crate) fn given_uri<'a>(asked: Asked, places: Places<'a>) -> &'a [u8]
    ensures { result.now ≡ given_uri asked places.entry }
{
    match asked {
        Asked::Options | Asked::Describe => places.source,
        Asked::SetUp => places.track,
        Asked::Play | Asked::KeepAlive(Side::Source) | Asked::TearDown(Side::Source) =>
            places.session,
        Asked::Announce
        | Asked::SetUpTarget
        | Asked::Record
        | Asked::KeepAlive(Side::Target)
        | Asked::TearDown(Side::Target) => places.target,
    }
}
