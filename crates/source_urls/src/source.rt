//! Sources: URLs of streams that an operator wants to be fetched (RFC 2326, 3.2).
ghost use Rattle.std.specs.Prelude.{◌≡◌, IfOk, IfErr};
ghost use Rattle.std.specs.Option.{option_copied, option_map};
ghost use Rattle.percent_encoding.specs.Percent.{percent_decode as decoded};
ghost use Rattle.source_urls.specs.Grammar.{IsSource};
ghost use Rattle.source_urls.specs.UriText.{IsRequestUri};
ghost use Rattle.source_urls.specs.Source.{IsReadAs, IsSourceFault, accepted_port, front_fault, request_uri, scheme_fault};

use crate::fault::UrlFault;
use crate::host::{bare_host, is_host};
use crate::parts::{
    can_have_password, has_password, has_scheme, host, port, rest, scheme_part, user,
};
use crate::port::port_number;
use crate::uri_text::{has_uri_bytes, is_long};
use base_syntax::Bytes;
use percent_encoding::percent_decode;
use std::alloc::{AllocError, Global};

/// The source of a stream: `rtsp://[user@]host[:port]/path[?query][#fragment]`.
#[derive(Debug, Drop)]
pub struct Source {
    /// The user's name, decoded (RFC 3986, 2.1).
    pub user: Option<Bytes>,
    /// The host to connect to, without brackets: a name, or the text of an address.
    pub host: Bytes,
    /// The port to connect to, 1 to 65,535. 554 if the URL has none.
    pub port: u16,
    /// The URI of requests: the URL as it is written, without the user and the fragment.
    pub uri: Bytes,
}

/// Returns what is wrong with a scheme other than `rtsp`.
fn scheme_fault(text: &[u8]) -> UrlFault
    ensures { result ≡ scheme_fault text.now }
{
    if has_scheme(b"rtsps://", text) {
        UrlFault::SecureScheme
    } else {
        UrlFault::OtherScheme
    }
}

/// Returns what is wrong with a URL before its port is looked at.
#[tactic(auto, unfolding(crate::specs::Source::front_fault))]
fn front_fault(text: &[u8]) -> Option<UrlFault>
    ensures { result ≡ front_fault text.now }
{
    if is_long(text) {
        Some(UrlFault::TooLong)
    } else if !has_uri_bytes(text) {
        Some(UrlFault::BadByte)
    } else if !has_scheme(b"rtsp://", text) {
        Some(scheme_fault(text))
    } else if has_password(text) {
        Some(UrlFault::HasPassword)
    } else if can_have_password(text) {
        Some(UrlFault::UnencodedPassword)
    } else if !is_host(host(text)) {
        Some(UrlFault::BadHost)
    } else {
        None
    }
}

/// Returns the port of a URL that is accepted, or the first thing that is wrong with it.
#[tactic(auto, unfolding(crate::specs::Source::accepted_port))]
pub(crate) fn accepted_port(text: &[u8]) -> Result<u16, UrlFault>
    ensures { result ≡ accepted_port text.now }
{
    if let Some(fault) = front_fault(text) {
        return Err(fault);
    }
    match port_number(port(text)) {
        Some(number) => Ok(number),
        None => Err(UrlFault::BadPort),
    }
}

/// Returns the URI of requests.
#[tactic(auto, unfolding(crate::specs::Source::request_uri))]
fn request_uri(alloc: Global, text: &[u8]) -> Result<Bytes, AllocError>
    ensures { IfOk result (λ uri. uri ≡ request_uri text.now) }
{
    let mut uri = Vec::with_capacity(alloc, text.len())?;
    uri.extend_from_slice(scheme_part(text))?;
    uri.extend_from_slice(host(text))?;
    uri.extend_from_slice(port(text))?;
    uri.extend_from_slice(rest(text))?;
    Ok(Bytes::new(uri))
}

/// Returns the user's name, decoded.
fn decoded_name(alloc: Global, user: &[u8]) -> Result<Bytes, AllocError>
    ensures { IfOk result (λ name. name ≡ decoded user.now) }
{
    let mut name = Vec::new(alloc);
    percent_decode(user).append_to(&mut name)?;
    Ok(Bytes::new(name))
}

/// Returns the user's name, decoded, if there is one.
fn user_name(alloc: Global, user: Option<&[u8]>) -> Result<Option<Bytes>, AllocError>
    ensures { IfOk result (λ name. name ≡ option_map decoded (option_copied user.entry)) }
{
    match user {
        Some(user) => Ok(Some(decoded_name(alloc, user)?)),
        None => Ok(None),
    }
}

/// Returns the source of a URL that is accepted.
fn source_of(alloc: Global, text: &[u8]) -> Result<Source, UrlFault>
    ensures ok { IfOk result (IsReadAs text.now) }
    ensures err { IfErr result (IsSourceFault text.now) }
{
    let port = accepted_port(text)?;
    Ok(Source {
        user: user_name(alloc, user(text))?,
        host: Bytes::from_slice(alloc, bare_host(host(text)))?,
        port,
        uri: request_uri(alloc, text)?,
    })
}

/// Reads a source. The faults are `TooLong` to `BadPort` and `OutOfMemory`; the first one that applies is reported.
pub fn read_source(alloc: Global, text: &[u8]) -> Result<Source, UrlFault>
    ensures ok { IfOk result (IsSource text.now) }
    ensures err { IfErr result (IsSourceFault text.now) }
    ensures uri { IfOk result (λ source. IsRequestUri source.uri) }
{
    source_of(alloc, text)
}
