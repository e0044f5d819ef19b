//! Targets: URLs under which a stream is published (RFC 2326, 3.2 and 10.3).
ghost use Rattle.std.specs.Prelude.{◌≡◌, IfOk, IfErr};
ghost use Rattle.source_urls.specs.Grammar.{IsTarget};
ghost use Rattle.source_urls.specs.UriText.{IsRequestUri};
ghost use Rattle.source_urls.specs.Target.{IsReadAs, IsTargetFault, has_query, path_fault, target_fault, target_port};

use crate::fault::UrlFault;
use crate::host::bare_host;
use crate::parts::{fragment, host, rest, user};
use crate::source::accepted_port;
use crate::uri_text::is_slash_last;
use base_syntax::Bytes;
use std::alloc::Global;

/// The target of a stream: `rtsp://host[:port]/path`.
#[derive(Debug, Drop)]
pub struct Target {
    /// The host to connect to, without brackets: a name, or the text of an address.
    pub host: Bytes,
    /// The port to connect to, 1 to 65,535. 554 if the URL has none.
    pub port: u16,
    /// The URI of requests: the URL as it is written.
    pub uri: Bytes,
}

/// Returns true if a path is followed by a query.
fn has_query(rest: &[u8]) -> bool
    ensures { result ≡ has_query rest.now }
{
    rest.contains(&b'?')
}

/// Returns what is wrong with the path of a target.
fn path_fault(path: &[u8]) -> Option<UrlFault>
    ensures { result ≡ path_fault path.now }
{
    if path.len() <= 1 {
        Some(UrlFault::NoPath)
    } else if is_slash_last(path) {
        Some(UrlFault::ClosingSlash)
    } else {
        None
    }
}

/// Returns what a URL has that a source can have and a target can't.
#[tactic(auto, unfolding(crate::specs::Target::target_fault))]
fn target_fault(text: &[u8]) -> Option<UrlFault>
    ensures { result ≡ target_fault text.now }
{
    if user(text).is_some() {
        Some(UrlFault::HasUser)
    } else if fragment(text).is_some() {
        Some(UrlFault::HasFragment)
    } else if has_query(rest(text)) {
        Some(UrlFault::HasQuery)
    } else {
        path_fault(rest(text))
    }
}

/// Returns the port of a target that is accepted, or the first thing that is wrong with it.
#[tactic(auto, unfolding(crate::specs::Target::target_port))]
fn target_port(text: &[u8]) -> Result<u16, UrlFault>
    ensures { result ≡ target_port text.now }
{
    let port = accepted_port(text)?;
    match target_fault(text) {
        Some(fault) => Err(fault),
        None => Ok(port),
    }
}

/// Returns the target of a URL that is accepted.
fn target_of(alloc: Global, text: &[u8]) -> Result<Target, UrlFault>
    ensures ok { IfOk result (IsReadAs text.now) }
    ensures err { IfErr result (IsTargetFault text.now) }
{
    let port = target_port(text)?;
    Ok(Target {
        host: Bytes::from_slice(alloc, bare_host(host(text)))?,
        port,
        uri: Bytes::from_slice(alloc, text)?,
    })
}

/// Reads a target. The first fault that applies is reported, in the order of `UrlFault`.
pub fn read_target(alloc: Global, text: &[u8]) -> Result<Target, UrlFault>
    ensures ok { IfOk result (IsTarget text.now) }
    ensures err { IfErr result (IsTargetFault text.now) }
    ensures uri { IfOk result (λ target. IsRequestUri target.uri) }
{
    target_of(alloc, text)
}
