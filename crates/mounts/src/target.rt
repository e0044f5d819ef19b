//! What an absolute request URI names (RFC 2326, 3.2).
ghost use Rattle.std.specs.Prelude.{◌≡◌, MatchBool, MatchResult, IfOk};
ghost use Rattle.mounts.specs.Uri.{IsRooted, IsRtspUrl, IsTarget, IsTargetRefusal, IsUrlRefusal, base_text as base_of, ends_in_slash as ends_with_slash, path_of, resource_text as without_query, without_end_slash};

use crate::fault::UriFault;
use base_syntax::{Bytes, cut};
use std::alloc::{AllocError, Global};
use url::Url;

/// What an absolute request URI names.
#[derive(Drop)]
pub struct Target {
    /// The URL's path without its first slash and without one slash at its end, as `url` gives it.
    pub path: Bytes,
    /// The URL's query, as `url` gives it.
    pub query: Option<Bytes>,
    /// The URI's text without query and fragment, and with a slash at its end: the base of relative URLs (C.1.1).
    pub base: Bytes,
}

fn ends_in_slash(text: &[u8]) -> bool
    ensures { result ≡ ends_with_slash text.now }
{
    !text.is_empty() && text[text.len() - 1] == b'/'
}

/// The text of a URI without its query and its fragment.
pub fn resource_text(text: &[u8]) -> &[u8]
    ensures { result.now ≡ without_query text.now }
{
    let (before_fragment, _) = cut(text, b'#');
    let (resource, _) = cut(before_fragment, b'?');
    resource
}

/// The text of a URI without its query and its fragment, and with a slash at its end.
fn base_text(alloc: Global, text: &[u8]) -> Result<Bytes, AllocError>
    ensures { IfOk result (λ base. base ≡ base_of text.now) }
{
    let resource = resource_text(text);
    let mut base = Vec::with_capacity(alloc, resource.len().saturating_add(1))?;
    base.extend_from_slice(resource)?;
    if !ends_in_slash(resource) {
        base.push(b'/')?;
    }
    Ok(Bytes::new(base))
}

/// Whether a path is empty or begins with a slash.
fn is_rooted(path: &[u8]) -> bool
    ensures { MatchBool result (IsRooted path.now) (IsRooted path.now → ⊥) }
{
    path.is_empty() || path[0] == b'/'
}

/// The URL that a text is, where its scheme is `rtsp` and its path is empty or begins with a slash.
pub(crate) fn read_url(alloc: Global, text: &[u8]) -> Result<Url, UriFault>
    ensures { MatchResult result (IsRtspUrl text.now) (IsUrlRefusal text.now) }
{
    let Ok(text) = str::from_utf8(text) else {
        return Err(UriFault::BadUri);
    };
    let url = Url::parse(alloc, text)?;
    if url.scheme() != "rtsp" {
        return Err(UriFault::BadUri);
    }
    if !is_rooted(url.path().as_bytes()) {
        return Err(UriFault::BadUri);
    }
    Ok(url)
}

/// The path of such a URL, without its first slash and without one slash at its end.
pub(crate) fn path_of_url(url: &Url) -> &[u8]
    ensures { result.now ≡ path_of url.now }
{
    let path = url.path().as_bytes();
    let rest = if path.is_empty() { path } else { &path[1..] };
    if ends_in_slash(rest) {
        &rest[..rest.len() - 1]
    } else {
        rest
    }
}

/// Reads an absolute request URI.
pub(crate) fn read_target(alloc: Global, text: &[u8]) -> Result<Target, UriFault>
    ensures { MatchResult result (IsTarget text.now) (IsTargetRefusal text.now) }
{
    let url = read_url(alloc, text)?;
    let query = match url.query() {
        Some(query) => Some(Bytes::from_slice(alloc, query.as_bytes())?),
        None => None,
    };
    Ok(Target {
        path: Bytes::from_slice(alloc, path_of_url(&url))?,
        query,
        base: base_text(alloc, text)?,
    })
}
