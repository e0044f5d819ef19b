//! The parts of a URL as it is written.
ghost use Rattle.std.specs.Prelude.{◌≡◌, ◌≤◌, length, take, drop};
ghost use Rattle.std.specs.Option.{option_copied};
ghost use Rattle.source_urls.specs.Parts as spec;

use base_syntax::{cut, is_same_name};

/// The length of `rtsp://`, in bytes.
const SCHEME_LEN: usize = 7;

/// Returns a text up to this many bytes.
fn front(text: &[u8], len: usize) -> &[u8]
    ensures { result.now ≡ take len text.now }
{
    if len < text.len() { &text[..len] } else { text }
}

/// Returns a text after this many bytes.
fn back(text: &[u8], len: usize) -> &[u8]
    ensures { result.now ≡ drop len text.now }
{
    if len < text.len() { &text[len..] } else { b"" }
}

/// Returns true if a text begins with this scheme, without regard to case.
pub(crate) fn has_scheme(scheme: &[u8], text: &[u8]) -> bool
    ensures { result ≡ spec.has_scheme scheme.now text.now }
{
    is_same_name(front(text, scheme.len()), scheme)
}

/// Returns `rtsp://` as it is written.
pub(crate) fn scheme_part(text: &[u8]) -> &[u8]
    ensures { result.now ≡ spec.scheme_part text.now }
{
    front(text, SCHEME_LEN)
}

/// Returns what is between `rtsp://` and the fragment.
#[tactic(auto, unfolding(crate::specs::Parts::resource))]
fn resource(text: &[u8]) -> &[u8]
    ensures { result.now ≡ spec.resource text.now }
{
    cut(back(text, SCHEME_LEN), b'#').0
}

/// Returns the fragment, if there is one.
#[tactic(auto, unfolding(crate::specs::Parts::fragment))]
pub(crate) fn fragment(text: &[u8]) -> Option<&[u8]>
    ensures { option_copied result ≡ spec.fragment text.now }
{
    cut(back(text, SCHEME_LEN), b'#').1
}

/// Returns the user, the host and the port as they are written.
#[tactic(auto, unfolding(crate::specs::Parts::location))]
fn location(text: &[u8]) -> &[u8]
    ensures { result.now ≡ spec.location text.now }
{
    let (before_slash, _) = cut(resource(text), b'/');
    let (location, _) = cut(before_slash, b'?');
    location
}

/// Returns the path and the query as they are written.
#[tactic(auto, unfolding(crate::specs::Parts::rest))]
pub(crate) fn rest(text: &[u8]) -> &[u8]
    ensures { result.now ≡ spec.rest text.now }
{
    back(resource(text), location(text).len())
}

/// Returns the user as it is written, with a password if there is one.
#[tactic(auto, unfolding(crate::specs::Parts::user))]
pub(crate) fn user(text: &[u8]) -> Option<&[u8]>
    ensures { option_copied result ≡ spec.user text.now }
{
    let (user, behind) = cut(location(text), b'@');
    behind.is_some().then_some(user)
}

/// Returns true if the user has a password.
#[tactic(auto, unfolding(crate::specs::Parts::has_password))]
pub(crate) fn has_password(text: &[u8]) -> bool
    ensures { result ≡ spec.has_password text.now }
{
    match user(text) {
        Some(user) => user.contains(&b':'),
        None => false,
    }
}

/// Returns the host and the port as they are written.
#[tactic(auto, unfolding(crate::specs::Parts::address))]
fn address(text: &[u8]) -> &[u8]
    ensures { result.now ≡ spec.address text.now }
{
    let location = location(text);
    match cut(location, b'@').1 {
        Some(address) => address,
        None => location,
    }
}

/// Returns true if a text begins with a bracket.
pub(crate) fn has_bracket(text: &[u8]) -> bool
    ensures { result ≡ spec.has_bracket text.now }
{
    !text.is_empty() && text[0] == b'['
}

/// Returns the host of an address as it is written.
fn host_in(address: &[u8]) -> &[u8]
    ensures { result.now ≡ spec.host_in address.now }
{
    if has_bracket(address) {
        front(address, cut(address, b']').0.len().saturating_add(1))
    } else {
        cut(address, b':').0
    }
}

/// Returns the host as it is written.
#[tactic(auto, unfolding(crate::specs::Parts::host))]
pub(crate) fn host(text: &[u8]) -> &[u8]
    ensures { result.now ≡ spec.host text.now }
{
    host_in(address(text))
}

/// Returns the port with its colon as it is written.
#[tactic(auto, unfolding(crate::specs::Parts::port))]
pub(crate) fn port(text: &[u8]) -> &[u8]
    ensures { result.now ≡ spec.port text.now }
{
    back(address(text), host(text).len())
}

/// Returns true if an `@` is in a text.
fn has_at(text: &[u8]) -> bool
    ensures { result ≡ spec.has_at text.now }
{
    text.contains(&b'@')
}

/// Returns true if an `@` is in the fragment.
fn fragment_has_at(fragment: Option<&[u8]>) -> bool
    ensures { result ≡ spec.fragment_has_at (option_copied fragment.entry) }
{
    match fragment {
        Some(fragment) => has_at(fragment),
        None => false,
    }
}

/// Returns true if what is before a later `@` may be meant as a user and a password: there is no user, and a colon is behind the host.
#[tactic(auto, unfolding(crate::specs::Parts::can_have_password))]
pub(crate) fn can_have_password(text: &[u8]) -> bool
    ensures { result ≡ spec.can_have_password text.now }
{
    user(text).is_none()
        && !port(text).is_empty()
        && (has_at(rest(text)) || fragment_has_at(fragment(text)))
}
