//! The URIs of tracks and sessions by their control attributes (RFC 2326, C.1.1).
ghost use Rattle.std.specs.Prelude.{◌≡◌, ◌≤◌, length, IfOk, IfErr};
ghost use Rattle.std.specs.Option.{option_copied};
ghost use Rattle.source_urls.specs.Control as spec;
ghost use Rattle.source_urls.specs.UriText.{IsRequestUri};

use crate::control_fault::ControlFault;
use crate::parts::has_scheme;
use crate::scheme::has_other_scheme;
use crate::uri_text::{has_uri_bytes, is_long, is_slash_last};
use base_syntax::{Bytes, trim};
use std::alloc::{AllocError, Global};

/// Returns the value of a header or of an attribute, without the blanks at its ends, if anything is left.
fn value_of(written: Option<&[u8]>) -> Option<&[u8]>
    ensures { option_copied result ≡ spec.value_of (option_copied written.entry) }
{
    let value = trim(written?);
    match value {
        [] => None,
        [_, ..] => Some(value),
    }
}

/// Returns the base of control attributes: the value of `Content-Base` if the reply to DESCRIBE has one, else that of `Content-Location`,
/// else the URI of the request (RFC 2326, C.1.1). Blanks at the ends of a value are dropped, and nothing but blanks is no value.
pub fn base_of<'a>(
    content_base: Option<&'a [u8]>,
    content_location: Option<&'a [u8]>,
    request: &'a [u8],
) -> &'a [u8]
    ensures { result.now ≡ spec.base_of (option_copied content_base.entry) (option_copied content_location.entry) request.now }
{
    if let Some(base) = value_of(content_base) {
        return base;
    }
    match value_of(content_location) {
        Some(base) => base,
        None => request,
    }
}

/// Returns the base with a relative control behind it.
fn joined(alloc: Global, base: &[u8], control: &[u8]) -> Result<Bytes, AllocError>
    ensures { IfOk result (λ uri. uri ≡ spec.joined base.now control.now) }
{
    let mut uri = Vec::from_slice(alloc, base)?;
    if !is_slash_last(base) {
        uri.push(b'/')?;
    }
    uri.extend_from_slice(control)?;
    Ok(Bytes::new(uri))
}

/// Returns the URI of a control attribute.
#[tactic(auto, unfolding(crate::specs::Control::controlled))]
fn controlled(alloc: Global, base: &[u8], control: &[u8]) -> Result<Bytes, AllocError>
    ensures { IfOk result (λ uri. uri ≡ spec.controlled base.now control.now) }
{
    if has_scheme(b"rtsp://", control) {
        Bytes::from_slice(alloc, control)
    } else if control == b"*".as_slice() {
        Bytes::from_slice(alloc, base)
    } else {
        joined(alloc, base, control)
    }
}

/// Returns what is wrong with a base.
fn base_fault(base: &[u8]) -> Option<ControlFault>
    ensures { result ≡ spec.base_fault base.now }
{
    if base.is_empty() {
        Some(ControlFault::NoBase)
    } else if is_long(base) {
        Some(ControlFault::LongBase)
    } else if !has_uri_bytes(base) {
        Some(ControlFault::BadBase)
    } else {
        None
    }
}

/// Returns what is wrong with a control.
fn text_fault(control: &[u8]) -> Option<ControlFault>
    ensures { result ≡ spec.text_fault control.now }
{
    if is_long(control) {
        Some(ControlFault::LongControl)
    } else if !has_uri_bytes(control) {
        Some(ControlFault::BadControl)
    } else if has_other_scheme(control) {
        Some(ControlFault::OtherScheme)
    } else {
        None
    }
}

/// Returns the first thing that is wrong with a base and a control.
#[tactic(auto, unfolding(crate::specs::Control::control_fault))]
fn control_fault(base: &[u8], control: Option<&[u8]>) -> Option<ControlFault>
    ensures { result ≡ spec.control_fault base.now (option_copied control.entry) }
{
    if let Some(fault) = base_fault(base) {
        return Some(fault);
    }
    text_fault(control?)
}

/// Returns the URI of a control and a base that are accepted.
fn accepted_uri(alloc: Global, base: &[u8], control: Option<&[u8]>) -> Result<Bytes, ControlFault>
    ensures ok { IfOk result (spec.IsControlUri base.now (option_copied control.entry)) }
    ensures err { IfErr result (spec.IsControlFault base.now (option_copied control.entry)) }
{
    let value = value_of(control);
    if let Some(fault) = control_fault(base, value) {
        return Err(fault);
    }
    match value {
        Some(control) => Ok(controlled(alloc, base, control)?),
        None => Ok(Bytes::from_slice(alloc, base)?),
    }
}

/// Returns the URI that a control attribute stands for: of a track that of SETUP, of the session that of PLAY, TEARDOWN and keepalives
/// (RFC 2326, C.1.1). Blanks at the ends of the attribute's value are dropped.
///
/// An absolute control, which begins with `rtsp://` without regard to case, is the URI itself. One of another scheme, as `rtsps://`, is
/// refused. For `*`, a value of nothing but blanks and
/// no attribute it is the base. Any other control is relative: the URI is the base, a slash unless the base ends in one, and the control,
/// with the query of the base in its place.
pub fn control_uri(
    alloc: Global,
    base: &[u8],
    control: Option<&[u8]>,
) -> Result<Bytes, ControlFault>
    ensures ok { IfOk result (spec.IsControlUri base.now (option_copied control.entry)) }
    ensures err { IfErr result (spec.IsControlFault base.now (option_copied control.entry)) }
    ensures uri { IfOk result IsRequestUri }
    ensures short { IfOk result (λ uri. length uri ≤ 4097) }
{
    accepted_uri(alloc, base, control)
}
