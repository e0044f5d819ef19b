//! The checks of any request: its number, its version, its method, what it requires and its URI. They look at nothing but the
//! request.
ghost use Rattle.std.specs.Prelude.{◌≡◌, ◌∷◌, [], None, Some, IfOk, IfSome, MatchBool, MatchResult};
ghost use Rattle.mounts.specs.Uri.{IsUri};
ghost use Rattle.session_state.specs.declared.checks.Check.TheVariants.{HasCSeq, HasVersion, HasMethod, HasUri, RequiresNothing};
ghost use Rattle.session_state.specs.declared.method.Method.{Method};
ghost use Rattle.session_state.specs.Asking.{IsPassing, IsRefusedAt};
ghost use Rattle.session_state.specs.Checks.{MayBeAsked};
ghost use Rattle.session_state.specs.Methods.{method_of};
ghost use Rattle.session_state.specs.WellAsked.{IsPassingAlone, IsRefusedAlone, IsWellAsked, first_checks};

use crate::checks::asking::Asking;
use crate::checks::{Check, Refusal};
use crate::method::{Method, read_method};
use mounts::{Uri, UriFault, read_uri};
use rtsp_message::Request;
use std::alloc::{AllocError, Global};

/// Whether a method may be asked of what a URI names: `*` only of the server itself.
fn may_be_asked(method: Method, uri: &Uri) -> bool
    ensures { MatchBool result (MayBeAsked method uri.now) (MayBeAsked method uri.now → ⊥) }
{
    match uri {
        Uri::At(_) => true,
        Uri::Star => match method {
            Method::Options => true,
            Method::GetParameter => true,
            _ => false,
        },
    }
}

/// The method of a request that has a number and the right version.
fn method_in(request: &Request) -> Result<Method, Refusal>
    ensures { MatchResult result
        (λ method. (method_of request.now.method ≡ Some method) × IsPassingAlone request.now (HasCSeq ∷ HasVersion ∷ HasMethod ∷ []))
        (IsRefusedAlone request.now (HasCSeq ∷ HasVersion ∷ HasMethod ∷ [])) }
{
    if request.cseq.is_none() {
        return Err(Refusal::Fails(Check::HasCSeq));
    }
    if request.version.as_slice() != b"RTSP/1.0".as_slice() {
        return Err(Refusal::Fails(Check::HasVersion));
    }
    match read_method(request.method.as_slice()) {
        Some(method) => Ok(method),
        None => Err(Refusal::Fails(Check::HasMethod)),
    }
}

/// What the URI of a request of this method names, if the request requires nothing.
fn uri_in(alloc: Global, request: &Request, method: Method) -> Result<Uri, Refusal>
    ensures { MatchResult result
        (λ uri. IsUri request.now.uri uri × MayBeAsked method uri × IsPassingAlone request.now (RequiresNothing ∷ HasUri method ∷ []))
        (IsRefusedAlone request.now (RequiresNothing ∷ HasUri method ∷ [])) }
{
    if request.header(b"Require").is_some() {
        return Err(Refusal::Fails(Check::RequiresNothing));
    }
    match read_uri(alloc, request.uri.as_slice()) {
        Ok(uri) => {
            if may_be_asked(method, &uri) {
                Ok(uri)
            } else {
                Err(Refusal::Fails(Check::HasUri(method)))
            }
        }
        Err(UriFault::BadUri) => Err(Refusal::Fails(Check::HasUri(method))),
        Err(UriFault::OutOfMemory) => Err(Refusal::OutOfMemory),
    }
}

/// The method of a request that passes the first checks.
fn well_asked_method(alloc: Global, request: &Request) -> Result<Method, Refusal>
    ensures { MatchResult result
        (λ method. IsWellAsked request.now method)
        (IsRefusedAlone request.now (first_checks (method_of request.now.method))) }
{
    let method = method_in(request)?;
    uri_in(alloc, request, method)?;
    Ok(method)
}

/// The method of a request that passes the checks which look at nothing but the request: its number, version, method, Require
/// and URI. `None` for any other request, which `World::decide` refuses by the first of these checks that it doesn't pass. The
/// only error is out of memory.
pub fn sound_method(alloc: Global, request: &Request) -> Result<Option<Method>, AllocError>
    ensures sound { IfOk result (λ found. IfSome found (λ method. IsWellAsked request.now method)) }
    ensures unsound { IfOk result (λ found. found ≡ None → (method : Method) → IsWellAsked request.now method → ⊥) }
{
    match well_asked_method(alloc, request) {
        Ok(method) => Ok(Some(method)),
        Err(Refusal::Fails(_)) => Ok(None),
        Err(Refusal::OutOfMemory) => Err(AllocError),
    }
}

impl Asking<'_> {
    /// The method of the request.
    pub(crate) fn method(&self) -> Result<Method, Refusal>
        ensures { MatchResult result
            (λ method. (method_of self.now.request.now.method ≡ Some method) × IsPassing self.now (HasCSeq ∷ HasVersion ∷ HasMethod ∷ []))
            (IsRefusedAt self.now (HasCSeq ∷ HasVersion ∷ HasMethod ∷ [])) }
    {
        method_in(self.request)
    }

    /// What the URI of a request of this method names.
    pub(crate) fn uri(&self, alloc: Global, method: Method) -> Result<Uri, Refusal>
        ensures { MatchResult result
            (λ uri. IsUri self.now.request.now.uri uri × MayBeAsked method uri × IsPassing self.now (RequiresNothing ∷ HasUri method ∷ []))
            (IsRefusedAt self.now (RequiresNothing ∷ HasUri method ∷ [])) }
    {
        uri_in(alloc, self.request, method)
    }
}
