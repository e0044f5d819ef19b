//! The checks of a request by its connection's session: that it names the session, and comes in a state that it fits.
ghost use Rattle.std.specs.Prelude.{◌≡◌, ◌∷◌, [], Some, IfOk, MatchBool, MatchResult};
ghost use Rattle.std.specs.Option.{option_copied};
ghost use Rattle.session_state.specs.declared.checks.Check.TheVariants.{HasItsSession, FitsState};
ghost use Rattle.session_state.specs.Asking.{IsPassing, IsRefusedAt, asked_in};
ghost use Rattle.session_state.specs.Checks.{NamesItsSession, NamesSession, NeedsSession, fits as fits_state, state_in};
ghost use Rattle.session_state.specs.History.{History};

use crate::checks::asking::Asking;
use crate::checks::{Check, Refusal};
use crate::method::Method;
use crate::session::{Session, State};
use std::alloc::{AllocError, Global};
use transport_header::{put_session, read_session};

/// Whether a request of this method needs a Session field.
fn needs_session(method: Method, session: Option<&Session>) -> bool
    ensures { MatchBool result (NeedsSession method (option_copied session.entry)) (NeedsSession method (option_copied session.entry) → ⊥) }
{
    match method {
        Method::Play => true,
        Method::Record => true,
        Method::Pause => true,
        Method::Teardown => true,
        Method::Setup => session.is_some(),
        _ => false,
    }
}

/// Whether the value of a Session field names a session.
fn names_session(alloc: Global, text: &[u8], session: &Session) -> Result<bool, AllocError>
    ensures { IfOk result (λ names. MatchBool names (NamesSession text.now (Some session.now)) (NamesSession text.now (Some session.now) → ⊥)) }
{
    let mut identifier = Vec::new(alloc);
    put_session(&mut identifier, session.number, session.word)?;
    Ok(read_session(text) == identifier.as_slice())
}

/// Whether a method is allowed in a state, or without a session (RFC 2326, A.2).
fn fits(method: Method, state: Option<State>) -> bool
    ensures { result ≡ fits_state method state }
{
    match method {
        Method::Setup => match state {
            None => true,
            Some(State::Ready) => true,
            _ => false,
        },
        Method::Announce => state.is_none(),
        Method::Play => match state {
            Some(State::Ready) => true,
            Some(State::Playing { .. }) => true,
            _ => false,
        },
        Method::Record => match state {
            Some(State::Ready) => true,
            Some(State::Recording) => true,
            _ => false,
        },
        Method::Pause => match state {
            Some(State::Playing { .. }) => true,
            Some(State::Recording) => true,
            _ => false,
        },
        _ => true,
    }
}

impl Asking<'_> {
    /// Whether the Session field names the connection's session, and stands where a request of this method needs it.
    fn names_its_session(&self, alloc: Global, method: Method) -> Result<bool, AllocError>
        ensures { IfOk result (λ names. MatchBool names
            ((history : History) → NamesItsSession (asked_in self.now history) method)
            ((history : History) → NamesItsSession (asked_in self.now history) method → ⊥)) }
    {
        let Some(text) = self.request.header(b"Session") else {
            return Ok(!needs_session(method, self.session));
        };
        match self.session {
            Some(session) => names_session(alloc, text.as_slice(), session),
            None => Ok(false),
        }
    }

    /// The state of the connection's session.
    fn state(&self) -> Option<State>
        ensures { result ≡ state_in (option_copied self.now.session) }
    {
        match self.session {
            Some(session) => Some(session.state),
            None => None,
        }
    }

    /// Refuses a request that doesn't name its connection's session.
    pub(crate) fn in_its_session(&self, alloc: Global, method: Method) -> Result<(), Refusal>
        ensures { MatchResult result (λ _. IsPassing self.now (HasItsSession method ∷ [])) (IsRefusedAt self.now (HasItsSession method ∷ [])) }
    {
        if self.names_its_session(alloc, method)? {
            Ok(())
        } else {
            Err(Refusal::Fails(Check::HasItsSession(method)))
        }
    }

    /// Refuses a request whose method isn't allowed in the session's state.
    pub(crate) fn in_fitting_state(&self, method: Method) -> Result<(), Refusal>
        ensures { MatchResult result (λ _. IsPassing self.now (FitsState method ∷ [])) (IsRefusedAt self.now (FitsState method ∷ [])) }
    {
        if fits(method, self.state()) {
            Ok(())
        } else {
            Err(Refusal::Fails(Check::FitsState(method)))
        }
    }
}
