//! What the URI of a PLAY, RECORD, PAUSE or TEARDOWN names of the connection's session.
ghost use Rattle.std.specs.Prelude.{◌≡◌, ◌∷◌, [], ℕ, List, Some, Option, IsSome, true, false, IfOk, MatchOption, MatchResult};
ghost use Rattle.std.specs.Option.{option_copied};
ghost use Rattle.mounts.specs.declared.uri.Uri.TheVariants.{At};
ghost use Rattle.mounts.specs.Mounts.{numbered};
ghost use Rattle.mounts.specs.Names.{GoesOn};
ghost use Rattle.mounts.specs.Uri.{IsUri};
ghost use Rattle.session_state.specs.declared.checks.Check.TheVariants.{NamesAStream};
ghost use Rattle.session_state.specs.Asking.{IsNamedInSession, IsRefusedAt, IsToldBy, IsTrackNamed, asked_in, is_in_session, needs_mount as needs_live_mount};
ghost use Rattle.session_state.specs.Checks.{NamesOfSession};
ghost use Rattle.session_state.specs.History.{History};

use crate::checks::asking::Asking;
use crate::checks::{Check, Refusal};
use crate::method::Method;
use crate::session::Session;
use mounts::{Target, rest_after, track_number};
use std::alloc::{AllocError, Global};
use transport_header::MOST_TRACKS;

/// What a URI names of the connection's session: its mount, or this track of it.
#[derive(Clone, Copy)]
pub(crate) struct SessionNames<'a> {
    pub session: &'a Session,
    pub track: Option<usize>,
}

/// What stands in a path after a name and a slash.
fn rest_behind<'a>(path: &'a [u8], name: &[u8]) -> Option<&'a [u8]>
    ensures { MatchOption result ((rest : List ℕ) → GoesOn path.now name.now (Some rest) → ⊥) (λ rest. GoesOn path.now name.now (Some rest.now)) }
{
    match rest_after(path, name) {
        Some(rest) => rest,
        None => None,
    }
}

/// Whether a method needs the session's mount to live.
fn needs_mount(method: Method) -> bool
    ensures { result ≡ needs_live_mount method }
{
    match method {
        Method::Play => true,
        Method::Record => true,
        _ => false,
    }
}

impl<'a> Asking<'a> {
    /// The track that a playing session has set up and a path names: by the control that players are given.
    fn played_track(&self, session: &Session, target: &Target) -> Option<usize>
        requires { session.now.recording ≡ false }
        ensures { IsTrackNamed self.now session.now target.now result }
    {
        let rest = rest_behind(target.path.as_slice(), session.name.as_slice())?;
        // No track is set up past the last.
        let track = track_number(rest, MOST_TRACKS).unwrap_or(MOST_TRACKS);
        if session.channels.pair_of(track).is_none() {
            return None;
        }
        Some(track)
    }

    /// The track that a recording session has set up and a URI names: by what its mount was announced with.
    fn recorded_track(
        &self,
        alloc: Global,
        session: &Session,
        target: &Target,
    ) -> Result<Option<usize>, AllocError>
        requires has { option_copied self.now.session ≡ Some session.now }
        requires recording { session.now.recording ≡ true }
        ensures { IfOk result (IsTrackNamed self.now session.now target.now) }
    {
        let Some(mount) = self.mounts.numbered(session.mount) else {
            return Ok(None);
        };
        let Some(rest) = rest_behind(target.path.as_slice(), mount.name.as_slice()) else {
            return Ok(None);
        };
        let Some(track) = mount.track(alloc, mount.owner, target, rest)? else {
            return Ok(None);
        };
        if session.channels.pair_of(track).is_none() {
            return Ok(None);
        }
        Ok(Some(track))
    }

    /// The track that the session has set up and a URI names.
    fn set_up_track(
        &self,
        alloc: Global,
        session: &Session,
        target: &Target,
    ) -> Result<Option<usize>, AllocError>
        requires { option_copied self.now.session ≡ Some session.now }
        ensures { IfOk result (IsTrackNamed self.now session.now target.now) }
    {
        if session.recording {
            self.recorded_track(alloc, session, target)
        } else {
            Ok(self.played_track(session, target))
        }
    }

    /// What a URI names of the connection's session, if it names anything of it.
    fn named_of_session(
        &self,
        alloc: Global,
        session: &'a Session,
        target: &Target,
    ) -> Result<Option<SessionNames<'a>>, AllocError>
        requires { option_copied self.now.session ≡ Some session.now }
        ensures { IfOk result (λ found. MatchOption found
            ((history : History) → IsToldBy history self.now → (track : Option ℕ) → NamesOfSession (asked_in self.now history) session.now target.now track → ⊥)
            (λ named. (named.session.now ≡ session.now)
            × ((history : History) → IsToldBy history self.now → NamesOfSession (asked_in self.now history) session.now target.now named.track)
            × ((history : History) → IsToldBy history self.now → (other : Option ℕ) → NamesOfSession (asked_in self.now history) session.now target.now other → other ≡ named.track))) }
    {
        if target.path.as_slice() == session.name.as_slice() {
            return Ok(Some(SessionNames {
                session,
                track: None,
            }));
        }
        match self.set_up_track(alloc, session, target)? {
            Some(track) => Ok(Some(SessionNames {
                session,
                track: Some(track),
            })),
            None => Ok(None),
        }
    }

    /// What a request of such a method names of its connection's session.
    pub(crate) fn named_in_session(
        &self,
        alloc: Global,
        method: Method,
        target: &Target,
    ) -> Result<SessionNames<'a>, Refusal>
        requires method { is_in_session method ≡ true }
        requires uri { IsUri self.now.request.now.uri (At target.now) }
        ensures named { MatchResult result (λ named. IsNamedInSession self.now target.now named.session.now named.track) (IsRefusedAt self.now (NamesAStream method ∷ [])) }
        ensures live { IfOk result (λ named. needs_live_mount method ≡ true → IsSome (numbered named.session.now.mount self.now.mounts.now.mounts)) }
    {
        let nothing = Refusal::Fails(Check::NamesAStream(method));
        let Some(session) = self.session else {
            return Err(nothing);
        };
        let Some(named) = self.named_of_session(alloc, session, target)? else {
            return Err(nothing);
        };
        if needs_mount(method) && self.mounts.numbered(session.mount).is_none() {
            return Err(nothing);
        }
        Ok(named)
    }
}
