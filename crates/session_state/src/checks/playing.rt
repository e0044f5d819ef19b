//! The checks of a PLAY, RECORD, PAUSE or TEARDOWN after that of what it names.
ghost use Rattle.std.specs.Prelude.{◌≡◌, ◌∷◌, [], ℕ, Some, IsSome, true, IfOk, MatchBool, MatchResult};
ghost use Rattle.std.specs.Option.{option_copied};
ghost use Rattle.transport_header.specs.Tracks.{pair_at};
ghost use Rattle.mounts.specs.declared.target.Target.{Target as mounts_Target};
ghost use Rattle.mounts.specs.Mounts.{numbered};
ghost use Rattle.session_state.specs.declared.checks.Check.TheVariants.{FitsState, HasFreeSeat, IsAggregate, IsForPlaying, IsForRecording, NamesAStream};
ghost use Rattle.session_state.specs.Asking.{IsNamedInSession, IsPassing, IsRefusedAt, is_in_session, needs_mount};
ghost use Rattle.mounts.specs.declared.uri.Uri.TheVariants.{At};
ghost use Rattle.mounts.specs.Uri.{IsUri};

use crate::checks::asking::Asking;
use crate::checks::named_session::SessionNames;
use crate::checks::{Check, Refusal};
use crate::method::Method;
use crate::session::{Session, State};
use mounts::Target;
use std::alloc::Global;
use transport_header::{MOST_TRACKS, TrackChannels};

/// Whether no other track than this one is set up.
fn is_only(channels: &TrackChannels, track: usize) -> bool
    ensures { MatchBool result
        ((other : ℕ) → IsSome (pair_at channels.now other) → other ≡ track)
        (((other : ℕ) → IsSome (pair_at channels.now other) → other ≡ track) → ⊥) }
{
    for other in 0..MOST_TRACKS {
        if channels.pair_of(other).is_some() && other != track {
            return false;
        }
    }
    true
}

impl<'a> Asking<'a> {
    /// What a request of such a method names of the session, where the session's state fits it.
    pub(crate) fn in_session(
        &self,
        alloc: Global,
        method: Method,
        target: &Target,
    ) -> Result<SessionNames<'a>, Refusal>
        requires method { is_in_session method ≡ true }
        requires uri { IsUri self.now.request.now.uri (At target.now) }
        ensures named { MatchResult result
            (λ named. IsNamedInSession self.now target.now named.session.now named.track × IsPassing self.now (NamesAStream method ∷ FitsState method ∷ []))
            (IsRefusedAt self.now (NamesAStream method ∷ FitsState method ∷ [])) }
        ensures live { IfOk result (λ named. needs_mount method ≡ true → IsSome (numbered named.session.now.mount self.now.mounts.now.mounts)) }
    {
        let named = self.named_in_session(alloc, method, target)?;
        self.in_fitting_state(method)?;
        Ok(named)
    }

    /// Refuses a request that names a track where the session has others too.
    pub(crate) fn on_all_tracks(&self, named: SessionNames<'_>) -> Result<(), Refusal>
        requires { (target : mounts_Target) × IsNamedInSession self.now target named.session.now named.track }
        ensures { MatchResult result (λ _. IsPassing self.now (IsAggregate ∷ [])) (IsRefusedAt self.now (IsAggregate ∷ [])) }
    {
        let Some(track) = named.track else {
            return Ok(());
        };
        if is_only(&named.session.channels, track) {
            Ok(())
        } else {
            Err(Refusal::Fails(Check::IsAggregate))
        }
    }

    /// Refuses a PLAY of a recording session.
    pub(crate) fn for_playing(&self, session: &Session) -> Result<(), Refusal>
        requires { option_copied self.now.session ≡ Some session.now }
        ensures { MatchResult result (λ _. IsPassing self.now (IsForPlaying ∷ [])) (IsRefusedAt self.now (IsForPlaying ∷ [])) }
    {
        if session.recording {
            Err(Refusal::Fails(Check::IsForPlaying))
        } else {
            Ok(())
        }
    }

    /// Refuses a RECORD of a session that isn't for recording.
    pub(crate) fn for_recording(&self, session: &Session) -> Result<(), Refusal>
        requires { option_copied self.now.session ≡ Some session.now }
        ensures { MatchResult result (λ _. IsPassing self.now (IsForRecording ∷ [])) (IsRefusedAt self.now (IsForRecording ∷ [])) }
    {
        if session.recording {
            Ok(())
        } else {
            Err(Refusal::Fails(Check::IsForRecording))
        }
    }

    /// Refuses a PLAY that begins to play where no seat of the session's mount is free.
    pub(crate) fn with_free_seat(&self, session: &Session) -> Result<(), Refusal>
        requires has { option_copied self.now.session ≡ Some session.now }
        requires live { IsSome (numbered session.now.mount self.now.mounts.now.mounts) }
        ensures { MatchResult result (λ _. IsPassing self.now (HasFreeSeat ∷ [])) (IsRefusedAt self.now (HasFreeSeat ∷ [])) }
    {
        if session.state != State::Ready {
            return Ok(());
        }
        match self.mounts.numbered(session.mount) {
            Some(mount) => {
                if mount.seats.has_free() {
                    Ok(())
                } else {
                    Err(Refusal::Fails(Check::HasFreeSeat))
                }
            }
            None => Err(Refusal::Fails(Check::HasFreeSeat)),
        }
    }
}
