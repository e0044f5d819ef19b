//! An ANNOUNCE's own checks: its path, its Content-Type, its body, and whether one more mount may be made.
ghost use Rattle.std.specs.Prelude.{◌≡◌, ◌∷◌, [], MatchBool, MatchResult};
ghost use Rattle.sdp.specs.Readings.{Reads};
ghost use Rattle.mounts.specs.declared.uri.Uri.TheVariants.{At};
ghost use Rattle.mounts.specs.Mounts.{HasRoom};
ghost use Rattle.mounts.specs.Uri.{IsUri};
ghost use Rattle.session_state.specs.declared.checks.Check.TheVariants.{MayAnnounce, HasFewTracks, HasRoomForMount, HasSdpType, IsDescription};
ghost use Rattle.session_state.specs.Asking.{IsPassing, IsRefusedAt, asked_in, refusal_for as refusal_of};
ghost use Rattle.session_state.specs.Checks.{IsFreeName};
ghost use Rattle.session_state.specs.History.{History};

use crate::checks::asking::Asking;
use crate::checks::fields::is_sdp;
use crate::checks::{Check, Refusal};
use mounts::{Target, ends_in_track, is_name};
use sdp::{Description, SdpFault};
use std::alloc::Global;

/// How a body is refused that is no description.
fn refusal_for(fault: SdpFault) -> Refusal
    ensures { result ≡ refusal_of fault }
{
    match fault {
        SdpFault::TooManyTracks => Refusal::Fails(Check::HasFewTracks),
        SdpFault::OutOfMemory => Refusal::OutOfMemory,
        _ => Refusal::Fails(Check::IsDescription),
    }
}

impl Asking<'_> {
    /// Whether the connection owns no mount, and the URI's path is a name that is free.
    fn is_free_name(&self, target: &Target) -> bool
        requires { IsUri self.now.request.now.uri (At target.now) }
        ensures { MatchBool result
            ((history : History) → IsFreeName (asked_in self.now history) target.now)
            ((history : History) → IsFreeName (asked_in self.now history) target.now → ⊥) }
    {
        let path = target.path.as_slice();
        self.mounts.owned_by(self.conn).is_none()
            && is_name(path)
            && !ends_in_track(path)
            && self.mounts.named(path).is_none()
    }

    /// Refuses an ANNOUNCE whose path is no name for a mount of this connection.
    pub(crate) fn with_free_name(&self, target: &Target) -> Result<(), Refusal>
        requires { IsUri self.now.request.now.uri (At target.now) }
        ensures { MatchResult result (λ _. (history : History) → IsFreeName (asked_in self.now history) target.now) (IsRefusedAt self.now (MayAnnounce ∷ [])) }
    {
        if self.is_free_name(target) {
            Ok(())
        } else {
            Err(Refusal::Fails(Check::MayAnnounce))
        }
    }

    /// Refuses an ANNOUNCE whose Content-Type isn't that of descriptions.
    pub(crate) fn with_sdp_type(&self) -> Result<(), Refusal>
        ensures { MatchResult result (λ _. IsPassing self.now (HasSdpType ∷ [])) (IsRefusedAt self.now (HasSdpType ∷ [])) }
    {
        let Some(text) = self.request.header(b"Content-Type") else {
            return Ok(());
        };
        if is_sdp(text.as_slice()) {
            Ok(())
        } else {
            Err(Refusal::Fails(Check::HasSdpType))
        }
    }

    /// The description that the body of an ANNOUNCE is.
    pub(crate) fn description(&self, alloc: Global) -> Result<Description, Refusal>
        ensures { MatchResult result (Reads self.now.request.now.body) (IsRefusedAt self.now (IsDescription ∷ HasFewTracks ∷ [])) }
    {
        match sdp::read(alloc, self.request.body.as_slice()) {
            Ok(description) => Ok(description),
            Err(fault) => Err(refusal_for(fault)),
        }
    }

    /// Refuses an ANNOUNCE where no more mounts may be made.
    pub(crate) fn with_room_for_mount(&self) -> Result<(), Refusal>
        ensures { MatchResult result (λ _. HasRoom self.now.mounts.now) (IsRefusedAt self.now (HasRoomForMount ∷ [])) }
    {
        if self.mounts.has_room() {
            Ok(())
        } else {
            Err(Refusal::Fails(Check::HasRoomForMount))
        }
    }
}
