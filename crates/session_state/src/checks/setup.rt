//! A SETUP's own checks, after that of what it names: its track, its Transport field, and a number for a session that begins.
ghost use Rattle.std.specs.Prelude.{◌≡◌, ◌≤◌, ◌<◌, ◌-◌, ◌^◌, ◌⊎◌, ◌∷◌, [], ℕ, List, Option, None, Some, IsSome, IfSome, IfNone, true, length, codes, MatchBool, MatchResult, ◌↔◌};
ghost use Rattle.std.specs.Option.{option_copied};
ghost use Rattle.transport_header.specs.declared.spec.Spec.{Spec as transport_Spec};
ghost use Rattle.transport_header.specs.Chosen.{IsFirstAcceptable};
ghost use Rattle.transport_header.specs.Transport.{specs_of};
ghost use Rattle.mounts.specs.declared.mount.Mount.{Mount as mounts_Mount};
ghost use Rattle.mounts.specs.declared.target.Target.{Target};
ghost use Rattle.mounts.specs.Mounts.{owned_by};
ghost use Rattle.rtsp_message.specs.Headers.{value_of};
ghost use Rattle.session_state.specs.declared.checks.Check.TheVariants.{HasRoomForSession, HasTransport, MayRecord, NamesATrack, OwnsNoOther};
ghost use Rattle.session_state.specs.Asking.{IsDelivery, IsNamedForSetup, IsPassing, IsRefusedAt, IsTheTrack};
ghost use Rattle.session_state.specs.Streams.{SetsUp};

use crate::checks::asking::Asking;
use crate::checks::named_mount::SetupNames;
use crate::checks::{Check, Refusal};
use base_syntax::Items;
use mounts::Mount;
use std::alloc::Global;
use transport_header::{Channels, Spec, choose, read_transport};

/// The delivery that a Transport field asks for: its specs, and whether the first acceptable one asks to record.
#[derive(Drop)]
pub(crate) struct Delivery {
    pub specs: Items<Spec>,
    pub recording: bool,
}

/// The track that is set up: the one that is named, or the only one that there is.
fn the_track(mount: &Mount, named: Option<usize>) -> Option<usize>
    ensures few { length mount.now.description.tracks ≤ 16 }
    ensures some { IfSome result (IsTheTrack mount.now named) }
    ensures none { IfNone result ((track : ℕ) → IsTheTrack mount.now named track → ⊥) }
{
    let count = mount.description.tracks().len();
    match named {
        Some(track) => Some(track),
        None => { if count == 1 { Some(0) } else { None } }
    }
}

impl Asking<'_> {
    /// Whether the connection owns no mount but the one of this number.
    fn owns_no_other(&self, number: u64) -> bool
        ensures { MatchBool result
            ((own : mounts_Mount) → owned_by self.now.conn self.now.mounts.now.mounts ≡ Some own → own.number ≡ number)
            (((own : mounts_Mount) → owned_by self.now.conn self.now.mounts.now.mounts ≡ Some own → own.number ≡ number) → ⊥) }
    {
        match self.mounts.owned_by(self.conn) {
            Some(own) => own.number == number,
            None => true,
        }
    }

    /// The track that a SETUP sets up.
    pub(crate) fn track_to_set_up(&self, named: SetupNames<'_>) -> Result<usize, Refusal>
        requires { (target : Target) × IsNamedForSetup self.now target named.mount.now named.track }
        ensures { MatchResult result
            (λ track. SetsUp self.now.mounts.now.mounts self.now.conn self.now.request.now.uri named.entry.mount.now track × (track < 16) × IsPassing self.now (OwnsNoOther ∷ NamesATrack ∷ []))
            (IsRefusedAt self.now (OwnsNoOther ∷ NamesATrack ∷ [])) }
    {
        if !self.owns_no_other(named.mount.number) {
            return Err(Refusal::Fails(Check::OwnsNoOther));
        }
        match the_track(named.mount, named.track) {
            Some(track) => Ok(track),
            None => Err(Refusal::Fails(Check::NamesATrack)),
        }
    }

    /// The delivery that the Transport field asks for.
    fn delivery(&self, alloc: Global) -> Result<Delivery, Refusal>
        ensures { MatchResult result (IsDelivery self.now) (IsRefusedAt self.now (HasTransport ∷ [])) }
    {
        let Some(text) = self.request.header(b"Transport") else {
            return Err(Refusal::Fails(Check::HasTransport));
        };
        let specs = read_transport(alloc, text.as_slice())?;
        let Some(chosen) = choose(specs.as_slice(), &Channels::new()) else {
            return Err(Refusal::Fails(Check::HasTransport));
        };
        Ok(Delivery {
            specs: Items::new(specs),
            recording: chosen.recording,
        })
    }

    /// The specs of the Transport field of a SETUP of this mount.
    pub(crate) fn specs_for(
        &self,
        alloc: Global,
        named: SetupNames<'_>,
    ) -> Result<Items<Spec>, Refusal>
        requires { (target : Target) × IsNamedForSetup self.now target named.mount.now named.track }
        ensures { MatchResult result
            (λ specs. ((text : List ℕ) × (value_of self.now.request.now.headers (codes "Transport") ≡ Some text) × (specs ≡ specs_of text))
            × ((spec : transport_Spec) × IsFirstAcceptable specs spec) × IsPassing self.now (HasTransport ∷ MayRecord ∷ []))
            (IsRefusedAt self.now (HasTransport ∷ MayRecord ∷ [])) }
    {
        let delivery = self.delivery(alloc)?;
        if delivery.recording && named.mount.owner != self.conn {
            return Err(Refusal::Fails(Check::MayRecord));
        }
        Ok(delivery.specs)
    }

    /// Refuses a SETUP that begins a session where the numbers are used up.
    pub(crate) fn with_number_for_session(&self) -> Result<(), Refusal>
        ensures { MatchResult result (λ _. IsSome (option_copied self.now.session) ⊎ (self.now.begun < 2 ^ 32 - 1)) (IsRefusedAt self.now (HasRoomForSession ∷ [])) }
    {
        if self.session.is_some() || self.begun < u32::MAX {
            Ok(())
        } else {
            Err(Refusal::Fails(Check::HasRoomForSession))
        }
    }
}
