//! The checks of a request, by its method, in the order that `specs/Checks.antt` defines.
ghost use Rattle.std.specs.Prelude.{◌≡◌, ◌∷◌, [], Err, IfOk, MatchResult};
ghost use Rattle.mounts.specs.declared.uri.Uri.TheVariants.{At, Star};
ghost use Rattle.mounts.specs.Mounts.{IsSound};
ghost use Rattle.mounts.specs.Uri.{IsUri};
ghost use Rattle.session_state.specs.declared.checks.Check.TheVariants.{AcceptsSdp, HasItsSession, HasNoBody, HasUri, RequiresNothing};
ghost use Rattle.session_state.specs.declared.method.Method.TheVariants.{Options, Describe, Announce, Setup, Play, Pause, Record, Teardown, GetParameter};
ghost use Rattle.session_state.specs.Asking.{IsAcceptedAs, IsChecked, IsPassing, IsRefusedAt, later_checks};
ghost use Rattle.session_state.specs.Checks.{MayBeAsked, checks_of};
ghost use Rattle.session_state.specs.Methods.{method_of};

use crate::checks::asking::Asking;
use crate::checks::fields::accepts_sdp;
use crate::checks::{Accepted, Check, Refusal};
use crate::method::Method;
use crate::world::World;
use mounts::{Target, Uri};
use rtsp_message::Request;
use std::alloc::Global;

impl Asking<'_> {
    /// What the URI of a request names, where its Session field is right.
    fn target(&self, alloc: Global, method: Method) -> Result<Target, Refusal>
        requires { MayBeAsked method Star → ⊥ }
        ensures { MatchResult result
            (λ target. IsUri self.now.request.now.uri (At target) × IsPassing self.now (RequiresNothing ∷ HasUri method ∷ HasItsSession method ∷ []))
            (IsRefusedAt self.now (RequiresNothing ∷ HasUri method ∷ HasItsSession method ∷ [])) }
    {
        let uri = self.uri(alloc, method)?;
        self.in_its_session(alloc, method)?;
        match uri {
            Uri::At(target) => Ok(target),
            Uri::Star => Err(Refusal::Fails(Check::HasUri(method))),
        }
    }

    /// Refuses a DESCRIBE whose Accept field has no descriptions in it.
    fn accepting_sdp(&self) -> Result<(), Refusal>
        ensures { MatchResult result (λ _. IsPassing self.now (AcceptsSdp ∷ [])) (IsRefusedAt self.now (AcceptsSdp ∷ [])) }
    {
        let Some(text) = self.request.header(b"Accept") else {
            return Ok(());
        };
        if accepts_sdp(text.as_slice()) {
            Ok(())
        } else {
            Err(Refusal::Fails(Check::AcceptsSdp))
        }
    }

    /// Refuses a GET_PARAMETER that asks for parameters.
    fn without_body(&self) -> Result<(), Refusal>
        ensures { MatchResult result (λ _. IsPassing self.now (HasNoBody ∷ [])) (IsRefusedAt self.now (HasNoBody ∷ [])) }
    {
        if self.request.body.is_empty() {
            Ok(())
        } else {
            Err(Refusal::Fails(Check::HasNoBody))
        }
    }

    fn options(&self, alloc: Global) -> Result<Accepted, Refusal>
        ensures { MatchResult result (IsAcceptedAs self.now Options) (IsRefusedAt self.now (later_checks Options)) }
    {
        self.uri(alloc, Method::Options)?;
        self.in_its_session(alloc, Method::Options)?;
        Ok(Accepted::Options)
    }

    fn get_parameter(&self, alloc: Global) -> Result<Accepted, Refusal>
        ensures { MatchResult result (IsAcceptedAs self.now GetParameter) (IsRefusedAt self.now (later_checks GetParameter)) }
    {
        self.uri(alloc, Method::GetParameter)?;
        self.in_its_session(alloc, Method::GetParameter)?;
        self.without_body()?;
        Ok(Accepted::GetParameter)
    }

    fn describe(&self, alloc: Global) -> Result<Accepted, Refusal>
        requires { IsSound self.now.mounts.now }
        ensures { MatchResult result (IsAcceptedAs self.now Describe) (IsRefusedAt self.now (later_checks Describe)) }
    {
        let target = self.target(alloc, Method::Describe)?;
        let mount = self.described(&target)?;
        self.accepting_sdp()?;
        Ok(Accepted::Describe { target, mount })
    }

    fn announce(&self, alloc: Global) -> Result<Accepted, Refusal>
        ensures { MatchResult result (IsAcceptedAs self.now Announce) (IsRefusedAt self.now (later_checks Announce)) }
    {
        let target = self.target(alloc, Method::Announce)?;
        self.in_fitting_state(Method::Announce)?;
        self.with_free_name(&target)?;
        self.with_sdp_type()?;
        let description = self.description(alloc)?;
        self.with_room_for_mount()?;
        Ok(Accepted::Announce {
            target,
            description,
        })
    }

    fn set_up(&self, alloc: Global) -> Result<Accepted, Refusal>
        requires { IsSound self.now.mounts.now }
        ensures { MatchResult result (IsAcceptedAs self.now Setup) (IsRefusedAt self.now (later_checks Setup)) }
    {
        let target = self.target(alloc, Method::Setup)?;
        let named = self.named_for_setup(alloc, &target)?;
        self.in_fitting_state(Method::Setup)?;
        let track = self.track_to_set_up(named)?;
        let specs = self.specs_for(alloc, named)?;
        self.with_number_for_session()?;
        Ok(Accepted::Setup {
            mount: named.mount.number,
            track,
            specs,
        })
    }

    fn play(&self, alloc: Global) -> Result<Accepted, Refusal>
        ensures { MatchResult result (IsAcceptedAs self.now Play) (IsRefusedAt self.now (later_checks Play)) }
    {
        let target = self.target(alloc, Method::Play)?;
        let named = self.in_session(alloc, Method::Play, &target)?;
        self.for_playing(named.session)?;
        self.on_all_tracks(named)?;
        self.with_free_seat(named.session)?;
        Ok(Accepted::Play {
            target,
            track: named.track,
        })
    }

    fn record(&self, alloc: Global) -> Result<Accepted, Refusal>
        ensures { MatchResult result (IsAcceptedAs self.now Record) (IsRefusedAt self.now (later_checks Record)) }
    {
        let target = self.target(alloc, Method::Record)?;
        let named = self.in_session(alloc, Method::Record, &target)?;
        self.for_recording(named.session)?;
        self.on_all_tracks(named)?;
        Ok(Accepted::Record)
    }

    fn pause(&self, alloc: Global) -> Result<Accepted, Refusal>
        ensures { MatchResult result (IsAcceptedAs self.now Pause) (IsRefusedAt self.now (later_checks Pause)) }
    {
        let target = self.target(alloc, Method::Pause)?;
        let named = self.in_session(alloc, Method::Pause, &target)?;
        self.on_all_tracks(named)?;
        Ok(Accepted::Pause)
    }

    fn teardown(&self, alloc: Global) -> Result<Accepted, Refusal>
        ensures { MatchResult result (IsAcceptedAs self.now Teardown) (IsRefusedAt self.now (later_checks Teardown)) }
    {
        let target = self.target(alloc, Method::Teardown)?;
        let named = self.in_session(alloc, Method::Teardown, &target)?;
        self.on_all_tracks(named)?;
        Ok(Accepted::Teardown)
    }

    /// What a request of a method asks for, where it passes the checks of that method.
    fn by_method(&self, alloc: Global, method: Method) -> Result<Accepted, Refusal>
        requires { IsSound self.now.mounts.now }
        ensures { MatchResult result (IsAcceptedAs self.now method) (IsRefusedAt self.now (later_checks method)) }
    {
        match method {
            Method::Options => self.options(alloc),
            Method::Describe => self.describe(alloc),
            Method::Announce => self.announce(alloc),
            Method::Setup => self.set_up(alloc),
            Method::Play => self.play(alloc),
            Method::Pause => self.pause(alloc),
            Method::Record => self.record(alloc),
            Method::Teardown => self.teardown(alloc),
            Method::GetParameter => self.get_parameter(alloc),
        }
    }

    /// What a request asks for, where it passes all its checks.
    fn checked(&self, alloc: Global) -> Result<Accepted, Refusal>
        requires { IsSound self.now.mounts.now }
        ensures { MatchResult result (IsChecked self.now) (IsRefusedAt self.now (checks_of (method_of self.now.request.now.method))) }
    {
        let method = self.method()?;
        self.by_method(alloc, method)
    }
}

impl World {
    ghost use Rattle.session_state.specs.declared.checks.Check.{Check as checks_Check};
    ghost use Rattle.session_state.specs.declared.checks.refusal.Refusal.TheVariants.{Fails};
    ghost use Rattle.session_state.specs.Checks.{FailsFirst};
    ghost use Rattle.session_state.specs.History.{History};
    ghost use Rattle.session_state.specs.Judged.{IsFine, IsThere, asked_of};
    ghost use Rattle.session_state.specs.Legal.{IsLegal};
    ghost use Rattle.session_state.specs.Stands.{Stands};

    /// Whether a request of an open connection passes all its checks, in order, and what they find out.
    pub(crate) fn check(
        &self,
        alloc: Global,
        conn: u64,
        request: &Request,
    ) -> Result<Accepted, Refusal>
        ensures fine { IfOk result (λ accepted. (history : History) → IsLegal self.now.mounts.seats history → Stands history self.now
            → IsFine (asked_of self.now history conn request.now) accepted) }
        ensures there { IfOk result (λ accepted. IsThere self.now conn accepted) }
        ensures fails { (check : checks_Check) → result ≡ Err (Fails check) → (history : History) → IsLegal self.now.mounts.seats history → Stands history self.now
            → FailsFirst (asked_of self.now history conn request.now) (checks_of (method_of request.now.method)) check }
    {
        // Only `live` promises that no two mounts share a number, a name or an owner, which `checked` asks for; its list
        // isn't used.
        self.mounts.live();
        let asking = Asking {
            request,
            conn,
            session: self.session_of(conn),
            mounts: &self.mounts,
            begun: self.begun,
        };
        asking.checked(alloc)
    }
}
