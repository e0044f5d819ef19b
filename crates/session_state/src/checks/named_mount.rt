//! Which mount, and which track of it, the URI of a DESCRIBE or a SETUP names.
ghost use Rattle.std.specs.Prelude.{◌≡◌, ◌∷◌, [], ℕ, List, Option, Some, IsSome, IfOk, IfErr, MatchBool, MatchOption, MatchResult};
ghost use Rattle.std.specs.Option.{option_copied};
ghost use Rattle.mounts.specs.declared.mount.Mount.{Mount as mounts_Mount};
ghost use Rattle.mounts.specs.declared.uri.Uri.TheVariants.{At};
ghost use Rattle.mounts.specs.Mounts.{IsSound, numbered};
ghost use Rattle.mounts.specs.Uri.{IsUri};
ghost use Rattle.session_state.specs.declared.checks.Check.TheVariants.{NamesAStream};
ghost use Rattle.session_state.specs.declared.method.Method.TheVariants.{Describe, Setup};
ghost use Rattle.session_state.specs.declared.session.Session.{Session};
ghost use Rattle.session_state.specs.Asking.{IsNamedForSetup, IsPassing, IsRefusedAt, asked_in};
ghost use Rattle.session_state.specs.Checks.{NamesMount};
ghost use Rattle.session_state.specs.History.{History};
ghost use Rattle.session_state.specs.Streams.{IsSetUpOn};

use crate::checks::asking::Asking;
use crate::checks::{Check, Refusal};
use crate::method::Method;
use mounts::{Mount, Target, rest_after};
use std::alloc::Global;

/// What the URI of a SETUP names: a mount, and a track of it, if it names one.
#[derive(Clone, Copy)]
pub(crate) struct SetupNames<'a> {
    pub mount: &'a Mount,
    pub track: Option<usize>,
}

impl<'a> Asking<'a> {
    /// The number of the mount that a DESCRIBE names.
    pub(crate) fn described(&self, target: &Target) -> Result<u64, Refusal>
        requires sound { IsSound self.now.mounts.now }
        requires uri { IsUri self.now.request.now.uri (At target.now) }
        ensures names { IfOk result (λ number. (mount : mounts_Mount) × ((history : History) → NamesMount (asked_in self.now history) target.now mount) × (mount.number ≡ number)) }
        ensures there { IfOk result (λ number. IsSome (numbered number self.now.mounts.now.mounts)) }
        ensures fails { IfErr result (IsRefusedAt self.now (NamesAStream Describe ∷ [])) }
    {
        match self.mounts.named(target.path.as_slice()) {
            Some(mount) => Ok(mount.number),
            None => Err(Refusal::Fails(Check::NamesAStream(Method::Describe))),
        }
    }

    /// The mount that the path of a SETUP names, by its number, and what the path says after its name: the connection's own
    /// mount, else the one that the path finds.
    fn set_up_on<'b>(&self, path: &'b [u8]) -> Option<(u64, Option<&'b [u8]>)>
        ensures { MatchOption result
            ((number : ℕ) (rest : Option (List ℕ)) → IsSetUpOn self.now.mounts.now.mounts self.now.conn path.now number rest → ⊥)
            (λ found. IsSetUpOn self.now.mounts.now.mounts self.now.conn path.now found.0 (option_copied found.1)) }
    {
        if let Some(own) = self.mounts.owned_by(self.conn) {
            if let Some(rest) = rest_after(path, own.name.as_slice()) {
                return Some((own.number, rest));
            }
        }
        self.mounts.find(path)
    }

    /// Whether a mount is that of the session, where there is one.
    fn is_of_session(&self, number: u64) -> bool
        ensures { MatchBool result
            ((session : Session) → option_copied self.now.session ≡ Some session → session.mount ≡ number)
            (((session : Session) → option_copied self.now.session ≡ Some session → session.mount ≡ number) → ⊥) }
    {
        match self.session {
            Some(session) => session.mount == number,
            None => true,
        }
    }

    /// What a SETUP names.
    pub(crate) fn named_for_setup(
        &self,
        alloc: Global,
        target: &Target,
    ) -> Result<SetupNames<'a>, Refusal>
        requires sound { IsSound self.now.mounts.now }
        requires uri { IsUri self.now.request.now.uri (At target.now) }
        ensures { MatchResult result (λ named. IsNamedForSetup self.now target.now named.mount.now named.track) (IsRefusedAt self.now (NamesAStream Setup ∷ [])) }
    {
        let nothing = Refusal::Fails(Check::NamesAStream(Method::Setup));
        let Some((number, rest)) = self.set_up_on(target.path.as_slice()) else {
            return Err(nothing);
        };
        let Some(mount) = self.mounts.numbered(number) else {
            return Err(nothing);
        };
        if !self.is_of_session(number) {
            return Err(nothing);
        }
        let Some(rest) = rest else {
            return Ok(SetupNames { mount, track: None });
        };
        match mount.track(alloc, self.conn, target, rest)? {
            Some(track) => Ok(SetupNames {
                mount,
                track: Some(track),
            }),
            None => Err(nothing),
        }
    }
}
