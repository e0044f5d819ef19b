//! The sums of each name.
ghost use Rattle.std.specs.Prelude.{◌≡◌, ◌<◌, ◌≤◌, ◌+◌, ◌++◌, ◌∷◌, [], None, Some, length, slice_get, slice_set, take, All, AllPairs, IfErr, IfOk, IfSome, IfNone, IsSomeAnd, OnOk, OnErr};
ghost use Rattle.relay_accounts.specs.Capped.{capped};
ghost use Rattle.mount_series.specs.Sums.{nothing, with_mount, with_player};
ghost use Rattle.mount_series.specs.Series.{HaveOtherNames, IsFirstEnded, IsInPlaceOfFirstEnded, IsRecorded, Series, begun, ended, left, one_more, place_of};

use crate::named_sums::NamedSums;
use crate::sums::MountSums;
use base_syntax::Bytes;
use relay_accounts::{MountTally, SeatAccount};
use std::alloc::{AllocError, Global};
use std::marker::Model;

/// For how many names sums are kept.
pub const MOST_NAMES: usize = 256;

/// Why a name has no sums of its own.
#[derive(Clone, Copy, Debug, PartialEq, Eq, Drop)]
pub enum NoPlace {
    /// There is no memory for it.
    OutOfMemory,
    /// Mounts of 256 other names are recorded.
    AllRecorded,
}

/// The sums of at most 256 names of mounts: of those that are recorded, and of the last to end. The totals are of all names that there
/// ever were.
///
/// Its model has these, and how many mounts have ended.
pub struct MountSeries {
    alloc: Global,
    named: Vec<NamedSums>,
    totals: MountSums,
    ends: u64,
}

impl Model for MountSeries {
    ghost use Rattle.std.specs.Prelude.{◌≤◌, AllPairs, length, vec_capacity};
    ghost use Rattle.mount_series.specs.Series.{HaveOtherNames, Series};

    ghost Value = { Series };

    ghost view = { λ s. record { named = s.named.items; totals = s.totals; ends = s.ends } };

    ghost invariant = { λ s. (length s.named.items ≤ 256) × (256 ≤ vec_capacity s.named) × AllPairs HaveOtherNames s.named.items };
}

impl Drop for MountSeries {
    fn drop(self) {
        let MountSeries {
            alloc: _,
            named: _,
            totals: _,
            ends: _,
        } = self;
    }
}

impl MountSeries {
    /// No mount was recorded. Takes the room for 256 names.
    pub fn new(alloc: Global) -> Result<MountSeries, AllocError>
        ensures { IfOk result (λ series. series ≡ record { named = []; totals = nothing; ends = 0 }) }
    {
        Ok(MountSeries {
            alloc,
            named: Vec::with_capacity(alloc, MOST_NAMES)?,
            totals: MountSums::nothing(),
            ends: 0,
        })
    }

    /// Returns the sums of each name.
    pub fn named(&self) -> &[NamedSums]
        ensures all { result.now ≡ self.now.named }
        ensures most { length result.now ≤ 256 }
        ensures once { AllPairs HaveOtherNames result.now }
    {
        self.named.as_slice()
    }

    /// Returns the sums of all names that there ever were.
    pub fn totals(&self) -> MountSums
        ensures { result ≡ self.now.totals }
    {
        self.totals
    }

    /// A mount of this name is recorded. A name that has no sums yet takes the place of the name whose mounts have ended first, if
    /// there are 256.
    #[tactic(auto, using(crate::proofs::Naming::kept))]
    pub fn begin(&mut self, name: &[u8]) -> Result<(), NoPlace>
        ensures known { IfSome (place_of name.now self.old.named) (λ place. IsSomeAnd (slice_get self.old.named place) (λ sums. self.new.named ≡ slice_set self.old.named place (one_more sums))) }
        ensures added { OnOk result (place_of name.now self.old.named ≡ None → length self.old.named < 256 → self.new.named ≡ self.old.named ++ begun name.now ∷ []) }
        ensures replaced { OnOk result (place_of name.now self.old.named ≡ None → length self.old.named ≡ 256 → IsInPlaceOfFirstEnded self.old.named self.new.named (begun name.now)) }
        ensures refused { OnErr result (self.new ≡ self.old) }
        ensures full { IfErr result (λ why. why ≡ NoPlace.AllRecorded → (length self.old.named ≡ 256) × All IsRecorded self.old.named) }
        ensures totals { self.new.totals ≡ self.old.totals }
        ensures ends { self.new.ends ≡ self.old.ends }
    {
        match place_of(self.named.as_slice(), name) {
            Some(place) => {
                self.named[place].begin();
                Ok(())
            }
            None => self.add(name),
        }
    }

    /// Adds a name that has no sums yet.
    #[tactic(auto, using(crate::proofs::Naming::added, crate::proofs::Naming::replaced))]
    fn add(&mut self, name: &[u8]) -> Result<(), NoPlace>
        requires { place_of name.now self.old.named ≡ None }
        ensures added { OnOk result (length self.old.named < 256 → self.new.named ≡ self.old.named ++ begun name.now ∷ []) }
        ensures replaced { OnOk result (length self.old.named ≡ 256 → IsInPlaceOfFirstEnded self.old.named self.new.named (begun name.now)) }
        ensures refused { OnErr result (self.new ≡ self.old) }
        ensures full { IfErr result (λ why. why ≡ NoPlace.AllRecorded → (length self.old.named ≡ 256) × All IsRecorded self.old.named) }
        ensures totals { self.new.totals ≡ self.old.totals }
        ensures ends { self.new.ends ≡ self.old.ends }
    {
        let name = Bytes::from_slice(self.alloc, name).map_err(|_| NoPlace::OutOfMemory)?;
        let begun = NamedSums::begun(name);
        if self.named.len() < MOST_NAMES {
            self.named.push_reserved(begun);
            return Ok(());
        }
        let place = first_ended(self.named.as_slice()).ok_or(NoPlace::AllRecorded)?;
        self.named[place] = begun;
        Ok(())
    }

    /// A mount of this name has ended, to which this came. Its last packet came at the moment `last`.
    #[tactic(auto, using(crate::proofs::Naming::kept))]
    pub fn end(&mut self, name: &[u8], came: &MountTally, last: u64)
        ensures known { IfSome (place_of name.now self.old.named) (λ place. IsSomeAnd (slice_get self.old.named place) (λ sums. self.new.named ≡ slice_set self.old.named place (ended came.now self.old.ends last sums))) }
        ensures unknown { place_of name.now self.old.named ≡ None → self.new.named ≡ self.old.named }
        ensures totals { self.new.totals ≡ with_mount self.old.totals came.now }
        ensures ends { self.new.ends ≡ capped (self.old.ends + 1) }
    {
        self.totals = self.totals.with_mount(came);
        let before = self.ends;
        self.ends = before.saturating_add(1);
        if let Some(place) = place_of(self.named.as_slice(), name) {
            self.named[place].end(came, before, last);
        }
    }

    /// A player of a mount of this name has left, with this account.
    #[tactic(auto, using(crate::proofs::Naming::kept))]
    pub fn leave(&mut self, name: &[u8], account: SeatAccount)
        ensures known { IfSome (place_of name.now self.old.named) (λ place. IsSomeAnd (slice_get self.old.named place) (λ sums. self.new.named ≡ slice_set self.old.named place (left account sums))) }
        ensures unknown { place_of name.now self.old.named ≡ None → self.new.named ≡ self.old.named }
        ensures totals { self.new.totals ≡ with_player self.old.totals account }
        ensures ends { self.new.ends ≡ self.old.ends }
    {
        self.totals = self.totals.with_player(account);
        if let Some(place) = place_of(self.named.as_slice(), name) {
            self.named[place].leave(account);
        }
    }
}

/// Returns where the sums of a name are. `None` if it has none.
fn place_of(named: &[NamedSums], name: &[u8]) -> Option<usize>
    ensures is { result ≡ place_of name.now named.now }
    ensures within { IfSome result (λ place. place < length named.now) }
{
    named.iter().position(|sums| sums.is_of(name))
}

/// Returns the place of the name whose mounts have all ended, the last of them before those of any other such name. `None` if a mount
/// of each is recorded.
fn first_ended(named: &[NamedSums]) -> Option<usize>
    ensures first { IfSome result (λ place. IsFirstEnded named.now place) }
    ensures within { IfSome result (λ place. place < length named.now) }
    ensures none { IfNone result (All IsRecorded named.now) }
{
    let mut first = None;
    let mut earliest = 0;
    for (place, sums) in named.iter().enumerate() {
        if sums.recorded > 0 {
            continue;
        }
        if first.is_some() && earliest <= sums.ended {
            continue;
        }
        first = Some(place);
        earliest = sums.ended;
    }
    first
}
