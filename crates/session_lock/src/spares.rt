//! The spare passes of the mounts that live.
ghost use Rattle.std.specs.Prelude.{◌≡◌, ◌<◌, ◌≤◌, ◌+◌, ◌^◌, ◌∷◌, ◌++◌, [], None, Some, OnOk, position, ◌==◌, if◌then◌else◌};
ghost use Rattle.std.specs.Prelude.{vec_len, vec_capacity};
ghost use Rattle.std.specs.Option.{option_map};
ghost use Rattle.session_state.specs.declared.method.Method.TheVariants as methods;
ghost use Rattle.session_state.specs.Streams.{is_end};
ghost use Rattle.session_lock.specs.Held.{IsOutOf};
ghost use Rattle.session_lock.specs.Requests.{CanBegin, back_after, pass_after, passes_after};
ghost use Rattle.session_lock.specs.Spares.{handed_out, left_by, of_number, of_owner, out_count, out_of, pass_at, with_pass, without};

use crate::passes::Passes;
use session_state::{Act, Method};
use std::alloc::{AllocError, Global};
use std::marker::Model;

/// The spare passes of a mount.
#[derive(Drop)]
pub struct MountPasses<P> {
    /// The mount's number.
    pub number: u64,
    /// The connection that announced it.
    pub owner: u64,
    pub passes: Passes<P>,
}

/// The spare passes of the mounts that live.
pub(crate) struct Spares<P> {
    mounts: Vec<MountPasses<P>>,
    // How many seats of these mounts are out.
    out: usize,
}

impl<P> Model for Spares<P> {
    ghost use Rattle.std.specs.Prelude.{◌-◌, vec_capacity, vec_len};
    ghost use Rattle.session_lock.specs.Held.{Held, IsHeld};

    ghost Value = { Held P };

    ghost view = { λ s. record { mounts = s.mounts.items; room = vec_capacity s.mounts - vec_len s.mounts } };

    ghost invariant = { λ s. IsHeld s.mounts.items s.out };
}

impl<P: Drop> Drop for Spares<P> {
    fn drop(self) {
        let Spares { mounts: _, out: _ } = self;
    }
}

impl<P: Drop> Spares<P> {
    /// No mount. Takes no memory.
    pub(crate) fn new(alloc: Global) -> Spares<P>
        ensures { result.mounts ≡ [] }
    {
        Spares {
            mounts: Vec::new(alloc),
            out: 0,
        }
    }

    /// How many seats are out.
    pub(crate) fn count_out(&self) -> usize
        ensures { result ≡ out_count self.now.mounts }
    {
        self.out
    }

    /// Makes room for one mount more.
    pub(crate) fn reserve(&mut self) -> Result<(), AllocError>
        ensures ok { OnOk result (0 < self.new.room) }
        ensures kept { self.new.mounts ≡ self.old.mounts }
    {
        self.mounts.reserve(1)
    }

    /// Adds a mount, none of whose seats is out, in room that was made for it. Takes no memory.
    pub(crate) fn begin(&mut self, one: MountPasses<P>)
        requires room { 0 < self.old.room }
        requires number { of_number one.number self.old.mounts ≡ None }
        requires owner { of_owner one.owner self.old.mounts ≡ None }
        requires free { out_of one ≡ 0 }
        ensures added { self.new.mounts ≡ self.old.mounts ++ one ∷ [] }
        ensures out { out_count self.new.mounts ≡ out_count self.old.mounts }
    {
        self.mounts.push(one).unwrap();
    }

    /// Drops the passes of the mount that a connection owns, if it owns one. Takes no memory.
    pub(crate) fn end_of(&mut self, owner: u64)
        ensures dropped { self.new.mounts ≡ without owner self.old.mounts }
        ensures out { out_count self.new.mounts ≤ out_count self.old.mounts }
    {
        if let Some(place) = place_owned_by(self.mounts.as_slice(), owner) {
            self.out -= self.mounts[place].passes.count_out();
            self.mounts.remove(place);
        }
    }

    /// Drops the passes of the mount that ends with its owner's session, by the act: `End` ends it. Takes no memory.
    pub(crate) fn end_with(&mut self, owner: u64, act: Act)
        ensures dropped { self.new.mounts ≡ (if is_end act then without owner self.old.mounts else self.old.mounts) }
        ensures out { out_count self.new.mounts ≤ out_count self.old.mounts }
    {
        if act == Act::End {
            self.end_of(owner);
        }
    }

    /// Takes the pass of a seat away. `None` where the seat is out, or isn't there. Takes no memory.
    pub(crate) fn take(&mut self, number: u64, seat: usize) -> Option<P>
        requires { out_count self.old.mounts < 2 ^ 63 }
        ensures pass { result ≡ pass_at number seat self.old.mounts }
        ensures taken { self.new.mounts ≡ with_pass number seat None self.old.mounts }
        ensures out { out_count self.new.mounts ≤ out_count self.old.mounts + 1 }
    {
        let Some(place) = place_numbered(self.mounts.as_slice(), number) else {
            return None;
        };
        let pass = self.mounts[place].passes.take(seat);
        if pass.is_some() {
            self.out += 1;
        }
        pass
    }

    /// Does what an accepted request does to the passes, by its method: hands out the pass of the seat that it takes, and
    /// what is left of the offer. Takes no memory.
    pub(crate) fn settle(
        &mut self,
        owner: u64,
        number: u64,
        method: Option<Method>,
        act: Act,
        offer: Option<Vec<P>>,
        room: Vec<Option<P>>,
    ) -> (Option<P>, Option<Vec<P>>)
        requires begins { method ≡ Some methods.Announce → CanBegin self.old owner number }
        requires empty { room.items ≡ [] }
        requires enough { (passes : _) → offer ≡ Some passes → vec_len passes ≤ vec_capacity room }
        requires bounded { out_count self.old.mounts < 2 ^ 63 }
        ensures mounts { self.new.mounts ≡ passes_after owner number method act (option_map (λ passes. passes.items) offer) self.old.mounts }
        ensures pass { result.0 ≡ pass_after method act self.old.mounts }
        ensures back { result.1 ≡ back_after method offer }
        ensures out { out_count self.new.mounts ≤ out_count self.old.mounts + 1 }
    {
        match method {
            Some(Method::Announce) => {
                if let Some(passes) = offer {
                    let passes = Passes::of(room, passes);
                    self.begin(MountPasses {
                        number,
                        owner,
                        passes,
                    });
                }
                (None, None)
            }
            Some(Method::Teardown) => {
                self.end_of(owner);
                (None, offer)
            }
            _ => (self.hand_out(act), offer),
        }
    }

    /// Hands out the pass of the seat that an act takes. Takes no memory.
    fn hand_out(&mut self, act: Act) -> Option<P>
        requires { out_count self.old.mounts < 2 ^ 63 }
        ensures pass { result ≡ handed_out act self.old.mounts }
        ensures left { self.new.mounts ≡ left_by act self.old.mounts }
        ensures out { out_count self.new.mounts ≤ out_count self.old.mounts + 1 }
    {
        match act {
            Act::Play { mount, seat } => self.take(mount, seat),
            _ => None,
        }
    }

    /// Puts the pass of a seat back that is out. Takes no memory.
    pub(crate) fn put(&mut self, number: u64, seat: usize, pass: P)
        requires { IsOutOf self.old.mounts number seat }
        ensures put { self.new.mounts ≡ with_pass number seat (Some pass) self.old.mounts }
        ensures out { out_count self.new.mounts + 1 ≡ out_count self.old.mounts }
    {
        if let Some(place) = place_numbered(self.mounts.as_slice(), number) {
            self.mounts[place].passes.put(seat, pass);
            self.out -= 1;
        }
    }
}

/// The place of the mount of a number.
fn place_numbered<P>(mounts: &[MountPasses<P>], number: u64) -> Option<usize>
    ensures { result ≡ position (λ one. one.number == number) mounts.now }
{
    mounts.iter().position(|one| one.number == number)
}

/// The place of the mount that a connection owns.
fn place_owned_by<P>(mounts: &[MountPasses<P>], owner: u64) -> Option<usize>
    ensures { result ≡ position (λ one. one.owner == owner) mounts.now }
{
    mounts.iter().position(|one| one.owner == owner)
}
