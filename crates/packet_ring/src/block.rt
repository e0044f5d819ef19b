//! The block of raw memory as threads share it, and the tokens that step on it.
ghost use Rattle.std.specs.Prelude.{◌≡◌, ◌+◌, ◌-◌, ◌*◌, ◌%◌, ◌^◌, ◌==◌, ◌<◌, ◌≤◌, ℕ, List, [], ◌∷◌, ◌++◌, Some, None, map, length, take, drop, replicate, slice_index};
ghost use base.Stored.{coded_list};
ghost use prog.Atomic.{either};
ghost use Rattle.packet_ring.specs.Table.{no_right, flat, Allows, AllowsBeside, cells_of, grown, renewed, settled, written};
ghost use Rattle.packet_ring.specs.Lent.{BlockId, block_id_coded, block_owns, block_shares, bytes_from, carried_shows, mine, waiting};
ghost use Rattle.packet_ring.specs.Rule.{Knows, View, knows_coded, view_coded, packet_coded, Holds, fresh_units, fresh_views};
ghost use Rattle.packet_ring.specs.Operation.{Operation};
ghost use Rattle.packet_ring.specs.Steps.{MayRead, MayWrite, Step, step};

use crate::places::{Base, Places};
use atomic_table::exchange;
use std::marker::{Brand, Model, PhantomData};
use std::slice;
use std::sync::atomic::Ordering::SeqCst;
use std::sync::atomic::raw;

/// The block's units, side by side from `base` on: each a word and cells. Threads share it by a `&`.
pub(crate) struct Shared {
    pub(crate) base: *mut u64,
    pub(crate) ghost id: { BlockId } by { block_id_coded },
}

impl Model for Shared {
    ghost also_owns = { λ b. block_owns view_coded.code packet_coded (Holds b.id.limits) b.base b.id };

    ghost also_shares = { λ b _ κ. block_shares view_coded.code packet_coded (Holds b.id.limits) b.base b.id κ };
}

/// The right to step as the publisher or as one seat. It has no bytes.
pub(crate) struct Token {
    pub(crate) marker: PhantomData<u64>,
    pub(crate) ghost id: { BlockId } by { block_id_coded },
    pub(crate) ghost number: { ℕ },
    pub(crate) ghost me: { Knows } by { knows_coded },
}

impl Model for Token {
    ghost also_owns = { λ t. mine view_coded.code packet_coded t.id t.number t.me };

    ghost also_shares = { λ t _ κ. carried_shows t.id t.me.right κ };
}

/// What a step tells its caller.
pub(crate) trait Play {
    // Of the step, the token before, the number found (at a store, the number stored) and the token after.
    ghost then: { Step → Knows → ℕ → Knows → Type 0 };
}

/// The tokens that nobody has taken yet. It has no bytes.
pub(crate) struct Spares {
    pub(crate) marker: PhantomData<u64>,
    pub(crate) ghost id: { BlockId } by { block_id_coded },
    pub(crate) ghost next: { ℕ },
    pub(crate) ghost views: { List View } by { coded_list view_coded },
}

impl Model for Spares {
    ghost also_owns = { λ s. waiting view_coded.code packet_coded s.id s.next s.views };
}

impl Shared {
    /// A block of fresh units, the places for whose bytes are empty and lie behind them, and all its tokens.
    pub(crate) fn deal(
        start: Base<u64>,
        places: Places<u64>,
        keep: usize,
        seats: usize,
        width: usize,
        room: usize,
        most: usize,
    ) -> (Shared, Spares)
        requires sizes { (1 ≤ keep) × (seats ≤ 1024) }
        requires zeros { (places.at ≡ start.ptr) × (places.slots ≡ map Some (flat (fresh_units keep width)) ++ replicate ((keep + 2) * room) None) }
        ensures block { (result.0.base ≡ start.ptr) × (result.0.id.units ≡ keep + 2) × (result.0.id.width ≡ width) × (result.0.id.room ≡ room) × (result.0.id.limits ≡ (seats, most)) }
        ensures spares { (result.1.id ≡ result.0.id) × (result.1.next ≡ 0) × (result.1.views ≡ fresh_views seats) }
    {
        let Places { mark: _ } = places;
        let base = start.ptr;
        (
            Shared { base },
            Spares {
                marker: PhantomData,
            },
        )
    }

    /// The memory comes back once nobody shares the block.
    pub(crate) fn gather(self) -> (Base<u64>, Places<u64>)
        ensures { (result.0.ptr ≡ self.base) × (result.1.at ≡ self.base) × (result.1.slots ≡ replicate (self.id.units * (self.id.width + 1) + self.id.units * self.id.room) None) }
    {
        let Shared { base } = self;
        (Base { ptr: base }, Places { mark: PhantomData })
    }
}

impl Shared {
    /// One load of a unit's word, which lies `at` words from the first. What is asked for shows in the
    /// token's view alone.
    pub(crate) fn load<M: Play>(&self, token: &mut Token, unit: usize, at: usize, ask: u64) -> u64
        requires { (token.old.id ≡ self.now.id) × (unit < self.now.id.units) × (at ≡ unit * (self.now.id.width + 1)) × Allows (Holds self.now.id.limits) (Operation self.now.id.limits) self.now.id.units token.old.number token.old.me unit (λ n. n) (M.then (step self.now.id.limits self.now.id.units unit ask 0) token.old.me) }
        ensures { (token.new.id ≡ token.old.id) × (token.new.number ≡ token.old.number) × M.then (step self.now.id.limits self.now.id.units unit ask 0) token.old.me result token.new.me }
    {
        let _ = unit;
        let _ = ask;
        unsafe { raw::load::<Brand>(self.base.add(at), SeqCst) }
    }

    /// One store of a unit's word.
    pub(crate) fn store<M: Play>(&self, token: &mut Token, unit: usize, at: usize, new: u64)
        requires { (token.old.id ≡ self.now.id) × (unit < self.now.id.units) × (at ≡ unit * (self.now.id.width + 1)) × Allows (Holds self.now.id.limits) (Operation self.now.id.limits) self.now.id.units token.old.number token.old.me unit (λ _. new) (λ _. M.then (step self.now.id.limits self.now.id.units unit new 0) token.old.me new) }
        ensures { (token.new.id ≡ token.old.id) × (token.new.number ≡ token.old.number) × M.then (step self.now.id.limits self.now.id.units unit new 0) token.old.me new token.new.me }
    {
        let _ = unit;
        unsafe { raw::store::<Brand>(self.base.add(at), new, SeqCst) }
    }

    /// One addition to a unit's word, which answers the word as it was.
    pub(crate) fn fetch_add<M: Play>(
        &self,
        token: &mut Token,
        unit: usize,
        at: usize,
        k: u64,
    ) -> u64
        requires { (token.old.id ≡ self.now.id) × (unit < self.now.id.units) × (at ≡ unit * (self.now.id.width + 1)) × Allows (Holds self.now.id.limits) (Operation self.now.id.limits) self.now.id.units token.old.number token.old.me unit (λ n. (n + k) % 2 ^ 64) (M.then (step self.now.id.limits self.now.id.units unit k 0) token.old.me) }
        ensures { (token.new.id ≡ token.old.id) × (token.new.number ≡ token.old.number) × M.then (step self.now.id.limits self.now.id.units unit k 0) token.old.me result token.new.me }
    {
        let _ = unit;
        unsafe { raw::fetch_add::<Brand>(self.base.add(at), k, SeqCst) }
    }

    /// One subtraction from a unit's word, which answers the word as it was.
    pub(crate) fn fetch_sub<M: Play>(
        &self,
        token: &mut Token,
        unit: usize,
        at: usize,
        k: u64,
    ) -> u64
        requires { (token.old.id ≡ self.now.id) × (unit < self.now.id.units) × (at ≡ unit * (self.now.id.width + 1)) × Allows (Holds self.now.id.limits) (Operation self.now.id.limits) self.now.id.units token.old.number token.old.me unit (λ n. (n + (2 ^ 64 - k)) % 2 ^ 64) (M.then (step self.now.id.limits self.now.id.units unit k 0) token.old.me) }
        ensures { (token.new.id ≡ token.old.id) × (token.new.number ≡ token.old.number) × M.then (step self.now.id.limits self.now.id.units unit k 0) token.old.me result token.new.me }
    {
        let _ = unit;
        unsafe { raw::fetch_sub::<Brand>(self.base.add(at), k, SeqCst) }
    }

    /// One exchange of a unit's word, made where the word is `old`, which answers the word as it was.
    pub(crate) fn compare_exchange<M: Play>(
        &self,
        token: &mut Token,
        unit: usize,
        at: usize,
        old: u64,
        new: u64,
    ) -> u64
        requires { (token.old.id ≡ self.now.id) × (unit < self.now.id.units) × (at ≡ unit * (self.now.id.width + 1)) × Allows (Holds self.now.id.limits) (Operation self.now.id.limits) self.now.id.units token.old.number token.old.me unit (λ n. either (n == old) new n) (M.then (step self.now.id.limits self.now.id.units unit old new) token.old.me) }
        ensures { (token.new.id ≡ token.old.id) × (token.new.number ≡ token.old.number) × M.then (step self.now.id.limits self.now.id.units unit old new) token.old.me result token.new.me }
    {
        let _ = unit;
        unsafe { exchange::<Brand>(self.base.add(at), old, new) }
    }

    /// The same exchange while another token is at hand, which stays as it is: what the block says of that token's view
    /// holds when the exchange is made.
    pub(crate) fn compare_exchange_beside<M: Play>(
        &self,
        token: &mut Token,
        other: &mut Token,
        unit: usize,
        at: usize,
        old: u64,
        new: u64,
    ) -> u64
        requires { (token.old.id ≡ self.now.id) × (other.old.id ≡ self.now.id) × (unit < self.now.id.units) × (at ≡ unit * (self.now.id.width + 1)) × AllowsBeside (Holds self.now.id.limits) (Operation self.now.id.limits) self.now.id.units token.old.number token.old.me other.old.number other.old.me.view unit (λ n. either (n == old) new n) (M.then (step self.now.id.limits self.now.id.units unit old new) token.old.me) }
        ensures { (other.new ≡ other.old) × (token.new.id ≡ token.old.id) × (token.new.number ≡ token.old.number) × M.then (step self.now.id.limits self.now.id.units unit old new) token.old.me result token.new.me }
    {
        let _ = unit;
        unsafe { exchange::<Brand>(self.base.add(at), old, new) }
    }
}

impl Spares {
    /// The next token, and those after it.
    pub(crate) fn take(self) -> (Token, Spares)
        requires { (v : View) × (vs : List View) × (self.views ≡ v ∷ vs) }
        ensures token { (result.0.id ≡ self.id) × (result.0.number ≡ self.next) × (result.0.me.right ≡ no_right) × (result.0.me.seen ≡ []) }
        ensures rest { (result.1.id ≡ self.id) × (result.1.next ≡ self.next + 1) × (self.views ≡ result.0.me.view ∷ result.1.views) }
    {
        let Spares { marker: _ } = self;
        (
            Token {
                marker: PhantomData,
            },
            Spares {
                marker: PhantomData,
            },
        )
    }
}

impl Shared {
    /// One cell of a unit that the token may read, which lies `at` words from the first.
    pub(crate) fn read(&self, token: &mut Token, unit: usize, at: usize, cell: usize) -> u64
        requires { (token.old.id ≡ self.now.id) × MayRead token.old.me.right unit × (cell < self.now.id.width) × (at ≡ unit * (self.now.id.width + 1) + 1 + cell) }
        ensures { (token.new ≡ token.old) × (self.now.id.width ≤ length (cells_of token.old.me.right)) × (result ≡ slice_index (cells_of token.old.me.right) cell) }
    {
        let _ = unit;
        let _ = cell;
        unsafe { *self.base.add(at) }
    }

    /// Writes one cell of a unit that the token may write.
    pub(crate) fn write(&self, token: &mut Token, unit: usize, at: usize, cell: usize, value: u64)
        requires { (token.old.id ≡ self.now.id) × MayWrite token.old.me.right unit × (cell < self.now.id.width) × (at ≡ unit * (self.now.id.width + 1) + 1 + cell) }
        ensures { (token.new.id ≡ token.old.id) × (token.new.number ≡ token.old.number) × (self.now.id.width ≤ length (cells_of token.old.me.right)) × (token.new.me ≡ written token.old.me cell value) }
    {
        let _ = unit;
        let _ = cell;
        unsafe {
            let place = self.base.add(at);
            *place = value;
        }
    }

    /// Writes the byte at `place` of a unit that the token may write, which lies `at` bytes from the block's
    /// start, behind those that were written before it. Those that lay there are given up. The start is handed
    /// in, so that a loop of writes doesn't read it again after each.
    pub(crate) fn put(
        &self,
        token: &mut Token,
        base: Base<u64>,
        unit: usize,
        at: usize,
        place: usize,
        value: u8,
    )
        requires right { (token.old.id ≡ self.now.id) × MayWrite token.old.me.right unit × (base.ptr ≡ self.now.base) }
        requires place { (place < self.now.id.room * 8) × (self.now.id.width + place ≤ length (cells_of token.old.me.right)) × (at ≡ bytes_from self.now.id unit + place) }
        ensures { (token.new.id ≡ token.old.id) × (token.new.number ≡ token.old.number) × (token.new.me ≡ grown token.old.me (self.now.id.width + place) value) }
    {
        let _ = unit;
        let _ = place;
        unsafe {
            let to = (base.ptr as *mut u8).add(at);
            to.write(value)
        }
    }

    /// The first `len` bytes of a unit that the token may read, which lie `at` bytes from the block's start.
    pub(crate) fn lend<'a>(
        &'a self,
        token: &'a Token,
        unit: usize,
        at: usize,
        len: usize,
    ) -> &'a [u8]
        requires right { (token.now.id ≡ self.now.id) × MayRead token.now.me.right unit }
        requires bytes { (unit < self.now.id.units) × (len ≤ self.now.id.room * 8) × (at ≡ bytes_from self.now.id unit) × (self.now.id.width + len ≤ length (cells_of token.now.me.right)) }
        ensures { result.now ≡ take len (drop self.now.id.width (cells_of token.now.me.right)) }
    {
        let _ = unit;
        unsafe { slice::from_raw_parts((self.base as *const u8).add(at), len) }
    }

    /// A new round of the cells begins, which the token may end: what it wrote may be shared.
    pub(crate) fn renew(&self, token: &mut Token)
        requires { token.old.id ≡ self.now.id }
        ensures { (token.new.id ≡ token.old.id) × (token.new.number ≡ token.old.number) × (token.new.me ≡ renewed token.old.me) }
    {}
}

impl Token {
    /// The round of the cells ends, and the token may write them.
    pub(crate) fn settle(&mut self)
        ensures { (self.new.id ≡ self.old.id) × (self.new.number ≡ self.old.number) × (self.new.me ≡ settled self.old.me) }
    {}
}

impl Drop for Token {
    fn drop(self) {
        let Self { marker: _ } = self;
    }
}

impl Drop for Spares {
    fn drop(self) {
        let Self { marker: _ } = self;
    }
}

unsafe impl Send for Token {}

unsafe impl Send for Spares {}

unsafe impl Send for Shared {}

unsafe impl Sync for Shared {}
