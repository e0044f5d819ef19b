//! The book. `asking` has how a request is answered.
ghost use Rattle.std.specs.Prelude.{◌≡◌, ◌≤◌, ◌+◌, ◌∷◌, [], true, false, None, Some, IfOk, IfSome, IfNone, OnErr, drop, length, reverse, take, Option};
ghost use Rattle.std.specs.Option.{option_copied, option_map};
ghost use Rattle.session_state.specs.declared.act.Act as acting;
ghost use Rattle.session_state.specs.declared.act.Act.TheVariants as acts;
ghost use Rattle.session_state.specs.declared.entry.Entry.TheVariants as entries;
ghost use Rattle.session_state.specs.declared.fault.ConnectFault.TheVariants as faults;
ghost use Rattle.session_state.specs.declared.session.Session.{Session};
ghost use Rattle.session_state.specs.Legal.{Comes, IsBack, IsExpiry, IsHangUp, IsLegal};
ghost use Rattle.session_state.specs.Lookups.{IsSessionOf, came, is_open};
ghost use Rattle.session_lock.specs.Books.{IsLedTo, kept_after, left_since};
ghost use Rattle.session_lock.specs.Spares.{AreSpare, unended, with_pass};

mod asking;

use crate::entries::{Entries, Retired};
use crate::spares::Spares;
use session_state::{Act, ConnectFault, Entry, Session, World};
use std::alloc::Global;
use std::collections::hash_map::RandomState;
use std::marker::Model;

/// How many entries a book keeps before it cuts them off.
pub const CUT: usize = 4096;

/// A server's memory: what has happened since its base, entry by entry, the world that this comes to, and the spare passes
/// of the mounts that live. The base is a world, too: what all entries before led to, which no memory holds any more.
///
/// A contract sees how many seats each mount has, the whole history, how many of its newest entries are kept, how many may
/// be before they are cut off, and the passes. The history is legal, `kept` says so, and the base stands for what isn't
/// kept of it, as `base` says.
pub struct Book<P> {
    alloc: Global,
    seats: usize,
    world: World,
    entries: Entries,
    spares: Spares<P>,
}

impl<P> Model for Book<P> {
    ghost use Rattle.session_lock.specs.Books.{IsKept, Remembered};

    ghost Value = { Remembered P };

    ghost view = { λ b. record { seats = b.seats; cut = b.entries.cut; history = b.entries.history; kept = b.entries.kept; spares = b.spares.mounts } };

    ghost invariant = { λ b. IsKept b.seats b.world b.entries b.spares };
}

impl<P: Drop> Drop for Book<P> {
    fn drop(self) {
        let Book {
            alloc: _,
            seats: _,
            world: _,
            entries: _,
            spares: _,
        } = self;
    }
}

impl<P: Drop> Book<P> {
    /// A book in which nothing has happened, which keeps `CUT` entries before it cuts them off. Each mount that is announced
    /// has so many seats. Takes no memory.
    pub fn new(alloc: Global, seats: usize, hasher: RandomState) -> Book<P>
        requires { seats ≤ 1024 }
        ensures { result ≡ record { seats = seats; cut = 4096; history = []; kept = 0; spares = [] } }
    {
        Book::with_cut(alloc, seats, hasher, CUT)
    }

    /// A book in which nothing has happened. Where so many entries are kept, or more, the next coming or request that is
    /// accepted into the history cuts them off: the world as it stood before it is the new base. Takes no memory.
    pub fn with_cut(alloc: Global, seats: usize, hasher: RandomState, cut: usize) -> Book<P>
        requires seats { seats ≤ 1024 }
        requires cut { 1 ≤ cut }
        ensures { result ≡ record { seats = seats; cut = cut; history = []; kept = 0; spares = [] } }
    {
        let base = World::new(alloc, seats, hasher);
        Book {
            alloc,
            seats,
            world: World::new(alloc, seats, hasher),
            entries: Entries::new(alloc, cut, base),
            spares: Spares::new(alloc),
        }
    }

    /// How many entries are kept: the newest of the history. They are no more than the book was made for, and those that have
    /// hung up, expired or given a seat back since the last coming or request.
    pub fn kept(&self) -> usize
        ensures count { result ≡ self.now.kept }
        ensures few { result ≤ length self.now.history }
        ensures bounded { result ≤ self.now.cut + left_since self.now.history }
        ensures legal { IsLegal self.now.seats self.now.history }
        ensures spare { AreSpare self.now.seats self.now.history self.now.spares }
    {
        self.entries.kept()
    }

    /// The entries that are kept, the newest last.
    pub fn entries(&self) -> &[Entry]
        ensures { take self.now.kept self.now.history ≡ reverse result.now }
    {
        self.entries.newest()
    }

    /// The world that the entries before those that are kept led to.
    pub fn base(&self) -> &World
        ensures { IsLedTo self.now.seats (drop self.now.kept self.now.history) result.now }
    {
        self.entries.base()
    }

    /// What the last cut left over, unless this has returned it before: the base that was replaced, and the entries that were cut
    /// off. Whoever keeps the book under a lock drops it after the lock, since it may be the last to hold mounts that have ended,
    /// and many large requests. Without this call the next cut drops it.
    pub fn retired(&mut self) -> Option<Retired>
        ensures unchanged { self.new ≡ self.old }
    {
        self.entries.retired()
    }

    /// Whether a connection is open.
    pub fn is_open(&self, conn: u64) -> bool
        ensures { result ≡ is_open conn self.now.history }
    {
        self.world.is_open(conn)
    }

    /// The session of an open connection, as it stands now. `None` without a session.
    pub fn session_of(&self, conn: u64) -> Option<&Session>
        ensures open { is_open conn self.now.history ≡ true → IsSessionOf self.now.seats conn self.now.history (option_copied result) }
        ensures closed { is_open conn self.now.history ≡ false → option_copied result ≡ None }
    {
        self.world.session_of(conn)
    }

    /// The number of the mount of an open connection's session. `None` without a session.
    pub fn mount_of(&self, conn: u64) -> Option<u64>
        ensures open { is_open conn self.now.history ≡ true → (session : Option Session) × IsSessionOf self.now.seats conn self.now.history session × (result ≡ option_map (λ one. one.mount) session) }
        ensures closed { is_open conn self.now.history ≡ false → result ≡ None }
    {
        self.world.mount_of(conn)
    }

    /// Lets a connection come, and tells its number: from 1 on, and never used again. `Full` comes exactly where
    /// `MAX_CONNECTIONS` are open or the numbers are used up, and out of memory only where they aren't; after an error
    /// nothing has changed. Makes the room for its hang-up, and a new base where the kept entries are cut off.
    pub fn connect(&mut self) -> Result<u64, ConnectFault>
        ensures comes { IfOk result (λ conn. Comes self.old.history conn) }
        ensures ok { IfOk result (λ conn. self.new ≡ record self.old { history = entries.Connect conn ∷ self.old.history; kept = kept_after self.old }) }
        ensures full { result ≡ Err faults.Full → Comes self.old.history (came self.old.history + 1) → ⊥ }
        ensures memory { result ≡ Err faults.OutOfMemory → Comes self.old.history (came self.old.history + 1) }
        ensures err { OnErr result (self.new ≡ self.old) }
    {
        if !self.world.may_come() {
            return Err(ConnectFault::Full);
        }
        self.entries
            .reserve(self.world.count_open(), self.spares.count_out())?;
        let next = self.entries.next_base(self.alloc, &self.world)?;
        let conn = self.world.connect()?;
        self.entries.add(next, Entry::Connect(conn));
        Ok(conn)
    }

    /// Hangs a connection up: its session ends, and the mount that it owns, whose spare passes are dropped. Tells what it
    /// has to do. Where it isn't open, nothing changes. Takes no memory.
    pub fn hangup(&mut self, conn: u64) -> Act
        ensures is { is_open conn self.old.history ≡ true → IsHangUp self.old.seats self.old.history conn result }
        ensures open { is_open conn self.old.history ≡ true
            → self.new ≡ record self.old { history = entries.HangUp conn result ∷ self.old.history; kept = self.old.kept + 1; spares = unended (entries.HangUp conn result) self.old.spares } }
        ensures unknown { is_open conn self.old.history ≡ false → (result ≡ acts.None) × (self.new ≡ self.old) }
    {
        if !self.world.is_open(conn) {
            return Act::None;
        }
        let act = self.world.hangup(conn);
        self.spares.end_of(conn);
        self.entries.add(None, Entry::HangUp { conn, act });
        act
    }

    /// Ends the session of a connection that was last heard 60 seconds or more before `now`: by a request, at the greatest
    /// moment that was given with one, or otherwise, at `heard`. Moments are milliseconds. With a session for recording its mount
    /// ends, whose spare passes are dropped. Tells what the connection has to do, as after a TEARDOWN. `None`, and nothing
    /// changes, where the connection isn't open, has no session or was heard later. Takes no memory.
    pub fn expire(&mut self, conn: u64, heard: u64, now: u64) -> Option<Act>
        ensures is { IfSome result (λ act. IsExpiry self.old.seats self.old.history conn heard now act) }
        ensures ends { IfSome result (λ act. self.new ≡ record self.old { history = entries.Expire conn heard now act ∷ self.old.history; kept = self.old.kept + 1; spares = unended (entries.Expire conn heard now act) self.old.spares }) }
        ensures none { result ≡ None → (act : acting.Act) → IsExpiry self.old.seats self.old.history conn heard now act → ⊥ }
        ensures unchanged { IfNone result (self.new ≡ self.old) }
    {
        let act = self.world.expire(conn, heard, now)?;
        self.spares.end_with(conn, act);
        self.entries.add(
            None,
            Entry::Expire {
                conn,
                heard,
                now,
                act,
            },
        );
        Some(act)
    }

    /// Gives back the pass of a seat; that it is this seat's is the caller's duty. `None` where that seat of a mount that
    /// lives was out, and is free now; else the pass is handed back, and nothing has changed. Takes no memory.
    pub fn give_back(&mut self, mount: u64, seat: usize, pass: P) -> Option<P>
        ensures is { IfNone result (IsBack self.old.history mount seat) }
        ensures taken { IfNone result (self.new ≡ record self.old { history = entries.Back mount seat ∷ self.old.history; kept = self.old.kept + 1; spares = with_pass mount seat (Some pass) self.old.spares }) }
        ensures refused { IfSome result (λ back. IsBack self.old.history mount seat → ⊥) }
        ensures back { IfSome result (λ back. (back ≡ pass) × (self.new ≡ self.old)) }
    {
        if !self.world.back(mount, seat) {
            return Some(pass);
        }
        self.spares.put(mount, seat, pass);
        self.entries.add(None, Entry::Back { mount, seat });
        None
    }
}
