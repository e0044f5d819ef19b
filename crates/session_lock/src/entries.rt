//! The history as it is written down.
ghost use Rattle.std.specs.Prelude.{◌≡◌, ◌≤◌, ◌<◌, ◌+◌, ◌^◌, [], None, Some, IfOk, OnOk, length, take, reverse, nat_le, if◌then◌else◌};
ghost use Rattle.session_lock.specs.Entries.{Adds, HasRoomFor, base_in, method_accepted};

use crate::chronicle::Chronicle;
use rtsp_message::{Reply, Request};
use session_state::{Entry, Method, World, read_method};
use std::alloc::{AllocError, Global};
use std::marker::Model;
use std::mem;

/// What a cut leaves over. Whoever keeps the book under a lock drops it after the lock.
#[derive(Drop)]
pub struct Retired {
    /// The base before.
    pub base: World,
    /// The entries that were cut off.
    pub entries: Vec<Entry>,
}

/// What a cut puts in place, made before anything changes.
#[derive(Drop)]
pub(crate) struct NextBase {
    /// The world that all entries so far led to.
    pub world: World,
    /// No entries yet, and room for as many as before.
    pub entries: Vec<Entry>,
}

/// The history as it is written down: its newest entries, and the world that those before them led to.
pub(crate) struct Entries {
    // How many entries are kept, or more, when all are cut off before the next one.
    cut: usize,
    base: World,
    // What the last cut left over, until it is taken or another cut follows.
    retired: Option<Retired>,
    // The newest entry is the last.
    entries: Vec<Entry>,
    history: Chronicle<Entry>,
}

impl Model for Entries {
    ghost use Rattle.std.specs.Prelude.{◌-◌, length, vec_capacity, vec_len};
    ghost use Rattle.session_lock.specs.Entries.{AreNewest, Written};

    ghost Value = { Written };

    ghost view = { λ e. record { history = e.history.items; cut = e.cut; kept = length e.entries.items; base = e.base; room = vec_capacity e.entries - vec_len e.entries } };

    ghost invariant = { λ e. AreNewest e.entries.items e.history.items };
}

impl Drop for Entries {
    fn drop(self) {
        let Entries {
            cut: _,
            base: _,
            retired: _,
            entries: _,
            history: _,
        } = self;
    }
}

impl Entries {
    /// Nothing has happened. Takes no memory.
    pub(crate) fn new(alloc: Global, cut: usize, base: World) -> Entries
        ensures history { result.history ≡ [] }
        ensures kept { result.kept ≡ 0 }
        ensures base { result.base ≡ base }
        ensures cut { result.cut ≡ cut }
    {
        Entries {
            cut,
            base,
            retired: None,
            entries: Vec::new(alloc),
            history: Chronicle::new(),
        }
    }

    /// How many entries are kept.
    pub(crate) fn kept(&self) -> usize
        ensures count { result ≡ self.now.kept }
        ensures few { result ≤ length self.now.history }
    {
        self.entries.len()
    }

    /// The entries that are kept, the newest last.
    pub(crate) fn newest(&self) -> &[Entry]
        ensures { take self.now.kept self.now.history ≡ reverse result.now }
    {
        self.entries.as_slice()
    }

    /// The world that the entries before those that are kept led to.
    pub(crate) fn base(&self) -> &World
        ensures { result.now ≡ self.now.base }
    {
        &self.base
    }

    /// What the last cut left over, unless it was taken before. Nothing else changes.
    pub(crate) fn retired(&mut self) -> Option<Retired>
        ensures { self.new ≡ self.old }
    {
        self.retired.take()
    }

    /// What the next cut puts in place, if the cut is due at the next entry: a copy of the world, and room for as
    /// many entries as there is here.
    pub(crate) fn next_base(
        &self,
        alloc: Global,
        world: &World,
    ) -> Result<Option<NextBase>, AllocError>
        ensures base { IfOk result (λ next. base_in next ≡ (if nat_le self.now.cut self.now.kept then Some world.now else None)) }
        ensures room { IfOk result (λ next. HasRoomFor self.now.room next) }
    {
        if self.entries.len() < self.cut {
            return Ok(None);
        }
        Ok(Some(NextBase {
            world: world.copy(alloc)?,
            entries: Vec::with_capacity(alloc, self.entries.capacity())?,
        }))
    }

    /// Makes room for two entries more than may be promised: for the hang-up and the expiry of each that is open, and for the
    /// returns of the seats that are out.
    pub(crate) fn reserve(&mut self, opened: usize, out: usize) -> Result<(), AllocError>
        requires { opened + out ≤ self.old.room }
        ensures ok { OnOk result (opened + opened + out + 2 ≤ self.new.room) }
        ensures kept { self.new ≡ record self.old { room = self.new.room } }
        ensures more { self.old.room ≤ self.new.room }
        ensures bounded { self.new.room < 2 ^ 63 }
    {
        self.entries.reserve(opened + opened + out + 2)
    }

    /// Writes an entry down, in room that was made for it; if a new base is given, all entries before it are cut off first, and
    /// `retired` returns them. The room stays. Takes no memory.
    pub(crate) fn add(&mut self, next: Option<NextBase>, entry: Entry)
        requires room { 0 < self.old.room }
        requires next { HasRoomFor self.old.room next }
        ensures { Adds (base_in next) entry self.old self.new }
    {
        if let Some(next) = next {
            self.retired = Some(Retired {
                base: mem::replace(&mut self.base, next.world),
                entries: mem::replace(&mut self.entries, next.entries),
            });
        }
        self.history = self.history.and(&entry);
        self.entries.push(entry).unwrap();
    }
}

/// The method of a request that was accepted: answered 200. `None` of another.
pub(crate) fn accepted_method(request: &Request, reply: &Reply) -> Option<Method>
    ensures { result ≡ method_accepted request.now reply.now }
{
    if reply.status.code() != 200 {
        return None;
    }
    read_method(request.method.as_slice())
}
