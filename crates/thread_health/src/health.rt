//! How the threads of a server were seen.
ghost use Rattle.std.specs.Prelude.{◌≡◌, [], map, OnErr, OnOk, IfOk};
ghost use Rattle.std.specs.List.{position};
ghost use Rattle.thread_health.specs.Late.{after_look, first_late, is_late, is_same, raised_of, seen_after, seen_at};

use crate::raised::{RaisedSince, is_late, since_after};
use server_counts::{ServerThread, ThreadLook};
use std::alloc::{AllocError, Global};
use std::marker::Model;

/// A thread, and since when its mark is raised.
#[derive(Clone, Copy, Debug, PartialEq, Eq, Drop)]
pub struct SeenThread {
    pub thread: ServerThread,
    pub raised: Option<RaisedSince>,
}

/// How the threads of a server were seen at the last observation.
pub struct Health {
    alloc: Global,
    seen: Vec<SeenThread>,
}

impl Model for Health {
    ghost use Rattle.std.specs.Prelude.{List};
    ghost use Rattle.thread_health.specs.declared.health.SeenThread.{SeenThread};

    ghost Value = { List SeenThread };

    ghost view = { λ h. h.seen.items };
}

impl Drop for Health {
    fn drop(self) {
        let Health { alloc: _, seen: _ } = self;
    }
}

impl Health {
    /// No thread was seen.
    pub fn new(alloc: Global) -> Health
        ensures { result ≡ [] }
    {
        Health {
            alloc,
            seen: Vec::new(alloc),
        }
    }

    /// Notes these marks at this moment, in milliseconds of a clock that doesn't go back. Returns the first thread that is late: there was
    /// something to do for it at an observation more than two seconds ago, and it hasn't looked since. The only error is out of memory,
    /// which leaves what was seen.
    pub fn observe(
        &mut self,
        looks: &[ThreadLook],
        now: u64,
    ) -> Result<Option<ServerThread>, AllocError>
        ensures seen { OnOk result (self.new ≡ seen_after self.old looks.now now) }
        ensures late { IfOk result (λ thread. thread ≡ first_late self.new now) }
        ensures err { OnErr result (self.new ≡ self.old) }
    {
        self.seen = seen_after(self.alloc, self.seen.as_slice(), looks, now)?;
        Ok(first_late(self.seen.as_slice(), now))
    }
}

/// Returns how these threads are seen after one more observation.
fn seen_after(
    alloc: Global,
    old: &[SeenThread],
    looks: &[ThreadLook],
    now: u64,
) -> Result<Vec<SeenThread>, AllocError>
    ensures { IfOk result (λ seen. seen.items ≡ seen_after old.now looks.now now) }
{
    let mut seen = Vec::new(alloc);
    for look in looks {
        seen.push(after_look(old, look, now))?;
    }
    Ok(seen)
}

/// Returns how a thread is seen after one more observation.
fn after_look(old: &[SeenThread], look: &ThreadLook, now: u64) -> SeenThread
    ensures { result ≡ after_look old.now now look.now }
{
    SeenThread {
        thread: look.thread,
        raised: since_after(raised_of(old, look.thread), look.mark, now),
    }
}

/// Returns since when the mark of a thread was raised.
fn raised_of(seen: &[SeenThread], thread: ServerThread) -> Option<RaisedSince>
    ensures { result ≡ raised_of seen.now thread }
{
    match seen_at(seen, place_of(seen, thread)) {
        Some(seen) => seen.raised,
        None => None,
    }
}

/// Returns the place of a thread. `None` if it wasn't seen.
fn place_of(seen: &[SeenThread], thread: ServerThread) -> Option<usize>
    ensures { result ≡ position (λ seen. is_same seen.thread thread) seen.now }
{
    seen.iter().position(|seen| is_same(seen.thread, thread))
}

/// Returns the thread at a place. `None` if there is no place.
fn seen_at(seen: &[SeenThread], place: Option<usize>) -> Option<SeenThread>
    ensures { result ≡ seen_at seen.now place }
{
    match place {
        Some(place) => seen.get(place).copied(),
        None => None,
    }
}

/// Returns whether the two are one thread.
fn is_same(one: ServerThread, other: ServerThread) -> bool
    ensures { result ≡ is_same one other }
{
    match (one, other) {
        (ServerThread::Accepting, ServerThread::Accepting)
        | (ServerThread::Waking, ServerThread::Waking)
        | (ServerThread::Refusing, ServerThread::Refusing)
        | (ServerThread::Reporting, ServerThread::Reporting) => true,
        (ServerThread::Writing(one), ServerThread::Writing(other)) => one == other,
        _ => false,
    }
}

/// Returns the first of these threads that is late.
fn first_late(seen: &[SeenThread], now: u64) -> Option<ServerThread>
    ensures { result ≡ first_late seen.now now }
{
    match seen_at(seen, late_place(seen, now)) {
        Some(seen) => Some(seen.thread),
        None => None,
    }
}

/// Returns the place of the first of these threads that is late.
fn late_place(seen: &[SeenThread], now: u64) -> Option<usize>
    ensures { result ≡ position (λ seen. is_late seen.raised now) seen.now }
{
    seen.iter().position(|seen| is_late(seen.raised, now))
}
