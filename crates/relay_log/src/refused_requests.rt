//! Requests that were refused, by what they were about and status.
ghost use Rattle.std.specs.Prelude.{◌≡◌, ◌↔◌, ◌<◌, ◌≤◌, [], ◌++◌, length, filter, map, slice_get, take, All, IsTrue, IfOk, IfSome, IfNone, IsSomeAnd};
ghost use Rattle.relay_log.specs.Refusals.{AddsOne, BeginsCount, Counts, CountsOne, IsCountOf, IsDueCount, IsUncounted, TellsFirst, due_of, is_kept, most_counts};
ghost use Rattle.relay_log.specs.Kept.{IsUnnamed};
ghost use Rattle.relay_log.specs.Tallies.{earliest};

use crate::limits::{REFUSED_COUNTS, REFUSED_KEPT};
use crate::refused_line::{Kept, RefusedLine};
use crate::sooner::sooner;
use crate::subject::Subject;
use crate::tally::Tally;
use rtsp_message::Status;
use std::alloc::{AllocError, Global};
use std::marker::Model;
use std::net::SocketAddr;

/// Requests about one subject that were refused with one status.
#[derive(Drop)]
pub(crate) struct Entry {
    kept: Kept,
    status: Status,
    last: SocketAddr,
    tally: Tally,
}

impl Entry {
    /// Returns whether it counts requests about this subject that were refused with this status.
    fn is_of(&self, subject: Subject, status: Status) -> bool
        ensures { IsTrue result ↔ IsCountOf subject.entry status self.now }
    {
        self.status == status && self.kept.is_about(subject)
    }

    /// Returns whether it is kept at this moment: something came since its line, or the line was written less than a minute ago.
    fn is_kept(&self, now: u64) -> bool
        ensures { result ≡ is_kept now self.now }
    {
        self.tally.count > 0
            || self
                .tally
                .told
                .is_some_and(|told| now.saturating_sub(told) < REFUSED_KEPT)
    }

    /// Returns whether its line is due at this moment.
    fn is_due(&self, now: u64) -> bool
        ensures { IsTrue result ↔ IsDueCount now self.now }
    {
        self.tally.due().is_some_and(|due| due <= now)
    }
}

/// Requests that were refused, counted by subject and status, each of which is reported once a minute at most. There are at most 128
/// such counts, whatever names peers ask for: names that no mount has are one, and so are those for which there is no place.
///
/// Its model is the list of the counts.
pub(crate) struct RefusedRequests {
    alloc: Global,
    entries: Vec<Entry>,
}

impl Model for RefusedRequests {
    ghost use Rattle.std.specs.Prelude.{List, ◌≡◌, ◌≤◌, length, vec_capacity};
    ghost use Rattle.relay_log.specs.declared.refused_requests.Entry.{Entry};

    ghost Value = { List Entry };

    ghost view = { λ r. r.entries.items };

    ghost invariant = { λ r. (length r.entries.items ≤ 128) × (128 ≤ vec_capacity r.entries) };
}

impl Drop for RefusedRequests {
    fn drop(self) {
        let RefusedRequests {
            alloc: _,
            entries: _,
        } = self;
    }
}

impl RefusedRequests {
    /// None was refused.
    pub(crate) fn new(alloc: Global) -> Result<RefusedRequests, AllocError>
        ensures { IfOk result (λ requests. requests ≡ []) }
    {
        Ok(RefusedRequests {
            alloc,
            entries: Vec::with_capacity(alloc, REFUSED_COUNTS)?,
        })
    }

    /// Counts a request about this subject, of this peer, that was refused with this status. It counts as one about others if there
    /// is no place or no memory for the subject, and isn't counted if there is no place for that either.
    pub(crate) fn add(&mut self, subject: Subject, status: Status, peer: SocketAddr)
        ensures { Counts self.old self.new subject.entry status peer }
    {
        if !self.add_one(subject, status, peer) {
            let _ = self.add_one(Subject::Others, status, peer);
        }
    }

    /// Counts the request if there is a count of its subject and status, or a place and memory for one. Returns whether it did.
    fn add_one(&mut self, subject: Subject, status: Status, peer: SocketAddr) -> bool
        ensures added { IsTrue result → AddsOne self.old self.new subject.entry status peer }
        ensures none { (IsTrue result → ⊥) → IsUncounted self.old subject.entry status }
        ensures full { (IsTrue result → ⊥) → IsUnnamed subject.entry → 128 ≤ length self.old }
        ensures same { (IsTrue result → ⊥) → self.new ≡ self.old }
    {
        if self.count(subject, status, peer) {
            return true;
        }
        self.begin(subject, status, peer)
    }

    /// Counts the request, if there is a count of its subject and status. Returns whether there is.
    fn count(&mut self, subject: Subject, status: Status, peer: SocketAddr) -> bool
        ensures counted { IsTrue result → CountsOne self.old self.new subject.entry status peer }
        ensures none { (IsTrue result → ⊥) → IsUncounted self.old subject.entry status }
        ensures same { (IsTrue result → ⊥) → self.new ≡ self.old }
    {
        let Some(place) = place_of(self.entries.as_slice(), subject, status) else {
            return false;
        };
        let entry = &mut self.entries[place];
        entry.tally.add();
        entry.last = peer;
        true
    }

    /// Begins a count of this subject and status, if there is a place and memory for it. Returns whether it did. The last places are
    /// for what is about no mount.
    fn begin(&mut self, subject: Subject, status: Status, peer: SocketAddr) -> bool
        ensures room { IsTrue result → length self.old < most_counts subject.entry }
        ensures begun { IsTrue result → BeginsCount self.old self.new subject.entry status peer }
        ensures full { (IsTrue result → ⊥) → IsUnnamed subject.entry → 128 ≤ length self.old }
        ensures same { (IsTrue result → ⊥) → self.new ≡ self.old }
    {
        let most = match subject {
            Subject::Mount(_) => REFUSED_COUNTS - OTHERS,
            Subject::Others | Subject::NoMount => REFUSED_COUNTS,
        };
        if self.entries.len() >= most {
            return false;
        }
        let Ok(kept) = Kept::of(self.alloc, subject) else {
            return false;
        };
        let mut tally = Tally::new();
        tally.add();
        let entry = Entry {
            kept,
            status,
            last: peer,
            tally,
        };
        self.entries.push_reserved(entry);
        true
    }

    /// When the next line is due. `None` if nothing was refused since the last one.
    pub(crate) fn due(&self) -> Option<u64>
        ensures { result ≡ earliest (map due_of self.now) }
    {
        first_due_of(self.entries.as_slice())
    }

    /// The next line that is due at this moment, in milliseconds; then it counts as written. What was reported a minute ago and
    /// hasn't come since is dropped.
    pub(crate) fn tell(&mut self, now: u64) -> Option<RefusedLine>
        ensures told { IfSome result (λ line. TellsFirst (filter (is_kept now) self.old) self.new now line) }
        ensures none_due { IfNone result (All (λ entry. IsDueCount now entry → ⊥) self.new) }
        ensures kept { IfNone result (self.new ≡ filter (is_kept now) self.old) }
    {
        self.forget(now);
        let place = place_due(self.entries.as_slice(), now)?;
        let entry = &mut self.entries[place];
        let count = entry.tally.tell(now)?;
        // Without memory for the name it is reported without.
        let kept = entry.kept.copy(self.alloc).unwrap_or(Kept::Others);
        Some(RefusedLine {
            count,
            kept,
            status: entry.status,
            last: entry.last,
        })
    }

    /// Drops what was reported a minute ago and hasn't come since.
    fn forget(&mut self, now: u64)
        ensures { self.new ≡ filter (is_kept now) self.old }
    {
        self.entries.retain(|entry| entry.is_kept(now));
    }
}

/// Returns when the first of these counts is due to be logged.
fn first_due_of(entries: &[Entry]) -> Option<u64>
    ensures { result ≡ earliest (map due_of entries.now) }
{
    let mut due = None;
    for entry in entries {
        due = sooner(due, entry.tally.due());
    }
    due
}

/// Returns the place of the count of this subject and status. `None` if there is none.
fn place_of(entries: &[Entry], subject: Subject, status: Status) -> Option<usize>
    ensures found { IfSome result (λ place. IsSomeAnd (slice_get entries.now place) (IsCountOf subject.entry status)) }
    ensures none { IfNone result (All (λ entry. IsCountOf subject.entry status entry → ⊥) entries.now) }
{
    for (place, entry) in entries.iter().enumerate() {
        if entry.is_of(subject, status) {
            return Some(place);
        }
    }
    None
}

/// Returns the place of the first count whose line is due at this moment. `None` if none is.
fn place_due(entries: &[Entry], now: u64) -> Option<usize>
    ensures found { IfSome result (λ place. IsSomeAnd (slice_get entries.now place) (IsDueCount now)) }
    ensures none_before { IfSome result (λ place. All (λ entry. IsDueCount now entry → ⊥) (take place entries.now)) }
    ensures none { IfNone result (All (λ entry. IsDueCount now entry → ⊥) entries.now) }
{
    for (place, entry) in entries.iter().enumerate() {
        if entry.is_due(now) {
            return Some(place);
        }
    }
    None
}

/// How many places are for what is about no mount: one for each status that is counted, and one for connections.
const OTHERS: usize = 9;
