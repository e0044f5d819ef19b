//! What was refused and left out since that was last reported, as a value.
//!
//! Each change returns what has to be told to the thread that writes the rows, so none is held back.
ghost use Rattle.std.specs.Prelude.{◌≡◌, ◌+◌, ◌-◌, ◌^◌, ◌≤◌, ◌<◌, ◌↔◌, false, true, None, Some, IfOk, IfSome, IfNone, IsSome, IsSomeAnd, IsTrue, slice_get};
ghost use Rattle.relay_accounts.specs.Capped.{capped};
ghost use Rattle.rtsp_message.specs.declared.status.Status.TheVariants as statuses;
ghost use Rattle.server_counts.specs.Refusals.{place_of_refusal};
ghost use Rattle.relay_log.specs.declared.due.Due.TheVariants as dues;
ghost use Rattle.relay_log.specs.declared.subject.Subject.TheVariants as subjects;
ghost use Rattle.relay_log.specs.declared.refusing.state.MayReport.TheVariants.{Counted, Logged};
ghost use Rattle.relay_log.specs.AddressRates.{TellsAddress, place_in};
ghost use Rattle.relay_log.specs.Counted.{CountsAt, IsEmpty, NothingDue, TellsRow, first_due_of_all, reported_at, without_old};
ghost use Rattle.relay_log.specs.Nexts.{IfRow};
ghost use Rattle.relay_log.specs.Refusals.{Counts};
ghost use Rattle.relay_log.specs.Moments.{sooner_of};
ghost use Rattle.relay_log.specs.Rates.{MayTell};

use crate::due::Due;
use crate::end_kinds::ENDS;
use crate::line_rate::LineRate;
use crate::line_rates::LineRates;
use crate::refusal_row::RefusalRow;
use crate::refused_requests::RefusedRequests;
use crate::sooner::sooner;
use crate::subject::Subject;
use crate::tallies::{first_due, tell_first};
use crate::tally::Tally;
use networks::Address;
use rtsp_message::Status;
use server_counts::Refusal;
use std::alloc::{AllocError, Global};
use std::net::SocketAddr;
use std::sync::Condvar;

/// What was refused and left out, and the first moment that was set.
pub(super) struct State {
    /// Peers that were refused, by `Refusal::place`.
    tallies: [Tally; Refusal::COUNT],
    /// Requests that were refused, by mount and status.
    requests: RefusedRequests,
    /// How many ends of connections were logged of each address.
    rates: LineRates,
    /// Those that weren't logged, by `end_kinds::place_of`.
    unlogged: [Tally; 12],
    /// Accounts that weren't logged.
    unlogged_accounts: Tally,
    /// The first moment that was set and hasn't come.
    moment: Option<u64>,
    is_closed: bool,
}

impl Drop for State {
    fn drop(self) {
        let State {
            tallies: _,
            requests: _,
            rates: _,
            unlogged: _,
            unlogged_accounts: _,
            moment: _,
            is_closed: _,
        } = self;
    }
}

/// Something changed of which the thread that writes the rows wasn't told since. It has no `Drop`, so that it ends in `tell`.
pub(super) struct Noted(());

/// Whether a line may be logged.
pub(super) enum MayReport {
    Logged,
    /// It is counted instead.
    Counted(Noted),
}

impl Noted {
    /// Wakes the thread that writes the rows.
    pub(super) fn tell(self, changed: &Condvar) {
        let Noted(()) = self;
        changed.notify_all();
    }
}

impl MayReport {
    /// Returns whether the line may be logged. Else the thread that writes the rows is woken.
    pub(super) fn tell(self, changed: &Condvar) -> bool
        ensures { IsTrue result ↔ (self ≡ Logged) }
    {
        match self {
            MayReport::Logged => true,
            MayReport::Counted(noted) => {
                noted.tell(changed);
                false
            }
        }
    }
}

impl State {
    /// Nothing was refused or left out.
    pub(super) fn new(alloc: Global) -> Result<State, AllocError>
        ensures { IfOk result IsEmpty }
    {
        Ok(State {
            tallies: [Tally::new(); Refusal::COUNT],
            requests: RefusedRequests::new(alloc)?,
            rates: LineRates::new(alloc)?,
            unlogged: [Tally::new(); 12],
            unlogged_accounts: Tally::new(),
            moment: None,
            is_closed: false,
        })
    }

    /// Counts a refusal, if it is counted without its peer.
    pub(super) fn count(&mut self, why: Refusal) -> Noted
        ensures counted { IfSome (place_of_refusal why) (λ place. CountsAt self.old.tallies self.new.tallies place) }
        ensures with_peer { IfNone (place_of_refusal why) (self.new ≡ self.old) }
        ensures same { self.new ≡ record self.old { tallies = self.new.tallies } }
    {
        if let Some(place) = why.place() {
            self.tallies[place].add();
        }
        Noted(())
    }

    /// Counts a peer that was refused and stays until this moment.
    pub(super) fn count_peer(&mut self, why: Refusal, peer: SocketAddr, until: u64) -> Noted
        ensures counted { IfSome (place_of_refusal why) (λ place. CountsAt self.old.tallies self.new.tallies place) }
        ensures with_peer { IfNone (place_of_refusal why) (self.new ≡ record self.old { requests = self.new.requests; moment = sooner_of self.old.moment (Some until) }) }
        ensures same { IfSome (place_of_refusal why) (λ place. self.new ≡ record self.old { tallies = self.new.tallies; moment = sooner_of self.old.moment (Some until) }) }
        ensures request { IfNone (place_of_refusal why) (Counts self.old.requests self.new.requests subjects.NoMount statuses.ServiceUnavailable peer) }
    {
        if why.place().is_none() {
            let status = Status::ServiceUnavailable;
            self.requests.add(Subject::NoMount, status, peer);
        }
        self.moment = sooner(self.moment, Some(until));
        self.count(why)
    }

    /// Sets a moment at which something else is due.
    pub(super) fn wake_at(&mut self, moment: u64) -> Noted
        ensures { self.new ≡ record self.old { moment = sooner_of self.old.moment (Some moment) } }
    {
        self.moment = sooner(self.moment, Some(moment));
        Noted(())
    }

    /// Counts a request of this peer that was refused with this status.
    pub(super) fn count_request(
        &mut self,
        subject: Subject,
        status: Status,
        peer: SocketAddr,
    ) -> Noted
        ensures counted { Counts self.old.requests self.new.requests subject.entry status peer }
        ensures same { self.new ≡ record self.old { requests = self.new.requests } }
    {
        self.requests.add(subject, status, peer);
        Noted(())
    }

    /// Whether a line may report an end of this kind, of a connection of this address. One of more than ten in a second is counted
    /// instead.
    pub(super) fn report_end(&mut self, place: usize, address: Address, now: u64) -> MayReport
        requires { place < 12 }
        ensures known { IfSome (place_in address self.old.rates.known) (λ at. IsSomeAnd (slice_get self.old.rates.known at) (λ known. result ≡ Logged ↔ MayTell known.rate now)) }
        ensures told { result ≡ Logged → TellsAddress self.old.rates self.new.rates address now true }
        ensures left_out { (result ≡ Logged → ⊥) → TellsAddress self.old.rates self.new.rates address now false }
        ensures logged { result ≡ Logged → self.new.unlogged ≡ self.old.unlogged }
        ensures same { self.new ≡ record self.old { rates = self.new.rates; unlogged = self.new.unlogged } }
        ensures counted { (result ≡ Logged → ⊥) → CountsAt self.old.unlogged self.new.unlogged place }
    {
        if self.rates.tell(address, now) {
            return MayReport::Logged;
        }
        self.unlogged[place].add();
        MayReport::Counted(Noted(()))
    }

    /// Whether a line may report an account of a connection whose accounts have this rate. One of more than ten in a second is
    /// counted instead.
    pub(super) fn report_account(&mut self, rate: &mut LineRate, now: u64) -> MayReport
        ensures allowed { result ≡ Logged ↔ MayTell rate.old now }
        ensures logged { result ≡ Logged → self.new ≡ self.old }
        ensures counted { (result ≡ Logged → ⊥) → self.new ≡ record self.old { unlogged_accounts = record self.old.unlogged_accounts { count = capped (self.old.unlogged_accounts.count + 1) } } }
    {
        if rate.tell(now) {
            return MayReport::Logged;
        }
        self.unlogged_accounts.add();
        MayReport::Counted(Noted(()))
    }

    /// Nothing is refused any more.
    pub(super) fn close(&mut self) -> Noted
        ensures { self.new ≡ record self.old { is_closed = true } }
    {
        self.is_closed = true;
        Noted(())
    }

    /// What is due at this moment. If nothing is refused any more, what was counted is reported at once.
    pub(super) fn next(&mut self, now: u64) -> Option<Due>
        ensures moment { IsSomeAnd self.old.moment (λ moment. moment ≤ now) → (result ≡ Some dues.Moment) × (self.new ≡ record self.old { moment = None }) }
        ensures set { result ≡ Some dues.Moment → IsSomeAnd self.old.moment (λ moment. moment ≤ now) }
        ensures end { result ≡ Some dues.End → (self.old.is_closed ≡ true) × (self.new.moment ≡ None) × NothingDue self.new (2 ^ 64 - 1) }
        ensures ended { result ≡ Some dues.End → self.new ≡ without_old self.old (2 ^ 64 - 1) }
        ensures row { IfRow result (TellsRow self.old self.new (reported_at self.old now)) }
        ensures none { IfNone result (NothingDue self.new now × (self.new ≡ without_old self.old (reported_at self.old now))) }
        ensures waits { IfNone result (self.old.is_closed ≡ true → IsSome self.old.moment) }
    {
        if self.moment.is_some_and(|moment| moment <= now) {
            self.moment = None;
            return Some(Due::Moment);
        }
        let reported_at = if self.is_closed { u64::MAX } else { now };
        if let Some(row) = self.row(reported_at) {
            return Some(Due::Row(row));
        }
        if self.is_closed && self.moment.is_none() {
            return Some(Due::End);
        }
        None
    }

    /// The next row that is due at this moment.
    fn row(&mut self, now: u64) -> Option<RefusalRow>
        ensures row { IfSome result (TellsRow self.old self.new now) }
        ensures none { IfNone result (NothingDue self.new now × (self.new ≡ without_old self.old now)) }
    {
        if let Some((place, count)) = tell_first(self.tallies.as_mut_slice(), now) {
            return Some(RefusalRow::Peers(Refusal::at(place), count));
        }
        if let Some(line) = self.requests.tell(now) {
            return Some(RefusalRow::Requests(line));
        }
        if let Some((place, count)) = tell_first(self.unlogged.as_mut_slice(), now) {
            return Some(RefusalRow::Ends(ENDS[place], count));
        }
        let count = self.unlogged_accounts.tell(now)?;
        Some(RefusalRow::Accounts(count))
    }

    /// When something is due next.
    pub(super) fn due(&self) -> Option<u64>
        ensures { result ≡ first_due_of_all self.now }
    {
        let unlogged = sooner(
            first_due(self.unlogged.as_slice()),
            self.unlogged_accounts.due(),
        );
        let peers = sooner(first_due(self.tallies.as_slice()), unlogged);
        sooner(self.moment, sooner(self.requests.due(), peers))
    }
}
