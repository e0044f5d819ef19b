//! How often peers and requests were refused and lines left out, and when that is reported.
mod state;

ghost use Rattle.std.specs.Prelude.{◌≡◌};
ghost use Rattle.std.specs.Arc.{arc_value};

use crate::counted::counted;
use crate::due::Due;
use crate::end_kinds::place_of;
use crate::line_rate::LineRate;
use crate::subject::Subject;
use relay_accounts::ConnectionEnd;
use rtsp_message::Status;
use server_counts::{Refusal, ServerCounts};
use sockets::SteadyClock;
use state::State;
use std::alloc::{AllocError, Global};
use std::net::SocketAddr;
use std::sync::{Arc, Condvar, CondvarTimeouts, Mutex, Wait};
use std::time::{Clock, Duration};

/// How many peers and requests were refused since that was logged, and how many ends and accounts weren't logged. Each refusal is
/// among the counts of the server, too.
///
/// Any thread counts, and one thread writes the rows. The same thread does what is due at a moment that is set with a refusal. The
/// lock is held for a change of the list alone, and under it only the clock's is taken, for one reading.
pub struct Refusing {
    state: Mutex<State>,
    changed: Condvar,
    /// The clock of all moments here.
    clock: Mutex<SteadyClock>,
    counts: Arc<ServerCounts, Global>,
}

impl Drop for Refusing {
    fn drop(self) {
        let Refusing {
            state: _,
            changed: _,
            clock: _,
            counts: _,
        } = self;
    }
}

impl Refusing {
    /// None was refused, of a server that counts here.
    pub fn new<R: Clock>(
        rt: &R,
        alloc: Global,
        counts: Arc<ServerCounts, Global>,
    ) -> Result<Refusing, AllocError> {
        Ok(Refusing {
            state: Mutex::new(State::new(alloc)?),
            changed: Condvar::new(),
            clock: Mutex::new(SteadyClock::new(rt)),
            counts,
        })
    }

    /// Returns how many milliseconds have passed since it was made. If the clock can't be read each moment has come, so that no
    /// refused peer stays for ever.
    pub fn now<R: Wait + Clock>(&self, rt: &R) -> u64 {
        let reading = self.clock.lock(rt).read(rt);
        if reading.is_read {
            reading.milliseconds()
        } else {
            u64::MAX
        }
    }

    /// Returns the counts of the server.
    pub fn counts(&self) -> &ServerCounts
        ensures { result.now ≡ arc_value self.now.counts }
    {
        &self.counts
    }

    /// Counts a refusal.
    pub fn count(&self, rt: &impl Wait, why: Refusal) {
        self.counts.refuse(why);
        let noted = self.state.lock(rt).count(why);
        noted.tell(&self.changed);
    }

    /// Counts a peer that was refused and stays until this moment, at which `next` returns.
    pub fn count_peer(&self, rt: &impl Wait, why: Refusal, peer: SocketAddr, until: u64) {
        self.counts.refuse(why);
        let noted = self.state.lock(rt).count_peer(why, peer, until);
        noted.tell(&self.changed);
    }

    /// `next` returns at this moment, if nothing is due before.
    pub fn wake_at(&self, rt: &impl Wait, moment: u64) {
        let noted = self.state.lock(rt).wake_at(moment);
        noted.tell(&self.changed);
    }

    /// Counts a request that was refused with this status, among the counts of the server alone.
    pub(crate) fn count_status(&self, status: Status) {
        self.counts.refuse_request(status);
    }

    /// Counts a request of this peer that was refused with this status, on a mount of this name or on a name that none has, for the
    /// rows.
    pub(crate) fn count_request(
        &self,
        rt: &impl Wait,
        name: Option<&[u8]>,
        status: Status,
        peer: SocketAddr,
    ) {
        let subject = match name {
            Some(name) => Subject::Mount(name),
            None => Subject::Others,
        };
        let noted = self.state.lock(rt).count_request(subject, status, peer);
        noted.tell(&self.changed);
    }

    /// Whether a line may report how a connection of this peer ended. One of more than ten in a second is counted instead.
    pub fn may_report_end<R: Wait + Clock>(
        &self,
        rt: &R,
        peer: SocketAddr,
        end: ConnectionEnd,
    ) -> bool {
        let Some(place) = place_of(end) else {
            return true;
        };
        let now = self.now(rt);
        let address = counted(peer.ip());
        let may_report = self.state.lock(rt).report_end(place, address, now);
        may_report.tell(&self.changed)
    }

    /// Whether a line may report a session's account of a connection that goes on, whose accounts have this rate. One of more than
    /// ten in a second is counted instead.
    pub(crate) fn may_report_account<R: Wait + Clock>(&self, rt: &R, rate: &mut LineRate) -> bool {
        let now = self.now(rt);
        let may_report = self.state.lock(rt).report_account(rate, now);
        may_report.tell(&self.changed)
    }

    /// Nothing is refused any more.
    pub fn end(&self, rt: &impl Wait) {
        let noted = self.state.lock(rt).close();
        noted.tell(&self.changed);
    }

    /// Waits until something is due, and returns it.
    pub fn next<R: Wait + Clock>(&self, rt: &R) -> Due {
        let mut state = self.state.lock(rt);
        for _ in rt.forever() {
            let now = self.now(rt);
            if let Some(next) = state.next(now) {
                return next;
            }
            state = match state.due() {
                Some(due) => {
                    let rest = Duration::from_millis(due.saturating_sub(now));
                    self.changed.wait_timeout(rt, state, rest).0
                }
                None => self.changed.wait(rt, state),
            };
        }
        unreachable!()
    }
}
