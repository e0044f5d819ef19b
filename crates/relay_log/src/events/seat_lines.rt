//! Lines that report a player as it takes a seat and leaves it.
use crate::events::Events;
use crate::reports::ReportedSeat;
use log::{info, warn};
use mount_signals::MountSignal;
use pacing::Start;
use relay_accounts::{Part, SeatAccount};
use std::alloc::Global;
use std::sync::{Arc, Wait};
use std::time::Clock;

/// The source that lines are logged with.
const TARGET: &str = "relay_server::events";

impl<R: Wait + Clock> Events<R> {
    /// The connection, which has this part in the mount of this number, plays from this seat of it since this moment, in milliseconds.
    pub fn plays(
        &self,
        rt: &R,
        alloc: Global,
        mount: u64,
        part: &Option<Part>,
        seat: usize,
        signal: &Arc<MountSignal, Global>,
        now: u64,
    ) {
        let Some(teller) = &self.teller else {
            return;
        };
        let Some(part) = part else {
            teller.lines.miss();
            return;
        };
        let peer = teller.peer;
        let name = part.name.as_slice();
        if let Some(reports) = &teller.reports {
            let seat = ReportedSeat {
                peer,
                mount,
                name,
                seat,
                signal,
            };
            if reports
                .player_begins(rt, alloc, teller.conn, now, seat)
                .is_err()
            {
                teller.lines.miss();
            }
        }
        if teller.is_verbose {
            info!(teller.lines; target: TARGET, "{peer}: plays {} from seat {seat}", name.escape_ascii());
        }
    }

    /// The connection, which has this part in its mount, starts with fewer packets than those of the last `milliseconds`, as the
    /// first player of that mount. At most ten such lines are logged in a second.
    pub fn shortened(&mut self, rt: &R, part: Option<&Part>, milliseconds: u64, start: &Start) {
        let (Some(teller), Some(part)) = (&self.teller, part) else {
            return;
        };
        if !self.starts.tell(teller.refusing.now(rt)) {
            return;
        }
        let Start { packets, wanted } = *start;
        warn!(teller.lines; target: TARGET, "mount {}: players start with {packets} packets, half of --keep, and not with the {wanted} of the last {milliseconds} ms", part.name.as_slice().escape_ascii());
    }

    /// The connection gives up its seat: the next report has what it has lost by now, and no later one has it.
    pub fn gives_up_seat(&self, rt: &R, account: &SeatAccount) {
        let Some(teller) = &self.teller else {
            return;
        };
        if let Some(reports) = &teller.reports {
            reports.player_leaves(rt, teller.conn, account);
        }
    }

    /// The connection has left this seat with this account, which was `left` when it gave the seat up.
    pub fn leaves(
        &self,
        rt: &R,
        part: &Option<Part>,
        seat: usize,
        left: &SeatAccount,
        account: &SeatAccount,
    ) {
        let Some(teller) = &self.teller else {
            return;
        };
        if let (Some(reports), Some(part)) = (&teller.reports, part) {
            reports.seat_is_settled(rt, part.name.as_slice(), left, account);
        }
        let peer = teller.peer;
        match part {
            Some(part) if teller.is_verbose => {
                info!(teller.lines; target: TARGET, "{peer}: leaves seat {seat} of {}: {account}", part.name.as_slice().escape_ascii())
            }
            Some(_) => {}
            None => teller.lines.miss(),
        }
    }
}
