//! The accounts of a connection: of each seat that it has left, and of each session.
use crate::serving::Connection;
use admission::Gate;
use cursor::Left;
use interleaved::Sink;
use relay_accounts::{Handover, Part, SeatAccount};
use relay_fanout::Maker;
use session_state::{Moments, Words};
use sockets::HangUp;
use std::sync::Wait;
use std::thread::Threads;
use std::time::Clock;

/// A seat that was left, with its account and what was made of the packets that were taken from it.
#[derive(Drop)]
pub(crate) struct LeftSeat {
    seat: usize,
    left: Left,
    handover: Handover,
    /// Its account as it was when it was left.
    at_leaving: SeatAccount,
}

/// A seat's player was taken off the reports. Nothing else makes it, so that the seat goes back to the book, where another player
/// may take it, after that.
#[derive(Drop)]
pub(crate) struct SeatLeft(());

impl<R, M, V, G, W, H, N> Connection<R, M, V, G, W, H, N>
where
    R: Threads + Wait + Clock + Copy + Send + 'static,
    M: Maker + Drop,
    M::Out: 'static,
    V: Words + Drop,
    G: Gate + Drop,
    W: Sink + Drop + Send + 'static,
    H: HangUp + Drop + Send + Sync + 'static,
    N: Moments + Drop,
{
    /// A seat was left. Its account closes when none of its frames waits for the socket: the next reply is written after them.
    pub(crate) fn leave_seat(&mut self, seat: usize, left: Left, handover: Handover) -> SeatLeft {
        let taken = self.player.writing.taken(&self.rt);
        let handed = handover.handed(taken);
        let waits = handed != handover.handed(u64::MAX);
        // Before another player has the seat. What was lost doesn't change any more.
        let account = SeatAccount::of(&left, handed, self.shared.maker.keep());
        self.events.gives_up_seat(&self.rt, &account);
        self.left = Some(LeftSeat {
            seat,
            left,
            handover,
            at_leaving: account,
        });
        if !waits {
            self.settle_seat();
        }
        SeatLeft(())
    }

    /// Closes the account of the seat that was left last, by what the socket has taken by now, and logs it.
    pub(crate) fn settle_seat(&mut self) {
        let Some(
            LeftSeat {
                seat,
                left,
                handover,
                at_leaving,
            },
        ) = self.left.take()
        else {
            return;
        };
        let taken = self.player.writing.taken(&self.rt);
        let account = SeatAccount::of(&left, handover.handed(taken), self.shared.maker.keep());
        self.counts.add_out(&account);
        self.events
            .leaves(&self.rt, &self.part, seat, &at_leaving, &account);
    }

    /// A session begins, in which the connection has this part. It has an account of its own.
    pub(crate) fn begin_account(&mut self, part: Option<Part>) {
        self.close_account();
        self.part = part;
        self.has_account = true;
        self.is_stranded = false;
    }

    /// Logs the account of a session that has ended, if it isn't logged yet.
    pub(crate) fn close_account(&mut self) {
        if !self.has_account {
            return;
        }
        self.settle_seat();
        self.has_account = false;
        let counts = self.counts.end();
        self.events.account(&self.rt, self.part.as_ref(), &counts);
    }
}
