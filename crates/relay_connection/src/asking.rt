//! How a connection's requests are decided.
ghost use Rattle.std.specs.Prelude.{◌≡◌};

use crate::asked::Asked;
use crate::frame_notes::{FrameNotes, Publishing};
use crate::serving::Connection;
use admission::Gate;
use base_syntax::Items;
use interleaved::Sink;
use mount_signals::{MountSignal, WakeSignal};
use pacing::Back;
use relay_fanout::{Busy, Maker, MountFeed, Offer, Seat};
use rtsp_message::Request;
use session_lock::{Answer, Copies, Retired};
use session_state::{Given, Method, Moments, Words, read_method};
use sockets::HangUp;
use std::alloc::{AllocError, Global};
use std::sync::{Arc, Wait};
use std::thread::Threads;
use std::time::Clock;
use transport_header::Point;

/// The book has no answer, or there was no memory or no offer to ask it with.
#[derive(Debug, Drop)]
pub(crate) struct NoAnswer;

impl From<AllocError> for NoAnswer {
    ghost from_gives = { λ _ answer. answer ≡ record {} };

    fn from(_refused: AllocError) -> NoAnswer {
        NoAnswer
    }
}

impl From<Busy> for NoAnswer {
    ghost from_gives = { λ _ answer. answer ≡ record {} };

    fn from(_busy: Busy) -> NoAnswer {
        NoAnswer
    }
}

/// An answer, and with an ANNOUNCE the feed of the mount that it has opened.
pub(crate) type Answered<R, M> = (
    Answer<Seat<<M as Maker>::Pass>>,
    Option<Publishing<R, MountFeed<R, <M as Maker>::In>>>,
);

impl<R, M, V, G, W, H, N> Connection<R, M, V, G, W, H, N>
where
    R: Threads + Wait + Clock + Copy + Send + 'static,
    M: Maker + Drop,
    M::Out: 'static,
    V: Words + Drop,
    G: Gate + Drop,
    W: Sink + Drop + Send + 'static,
    H: HangUp + Drop + Send + Sync + 'static,
    N: Moments + Drop,
{
    /// Has the book decide a request that comes at this moment. With an ANNOUNCE that is accepted comes the feed of its mount.
    pub(crate) fn ask(&mut self, request: &Request, now: u64) -> Result<Answered<R, M>, NoAnswer> {
        let rt = self.rt;
        self.shared.gate.pass(self.conn, self.turns);
        self.turns = self.turns.saturating_add(1);
        let mut given = Given {
            word: self.shared.words.lock(&rt).word(),
            points: Items::empty(self.alloc),
            now,
        };
        match read_method(request.method.as_slice()) {
            Some(Method::Announce) => self.ask_to_publish(request, &given),
            Some(Method::Play) => {
                given.points = self.points()?;
                self.ask_plainly(request, &given)
            }
            _ => self.ask_plainly(request, &given),
        }
    }

    /// Asks with nothing offered.
    fn ask_plainly(
        &mut self,
        request: &Request,
        given: &Given,
    ) -> Result<Answered<R, M>, NoAnswer> {
        match self.ask_book(request, given, None) {
            Ok(answer) => Ok((answer, None)),
            Err(_) => Err(NoAnswer),
        }
    }

    /// Asks with an offer. What opened no mount of it is the next one's.
    fn ask_to_publish(
        &mut self,
        request: &Request,
        given: &Given,
    ) -> Result<Answered<R, M>, NoAnswer> {
        let wake_signal = Arc::try_clone(&self.shared.wake_signal)?;
        let watch = Arc::try_clone(self.clock.watch())?;
        let Offer {
            feed,
            signal,
            seats,
        } = self.offer()?;
        // Before the book is asked: what it has opened has a feed.
        let Ok(noted) = Arc::try_clone(&signal) else {
            let _ = self.settle(feed, signal, Some(seats), wake_signal);
            return Err(NoAnswer);
        };
        let (answer, back) = self.ask_with_seats(request, given, seats);
        let mount_feed = self.settle(feed, signal, back, wake_signal);
        let notes = FrameNotes {
            rt: self.rt,
            watch,
            signal: noted,
        };
        Ok((answer?, mount_feed.map(|feed| Publishing { feed, notes })))
    }

    /// Asks with these seats. What isn't used of them comes back.
    fn ask_with_seats(
        &mut self,
        request: &Request,
        given: &Given,
        seats: Vec<Seat<M::Pass>>,
    ) -> (
        Result<Answer<Seat<M::Pass>>, NoAnswer>,
        Option<Vec<Seat<M::Pass>>>,
    ) {
        match self.ask_book(request, given, Some(seats)) {
            Ok(mut answer) => {
                let back = answer.back.take();
                (Ok(answer), back)
            }
            Err(back) => (Err(NoAnswer), back),
        }
    }

    /// The feed of the mount that took the seats. Where they came back it is the next one's with them.
    fn settle(
        &self,
        feed: M::In,
        signal: Arc<MountSignal, Global>,
        back: Option<Vec<Seat<M::Pass>>>,
        wake_signal: Arc<WakeSignal, Global>,
    ) -> Option<MountFeed<R, M::In>> {
        let Some(seats) = back else {
            self.shared.offers.leave(&self.rt);
            let keep = self.shared.maker.keep();
            return Some(MountFeed::new(self.rt, feed, signal, wake_signal, keep));
        };
        let offer = Offer {
            feed,
            signal,
            seats,
        };
        self.shared.offers.put(&self.rt, offer);
        None
    }

    /// What an ANNOUNCE offers: what another one offered in vain, or a new one.
    fn offer(&self) -> Result<Offer<M>, NoAnswer> {
        if let Some(kept) = self.shared.offers.take(&self.rt)? {
            return Ok(kept);
        }
        match Offer::make(self.alloc, &self.shared.maker, &self.shared.wake_signal) {
            Ok(made) => Ok(made),
            Err(_) => {
                self.shared.offers.leave(&self.rt);
                Err(NoAnswer)
            }
        }
    }

    /// Asks the book, and learns how the session is after that. Without an answer what was offered comes back. The request is copied
    /// before the lock, which one connection so has for less time.
    fn ask_book(
        &mut self,
        request: &Request,
        given: &Given,
        offer: Option<Vec<Seat<M::Pass>>>,
    ) -> Result<Answer<Seat<M::Pass>>, Option<Vec<Seat<M::Pass>>>> {
        let Ok(copies) = Copies::of(self.alloc, request, given) else {
            return Err(offer);
        };
        let (asked, retired) = self.ask_locked(copies, offer);
        // It may be the last to hold the descriptions of many mounts that have ended.
        drop(retired);
        self.note_asked(asked)
    }

    /// Asks the book under its lock, which is free when this returns: so what the book has cut off is dropped without it.
    fn ask_locked(
        &self,
        copies: Copies,
        offer: Option<Vec<Seat<M::Pass>>>,
    ) -> (Asked<Seat<M::Pass>>, Option<Retired>) {
        let mut book = self.shared.book.lock(&self.rt);
        let asked = Asked::ask(
            &mut book,
            self.alloc,
            self.conn,
            copies,
            offer,
            &self.session,
        );
        (asked, book.retired())
    }

    /// The points of the tracks of the session's mount: none if players begin with packets from before.
    fn points(&self) -> Result<Items<Option<Point>>, AllocError> {
        let starts_at_end = matches!(
            self.shared.maker.back(),
            Back::Packets(0) | Back::Milliseconds(0)
        );
        match &self.session {
            Some(session) if starts_at_end => self
                .shared
                .recording
                .points(&self.rt, self.alloc, session.mount),
            _ => Ok(Items::empty(self.alloc)),
        }
    }
}
