//! What a try sends.
ghost use Rattle.std.specs.Prelude.{◌≡◌, ℕ, List, OnErr, OnOk, drop, length, min};
ghost use Rattle.outgoing.specs.Queues.{bytes_waiting};
ghost use Rattle.rtsp_client.specs.Table.{side_of};
ghost use Rattle.rtsp_client.specs.declared.asked.Side.TheVariants.{Source, Target};
ghost use Rattle.pull_session.specs.Asks.{IsForTarget, PutsRequests};
ghost use Rattle.pull_session.specs.Passing.{TakesBytes};

use crate::limits::MOST_ASKS;
use crate::offer::Offer;
use crate::reason::Reason;
use crate::session::PullSession;
use crate::unsent::{Unsent, login_unsent, reason_of, text_unsent};
use client_requests::{ClientRequest, Places};
use outgoing::Outgoing;
use rtsp_auth::Request;
use rtsp_client::{Ask, Asked, Method, Side};
use source_sdp::AnnounceError;

impl PullSession {
    /// Time passes to this moment: requests that are due are sent, and the try ends if a reply, a frame or the target is late.
    #[tactic(auto, using(crate::proofs::Putting::puts_same, crate::proofs::Putting::puts_more))]
    pub fn advance(&mut self, now: u64)
        ensures target { PutsRequests self.old.mount self.old.target.waiting self.new.target.waiting }
        ensures mount { self.new.mount ≡ self.old.mount }
    {
        self.look_at_time(now);
        self.ask_all(now);
        self.look_at_target(now);
    }

    /// Looks at whether bytes wait for the target.
    fn look_at_target(&mut self, now: u64)
        ensures target { self.new.target ≡ self.old.target }
        ensures mount { self.new.mount ≡ self.old.mount }
    {
        let some = !self.target_line.waiting.waiting().is_empty();
        self.watch.waits(some, false, now);
    }

    /// Sends the requests that are due.
    fn ask_all(&mut self, now: u64)
        ensures target { PutsRequests self.old.mount self.old.target.waiting self.new.target.waiting }
        ensures mount { self.new.mount ≡ self.old.mount }
    {
        for _ in 0..MOST_ASKS {
            if !self.ask_one(now) {
                return;
            }
        }
    }

    /// Sends a request if one is due. Returns whether one was.
    #[tactic(auto, using(crate::proofs::Putting::puts_none, crate::proofs::Putting::puts_same))]
    fn ask_one(&mut self, now: u64) -> bool
        ensures target { PutsRequests self.old.mount self.old.target.waiting self.new.target.waiting }
        ensures mount { self.new.mount ≡ self.old.mount }
    {
        let Some(ask) = self.client.next(now) else {
            return false;
        };
        self.send(&ask, now);
        true
    }

    /// The system took this number of a side's waiting bytes at this moment, at most all.
    pub fn took(&mut self, side: Side, count: usize, now: u64)
        ensures source { side ≡ Source → bytes_waiting self.new.source.waiting ≡ drop (min count (length (bytes_waiting self.old.source.waiting))) (bytes_waiting self.old.source.waiting) }
        ensures others { side ≡ Source → (self.new.target ≡ self.old.target) × (self.new.client ≡ self.old.client) }
        ensures watch { side ≡ Source → self.new.watch ≡ self.old.watch }
        ensures target { side ≡ Target → TakesBytes (min count (length (bytes_waiting self.old.target.waiting))) now self.old self.new }
        ensures mount { self.new.mount ≡ self.old.mount }
    {
        match side {
            Side::Source => {
                let count = count.min(self.source_line.waiting.waiting().len());
                let _ = self.source_line.waiting.took(count);
            }
            Side::Target => {
                let count = count.min(self.target_line.waiting.waiting().len());
                let frames = self.target_line.waiting.took(count);
                self.client.sent(frames, now);
                let some = !self.target_line.waiting.waiting().is_empty();
                self.watch.waits(some, count > 0, now);
            }
        }
    }

    /// Ends the try if something is late.
    fn look_at_time(&mut self, now: u64)
        ensures source { self.new.source ≡ self.old.source }
        ensures target { self.new.target ≡ self.old.target }
        ensures mount { self.new.mount ≡ self.old.mount }
    {
        if !self.may_read_source() {
            self.watch.skips(now);
        }
        let _ = self.client.ticks(Side::Target, now);
        // A reply that is there and isn't read isn't late, but that of a keepalive ends nothing, and the next one has to go out.
        if self.watch.has_read(now) || matches!(self.last_asked, Some(Asked::KeepAlive(_))) {
            let _ = self.client.ticks(Side::Source, now);
        }
        if self.watch.is_closing() {
            return;
        }
        let milliseconds = self.options.silent;
        if self.watch.is_stalled(now) {
            self.leave(Reason::TargetStalled, now);
        } else if self.watch.is_silent(now, milliseconds) {
            self.leave(Reason::Silent { milliseconds }, now);
        }
    }

    /// Sends a request.
    #[tactic(auto, using(crate::proofs::Putting::puts_none, crate::proofs::Putting::puts_same))]
    fn send(&mut self, ask: &Ask, now: u64)
        ensures target { PutsRequests self.old.mount self.old.target.waiting self.new.target.waiting }
        ensures mount { self.new.mount ≡ self.old.mount }
    {
        match self.put(ask) {
            Ok(()) => self.note(ask, now),
            Err(fault) => self.fail(reason_of(fault, ask.asked), ask.side),
        }
    }

    /// Notes that a request was put.
    fn note(&mut self, ask: &Ask, now: u64)
        ensures source { self.new.source ≡ self.old.source }
        ensures target { self.new.target ≡ self.old.target }
        ensures mount { self.new.mount ≡ self.old.mount }
    {
        if ask.asked.side() == Side::Source {
            self.last_asked = Some(ask.asked);
        }
        if ask.asked == Asked::Play {
            self.watch.hears(now);
            if !ask.is_repeat {
                self.notes.begin();
            }
        }
    }

    /// Writes a request to what waits for its side.
    #[tactic(auto, using(crate::proofs::Putting::puts_none, crate::proofs::Putting::puts_same))]
    fn put(&mut self, ask: &Ask) -> Result<(), Unsent>
        ensures target { PutsRequests self.old.mount self.old.target.waiting self.new.target.waiting }
        ensures mount { self.new.mount ≡ self.old.mount }
    {
        if ask.asked == Asked::Announce {
            self.describe_target()?;
        }
        match ask.asked.side() {
            Side::Source => self.put_to_source(ask),
            Side::Target => self.put_to_target(ask),
        }
    }

    /// Makes the description that is announced.
    fn describe_target(&mut self) -> Result<(), Unsent>
        ensures { self.new ≡ self.old }
    {
        let Some(offer) = &mut self.offer else {
            return Err(Unsent::Announce(AnnounceError::NoTrack));
        };
        match offer.announce(self.alloc, &self.client) {
            Ok(()) => Ok(()),
            Err(AnnounceError::OutOfMemory) => Err(Unsent::OutOfMemory),
            Err(fault) => Err(Unsent::Announce(fault)),
        }
    }

    /// Writes a request to the source.
    fn put_to_source(&mut self, ask: &Ask) -> Result<(), Unsent>
        ensures target { self.new.target ≡ self.old.target }
        ensures mount { self.new.mount ≡ self.old.mount }
    {
        let places = places_of(
            self.place.uri.as_slice(),
            self.target.uri.as_slice(),
            &self.offer,
            ask,
        );
        let Ok(request) = ClientRequest::of(self.alloc, ask, places) else {
            return Err(Unsent::OutOfMemory);
        };
        let name = request.method().name();
        let of = Request {
            method: name,
            uri: request.uri(),
            host: self.place.host.as_slice(),
        };
        let authorization = self.login.authorization(self.alloc, &of, ask.is_repeat);
        let authorization = authorization.map_err(login_unsent)?;
        let value = match &authorization {
            Some(value) => Some(value.as_slice()),
            None => None,
        };
        let text = request.text(self.client.session(Side::Source), value);
        let put = self.source_line.waiting.put_request(&text);
        put.map_err(text_unsent)?;
        match self.login.keep(self.alloc, name, request.uri()) {
            Ok(()) => Ok(()),
            Err(_) => Err(Unsent::OutOfMemory),
        }
    }

    /// Writes a request to the target.
    fn put_to_target(&mut self, ask: &Ask) -> Result<(), Unsent>
        requires { side_of ask.now.asked ≡ Target }
        ensures put { OnOk result (PutsRequests self.old.mount self.old.target.waiting self.new.target.waiting) }
        ensures none { OnErr result (self.new.target ≡ self.old.target) }
        ensures mount { self.new.mount ≡ self.old.mount }
    {
        let places = places_of(
            self.place.uri.as_slice(),
            self.target.uri.as_slice(),
            &self.offer,
            ask,
        );
        let Ok(request) = ClientRequest::of(self.alloc, ask, places) else {
            return Err(Unsent::OutOfMemory);
        };
        let session = self.client.session(Side::Target);
        put_to(&mut self.target_line.waiting, &request, session)
    }
}

/// Appends a request without Authorization to what waits.
fn put_to<'a>(
    waiting: &mut Outgoing,
    request: &'a ClientRequest<'_>,
    session: Option<&'a [u8]>,
) -> Result<(), Unsent>
    ensures put { (mount : List ℕ) → IsForTarget mount request.now → OnOk result (PutsRequests mount waiting.old waiting.new) }
    ensures none { OnErr result (waiting.new ≡ waiting.old) }
{
    let text = request.text(session, None);
    match waiting.put_request(&text) {
        Ok(()) => Ok(()),
        Err(fault) => Err(text_unsent(fault)),
    }
}

/// Returns where requests go.
fn places_of<'a>(
    source: &'a [u8],
    target: &'a [u8],
    offer: &'a Option<Offer>,
    ask: &Ask,
) -> Places<'a>
    ensures { result.target.now ≡ target.now }
{
    let track = match ask.method {
        Method::SetUp { track, .. } => track,
        _ => 0,
    };
    match offer {
        Some(offer) => Places {
            source,
            session: offer.session(),
            track: offer.track(track),
            target,
            description: offer.announced(),
        },
        None => Places {
            source,
            session: source,
            track: source,
            target,
            description: b"",
        },
    }
}
