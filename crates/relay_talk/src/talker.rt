//! One connection with its book: what it is answered, and what it publishes.
ghost use Rattle.std.specs.Prelude.{◌≡◌, ◌≤◌, ◌<◌, ◌+◌, true, None, Some, length, IfOk, IfSome, IfNone, IsSomeAnd, MatchBool};
ghost use Rattle.std.specs.Option.{option_flatten, option_map};
ghost use Rattle.rtsp_message.specs.Intakes.{handed, weight};
ghost use Rattle.rtsp_message.specs.Reply.{reply_text};
ghost use Rattle.session_state.specs.Lookups.{is_open};
ghost use Rattle.session_state.specs.Methods.{method_of};
ghost use Rattle.session_state.specs.declared.method.Method.TheVariants.{Announce};
ghost use Rattle.session_lock.specs.Books.{IsOffer};
ghost use Rattle.publisher.specs.Fates.{total};
ghost use Rattle.publisher.specs.FramesIn.{answer_of};
ghost use Rattle.relay_talk.specs.Exchange.{IsAnswer, IsAnswered, IsExpired, IsLeft, IsSettled, busy, given_with, heard_at, opening};
ghost use Rattle.relay_talk.specs.Publishing.{AnswersPublishing, DoesPublishing, ExpiresPublishing, Fetches, IsNewRing, IsRecording, PublishesFrames, publishing_after};
ghost use Rattle.relay_talk.specs.Seat.{PassAfterAnswer, PassAfterExpiry, PassAfterLeave, PassAfterReply, PassGoesBack, SeatAfterAnswer, SeatAfterExpiry, SeatAfterReply, seat_after};
ghost use Rattle.relay_talk.specs.Taking.{TakesStretch};

use base_syntax::Items;
use interleaved::Source;
use packet_ring::{Pass, Publisher};
use publisher::{InReport, InStop, relay_in};
use rtsp_message::{Intake, Next, Reply, Request, Unit, put_reply};
use session_lock::{Answer, Book};
use session_state::{Act, ConnectFault, Given, Method, State, read_method};
use std::alloc::{AllocError, Global};
use std::collections::hash_map::RandomState;
use transport_header::MOST_TRACKS;

/// How many packets a mount keeps for a player that is behind.
const KEEP: usize = 512;

/// Each mount has one seat.
const SEATS: usize = 1;

/// The longest packet, in bytes.
const PACKET_BYTES: usize = 16_384;

/// The connection is the first of its book.
const TALKER: u64 = 1;

/// What goes with a request: the publisher of a ring, and what its book has as the passes of the ring's seats.
type Offer = (Option<Publisher>, Option<Vec<Option<Pass>>>);

/// A connection with a book and rings of its own. Its parts may be looked at, and a second connection may come into its
/// book, which then takes what it publishes.
///
/// What stands in the book as the pass of a seat may be none, so that a seat is given back with what was handed out for
/// it, whatever that was.
pub struct Talker {
    alloc: Global,
    pub book: Book<Option<Pass>>,
    /// What takes in the packets of its mount, from the mount's beginning to its end.
    pub publishing: Option<Publisher>,
    /// The pass of the seat that it plays from.
    pub seat: Option<Pass>,
    /// The moment of its last message, where no frame has come since.
    pub heard: Option<u64>,
}

impl Drop for Talker {
    fn drop(self) {
        let Talker {
            alloc: _,
            book: _,
            publishing: _,
            seat: _,
            heard: _,
        } = self;
    }
}

impl Talker {
    /// Lets the connection come, as the first of its book.
    pub fn connect(alloc: Global, hasher: RandomState) -> Result<Talker, ConnectFault>
        ensures seats { IfOk result (λ talker. talker.book.seats ≡ 1) }
        ensures opens { IfOk result (λ talker. talker.book.history ≡ opening) }
        ensures publishing { IfOk result (λ talker. talker.publishing ≡ None) }
        ensures unheard { IfOk result (λ talker. talker.heard ≡ None) }
    {
        let mut book = Book::new(alloc, SEATS, hasher);
        book.connect()?;
        Ok(Talker {
            alloc,
            book,
            publishing: None,
            seat: None,
            heard: None,
        })
    }

    /// The next message, or why none comes. The frames before it are published while the session records, and else
    /// dropped.
    pub fn next_message<S: Source + Drop>(&mut self, intake: &mut Intake<S>) -> InStop
        requires open { is_open 1 self.old.book.history ≡ true }
        requires seats { self.old.book.seats ≡ 1 }
        ensures takes { TakesStretch S.incoming S.failed self.old.book.history intake.old intake.new self.old.heard self.new.heard self.old.publishing self.new.publishing result }
        ensures published { IsRecording 1 self.old.book.history → IfSome self.old.publishing (λ feed. PublishesFrames S.incoming S.failed self.old.book.history intake.old intake.new feed self.new.publishing result) }
        ensures dropped { ¬ IsRecording 1 self.old.book.history → self.new.publishing ≡ self.old.publishing }
        ensures book { self.new.book ≡ self.old.book }
        ensures seat { self.new.seat ≡ self.old.seat }
        ensures ends { weight S.bound intake.new + length (handed (answer_of result)) ≤ weight S.bound intake.old }
    {
        if let Some(session) = self.book.session_of(TALKER) {
            if session.state == State::Recording {
                if let Some(feed) = &mut self.publishing {
                    let mut points = [None; MOST_TRACKS];
                    let report = relay_in(intake, feed, &session.channels, &mut points);
                    self.heard = heard_after(&report, self.heard);
                    return report.stop;
                }
            }
        }
        skip_frames(intake, &mut self.heard)
    }

    /// A message comes at this moment. Where the session has expired it ends, and its act is carried out. The connection was last
    /// heard by the message before, and now where there was none or a frame has come since.
    pub fn hear(&mut self, now: u64)
        requires seats { self.old.book.seats ≡ 1 }
        requires open { is_open 1 self.old.book.history ≡ true }
        ensures expired { IsExpired self.old.book.history (heard_at self.old.heard now) now self.new.book.history }
        ensures publishing { ExpiresPublishing self.old.book.history (heard_at self.old.heard now) now self.old.publishing self.new.publishing }
        ensures seat { SeatAfterExpiry self.old.book.history (heard_at self.old.heard now) now self.old.seat self.new.seat }
        ensures back { PassAfterExpiry self.old.book (heard_at self.old.heard now) now self.old.seat self.new.book }
        ensures heard { self.new.heard ≡ Some now }
        ensures open { is_open 1 self.new.book.history ≡ true }
        ensures kept { self.new.book.seats ≡ 1 }
    {
        let heard = self.heard.unwrap_or(now);
        self.heard = Some(now);
        let Some(act) = self.book.expire(TALKER, heard, now) else {
            return;
        };
        self.carry_out(act, None, None);
    }

    /// The text of the reply to a request that comes at this moment, with the reply's act carried out. `None` where memory was
    /// refused.
    pub fn reply_bytes(&mut self, word: u32, now: u64, request: &Request) -> Option<Vec<u8>>
        requires seats { self.old.book.seats ≡ 1 }
        requires open { is_open 1 self.old.book.history ≡ true }
        ensures text { IfSome result (λ text. IsAnswer self.old.book.history request.now (given_with word now) self.new.book.history text.items) }
        ensures refused { IfNone result (IsAnswer self.old.book.history request.now (given_with word now) self.new.book.history (busy request.now)) }
        ensures publishing { AnswersPublishing self.old.book.history request.now (given_with word now) self.new.book.history self.old.publishing self.new.publishing }
        ensures seat { SeatAfterAnswer self.old.book request.now (given_with word now) self.new.book.history self.old.seat self.new.seat }
        ensures back { PassAfterAnswer self.old.book request.now (given_with word now) self.old.seat self.new.book }
        ensures kept { self.new.book.seats ≡ 1 }
        ensures heard { self.new.heard ≡ self.old.heard }
    {
        let reply = self.reply_to(word, now, request)?;
        text_of(self.alloc, &reply).ok()
    }

    /// The reply to a request, with its act carried out. `None` where memory was refused; then nothing is written down.
    fn reply_to(&mut self, word: u32, now: u64, request: &Request) -> Option<Reply>
        requires seats { self.old.book.seats ≡ 1 }
        requires open { is_open 1 self.old.book.history ≡ true }
        ensures reply { IfSome result (IsAnswered self.old.book.history request.now (given_with word now) self.new.book.history) }
        ensures publishing { IfSome result (λ reply. DoesPublishing self.old.book.history request.now (given_with word now) reply self.old.publishing self.new.publishing) }
        ensures seat { IfSome result (λ reply. SeatAfterReply self.old.book request.now (given_with word now) self.new.book.history reply self.old.seat self.new.seat) }
        ensures back { IfSome result (λ reply. PassAfterReply self.old.book request.now (given_with word now) reply self.old.seat self.new.book) }
        ensures refused { IfNone result (self.new ≡ self.old) }
        ensures kept { self.new.book.seats ≡ 1 }
        ensures heard { self.new.heard ≡ self.old.heard }
    {
        let Ok(offer) = offer_for(self.alloc, request) else {
            return None;
        };
        let (feed, passes) = offer;
        let given = Given {
            word,
            points: Items::empty(self.alloc),
            now,
        };
        let Ok(answer) = self.book.call(TALKER, request, &given, passes) else {
            return None;
        };
        let Answer {
            reply,
            act,
            pass,
            back: _,
        } = answer;
        self.carry_out(act, feed, pass);
        Some(reply)
    }

    /// Does what an act asks for: the feed of a mount that began is kept, and closed at the mount's end; a pass that was
    /// handed out is kept until its seat is left, and then given back.
    fn carry_out(&mut self, act: Act, feed: Option<Publisher>, pass: Option<Option<Pass>>)
        ensures settled { IsSettled act self.old.book.history self.new.book.history }
        ensures seats { self.new.book.seats ≡ self.old.book.seats }
        ensures publishing { self.new.publishing ≡ publishing_after act feed self.old.publishing }
        ensures seat { self.new.seat ≡ seat_after act (option_flatten pass) self.old.seat }
        ensures back { PassGoesBack act self.old.seat self.old.book self.new.book }
        ensures heard { self.new.heard ≡ self.old.heard }
    {
        match act {
            Act::None | Act::Record => {}
            Act::Open => self.publishing = feed,
            Act::Play { .. } => self.seat = pass.flatten(),
            Act::Stop { mount, seat } => {
                let pass = self.seat.take();
                let _ = self.book.give_back(mount, seat, pass);
            }
            Act::End => self.close(),
        }
    }

    /// Ends what is published, if anything is.
    fn close(&mut self)
        ensures { self.new ≡ record self.old { publishing = None } }
    {
        if let Some(feed) = self.publishing.take() {
            let _receipt = feed.close();
        }
    }

    /// Hangs the connection up, and gives its seat back, with the pass that was kept for it. Nothing more is published.
    pub fn leave(&mut self)
        requires seats { self.old.book.seats ≡ 1 }
        requires open { is_open 1 self.old.book.history ≡ true }
        ensures left { IsLeft self.old.book.history self.new.book.history }
        ensures back { PassAfterLeave self.old.book self.old.seat self.new.book }
        ensures closed { self.new.publishing ≡ None }
    {
        let act = self.book.hangup(TALKER);
        self.carry_out(act, None, None);
        self.close();
    }
}

/// Whether any frame is counted.
fn has_frames(report: &InReport) -> bool
    ensures { MatchBool result (0 < total report.now) (total report.now ≡ 0) }
{
    report.published > 0
        || report.pinned > 0
        || report.oversize > 0
        || report.worn > 0
        || report.unkept > 0
        || report.bad_rtp > 0
        || report.strangers > 0
}

/// What was heard, where these frames have come since: no moment of a message stands behind one.
fn heard_after(report: &InReport, heard: Option<u64>) -> Option<u64>
    ensures none { 0 < total report.now → result ≡ None }
    ensures same { total report.now ≡ 0 → result ≡ heard }
{
    if has_frames(report) {
        return None;
    }
    heard
}

/// Drops frames until a message comes, or none can. No moment of a message stands behind them.
fn skip_frames<S: Source + Drop>(intake: &mut Intake<S>, heard: &mut Option<u64>) -> InStop
    ensures fetches { Fetches S.incoming S.failed intake.old intake.new heard.old heard.new result }
    ensures ends { weight S.bound intake.new + length (handed (answer_of result)) ≤ weight S.bound intake.old }
{
    loop {
        match intake.next() {
            Next::Unit(Unit::Frame(_)) => *heard = None,
            Next::Unit(Unit::Message(request)) => return InStop::Message(request),
            Next::End => return InStop::End,
            Next::Fault(fault) => return InStop::Fault(fault),
            Next::ReadFailed => return InStop::ReadFailed,
            Next::OutOfMemory => return InStop::OutOfMemory,
        }
    }
}

/// What goes with a request: a ring and the pass of its one seat with ANNOUNCE, and nothing with another method.
fn offer_for(alloc: Global, request: &Request) -> Result<Offer, AllocError>
    ensures offer { IfOk result (λ offer. IsOffer 1 request.now.method (option_map (λ passes. passes.items) offer.1)) }
    ensures ring { IfOk result (λ offer. method_of request.now.method ≡ Some Announce → IsSomeAnd offer.0 IsNewRing) }
{
    if read_method(request.method.as_slice()) != Some(Method::Announce) {
        return Ok((None, None));
    }
    let (feed, passes) = packet_ring::new(alloc, KEEP, SEATS, PACKET_BYTES)?;
    let passes = passes.into_iter().map(|pass| Some(pass)).collect(alloc)?;
    Ok((Some(feed), Some(passes)))
}

fn text_of(alloc: Global, reply: &Reply) -> Result<Vec<u8>, AllocError>
    ensures { IfOk result (λ text. text.items ≡ reply_text reply.now) }
{
    let mut text = Vec::new(alloc);
    put_reply(&mut text, reply)?;
    Ok(text)
}
