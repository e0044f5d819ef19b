//! What replies mean for a try.

ghost use Rattle.std.specs.Prelude.{◌≡◌, ◌⊎◌};
ghost use Rattle.rtsp_client.specs.declared.asked.Side.TheVariants.{Target};
ghost use Rattle.pull_session.specs.Passing.{KeepsPassage};
ghost use Rattle.pull_session.specs.Tries.{new_line};

use crate::note::Note;
use crate::offer::Offer;
use crate::reason::{DescriptionFault, LoginFault, Reason};
use crate::session::PullSession;
use base_syntax::Bytes;
use rtsp_client::{End, ReplyFacts, ReplyHeaders, Side, Turn};
use rtsp_message::Response;
use source_sdp::{ReadError, SourceDescription};
use source_urls::{ControlFault, UrlFault, base_of, read_source};

/// Returns the value of a reply's header field.
fn field<'a>(reply: &'a Response, name: &[u8]) -> Option<&'a [u8]> {
    match reply.header(name) {
        Some(value) => Some(value.as_slice()),
        None => None,
    }
}

/// Returns the parts of a reply that a client looks at.
fn headers_of(reply: &Response) -> ReplyHeaders<'_> {
    ReplyHeaders {
        cseq: reply.cseq,
        status: reply.status,
        session: field(reply, b"Session"),
        transport: field(reply, b"Transport"),
        public: field(reply, b"Public"),
    }
}

impl PullSession {
    /// A reply of a side comes at this moment.
    #[tactic(auto, using(crate::proofs::TargetReplies::keeps_same, crate::proofs::TargetReplies::keeps_none))]
    pub(crate) fn take_reply(&mut self, side: Side, reply: &Response, now: u64)
        ensures target { self.new.target ≡ self.old.target }
        ensures source { self.new.source ≡ self.old.source }
        ensures watch { self.new.watch ≡ self.old.watch }
        ensures passage { side ≡ Target → KeepsPassage self.old.client.passage self.new.client.passage }
        ensures mount { self.new.mount ≡ self.old.mount }
    {
        let Ok(facts) = ReplyFacts::of(self.alloc, headers_of(reply)) else {
            self.fail(Reason::OutOfMemory, side);
            return;
        };
        match self.client.replied(side, facts, now) {
            Turn::GoesOn | Turn::Ends(_) => {}
            Turn::PassesOver => self.notes.add(Note::ReplyIgnored {
                side,
                status: reply.status,
            }),
            Turn::ReadsDescription => self.read_description(reply),
            Turn::Redirects => self.follow(reply),
            Turn::Challenged => self.answer(reply),
            Turn::LeavesOut { track, status } => {
                self.notes.add(Note::TrackRefused { track, status });
            }
        }
    }

    /// Reads the description of the source.
    fn read_description(&mut self, reply: &Response)
        ensures target { self.new.target ≡ self.old.target }
        ensures source { self.new.source ≡ self.old.source }
        ensures watch { self.new.watch ≡ self.old.watch }
        ensures passage { self.new.client.passage ≡ self.old.client.passage }
        ensures mount { self.new.mount ≡ self.old.mount }
    {
        match source_sdp::read(self.alloc, reply.body.as_slice()) {
            Ok(description) => self.take_description(reply, description),
            Err(ReadError::TooLong) => {
                self.fail(Reason::Description(DescriptionFault::TooLong), Side::Source);
            }
            Err(ReadError::OutOfMemory) => self.fail(Reason::OutOfMemory, Side::Source),
        }
    }

    /// Takes what the description of the source offers.
    #[tactic(auto, using(crate::proofs::TargetReplies::described_same))]
    fn take_description(&mut self, reply: &Response, description: SourceDescription)
        ensures target { self.new.target ≡ self.old.target }
        ensures source { self.new.source ≡ self.old.source }
        ensures watch { self.new.watch ≡ self.old.watch }
        ensures passage { self.new.client.passage ≡ self.old.client.passage }
        ensures mount { self.new.mount ≡ self.old.mount }
    {
        let base = base_of(
            field(reply, b"Content-Base"),
            field(reply, b"Content-Location"),
            self.place.uri.as_slice(),
        );
        match Offer::of(self.alloc, description, base, self.options, &mut self.notes) {
            Ok(offer) => {
                self.client.described(offer.len());
                self.offer = Some(offer);
            }
            Err(DescriptionFault::SessionUri(ControlFault::OutOfMemory)) => {
                self.fail(Reason::OutOfMemory, Side::Source);
            }
            Err(fault) => self.fail(Reason::Description(fault), Side::Source),
        }
    }

    /// Follows a redirect: the program connects to the new place.
    fn follow(&mut self, reply: &Response)
        ensures target { self.new.target ≡ self.old.target }
        ensures source { self.new.source ≡ self.old.source }
        ensures watch { self.new.watch ≡ self.old.watch }
        ensures passage { self.new.client.passage ≡ self.old.client.passage }
        ensures mount { self.new.mount ≡ self.old.mount }
    {
        let Some(place) = field(reply, b"Location") else {
            self.fail(Reason::BadRedirect(None), Side::Source);
            return;
        };
        match read_source(self.alloc, place) {
            Ok(source) => self.next_place = Some(source),
            Err(UrlFault::OutOfMemory) => self.fail(Reason::OutOfMemory, Side::Source),
            Err(fault) => self.fail(Reason::BadRedirect(Some(fault)), Side::Source),
        }
    }

    /// Answers the challenge of the source, if there is a password for it.
    #[tactic(auto, using(crate::proofs::TargetReplies::answered_same))]
    fn answer(&mut self, reply: &Response)
        ensures target { self.new.target ≡ self.old.target }
        ensures source { self.new.source ≡ self.old.source }
        ensures watch { self.new.watch ≡ self.old.watch }
        ensures passage { self.new.client.passage ≡ self.old.client.passage }
        ensures mount { self.new.mount ≡ self.old.mount }
    {
        let host = self.place.host.as_slice();
        match self.login.challenge(self.alloc, reply, host) {
            Ok(is_basic) => {
                if is_basic {
                    self.notes.add(Note::SendsPassword);
                }
                self.client.answers_challenge(true);
            }
            Err(fault) => {
                self.give_reason(Reason::Login(fault));
                self.client.answers_challenge(false);
            }
        }
    }

    /// There is a connection to the place that the redirect names: numbers begin anew on it.
    pub fn redirected(&mut self)
        ensures target { self.new.target ≡ self.old.target }
        ensures mount { self.new.mount ≡ self.old.mount }
        ensures source { (self.new.source ≡ self.old.source) ⊎ (self.new.source ≡ new_line) }
    {
        if let Some(place) = self.next_place.take() {
            self.place = place;
            self.source_line = crate::line::Line::new(self.alloc);
            self.login.restart();
            self.client.redirected();
        }
    }
}
