//! How a book answers a request.
ghost use Rattle.std.specs.Prelude.{◌≡◌, ◌+◌, ◌∷◌, ℕ, true, IfOk, IfErr, IsSome, MatchBool, OnErr};
ghost use Rattle.std.specs.Option.{option_map};
ghost use Rattle.session_state.specs.declared.act.Act.TheVariants as acts;
ghost use Rattle.session_state.specs.declared.entry.Entry.TheVariants as entries;
ghost use Rattle.session_state.specs.History.{accepts, how_many};
ghost use Rattle.session_state.specs.Legal.{IsReplyOf};
ghost use Rattle.session_state.specs.Methods.{is_announce};
ghost use Rattle.session_state.specs.Lookups.{is_open};
ghost use Rattle.session_lock.specs.Asks.{IsFaultOf};
ghost use Rattle.session_lock.specs.Books.{IsOffer, kept_after};
ghost use Rattle.session_lock.specs.Entries.{method_accepted};
ghost use Rattle.session_lock.specs.Requests.{back_after, passes_after};
ghost use Rattle.session_lock.specs.Spares.{handed_out};

use crate::answer::{Answer, AskFault, NoMemory};
use crate::book::Book;
use crate::copies::{Copies, make_room, room_for};
use crate::entries::accepted_method;
use rtsp_message::Request;
use session_state::{Decision, Given, Method, read_method};

impl<P: Drop> Book<P> {
    /// Answers a request of an open connection. An ANNOUNCE comes with an offer of passes, one for each seat, and is given
    /// them back unless it is accepted; a PLAY that takes a seat is handed its pass. The only error is out of memory, and
    /// then nothing has changed: all copies, a new base where the kept entries are cut off, and all room are made before
    /// anything changes. Makes the room for the return of the seat, and for the expiry of the session that begins.
    pub fn call(
        &mut self,
        conn: u64,
        request: &Request,
        given: &Given,
        offer: Option<Vec<P>>,
    ) -> Result<Answer<P>, NoMemory<P>>
        requires open { is_open conn self.old.history ≡ true }
        requires offer { IsOffer self.old.seats request.now.method (option_map (λ passes. passes.items) offer) }
        ensures reply { IfOk result (λ answer. IsReplyOf self.old.seats self.old.history conn request.now given.entry.now answer.reply answer.act) }
        ensures history { IfOk result (λ answer. self.new.history ≡ entries.Request conn request.now given.entry.now answer.reply answer.act ∷ self.old.history) }
        ensures kept { IfOk result (λ answer. self.new.kept ≡ kept_after self.old) }
        ensures spares { IfOk result (λ answer. self.new.spares ≡ passes_after conn (how_many (accepts is_announce) self.old.history + 1) (method_accepted request.now answer.reply) answer.act (option_map (λ passes. passes.items) offer) self.old.spares) }
        ensures pass { IfOk result (λ answer. answer.pass ≡ handed_out answer.act self.old.spares) }
        ensures play { IfOk result (λ answer. (mount seat : ℕ) → answer.act ≡ acts.Play mount seat → IsSome answer.pass) }
        ensures back { IfOk result (λ answer. answer.back ≡ back_after (method_accepted request.now answer.reply) offer) }
        ensures seats { self.new.seats ≡ self.old.seats }
        ensures cut { self.new.cut ≡ self.old.cut }
        ensures err { OnErr result (self.new ≡ self.old) }
        ensures handed_back { IfErr result (λ refused. refused.back ≡ offer) }
    {
        let Ok(copies) = Copies::of(self.alloc, request, given) else {
            return Err(NoMemory { back: offer });
        };
        self.call_copied(conn, copies, offer)
    }

    /// `call`, of a request that was copied before.
    fn call_copied(
        &mut self,
        conn: u64,
        copies: Copies,
        offer: Option<Vec<P>>,
    ) -> Result<Answer<P>, NoMemory<P>>
        requires open { is_open conn self.old.history ≡ true }
        requires offer { IsOffer self.old.seats copies.request.method (option_map (λ passes. passes.items) offer) }
        ensures reply { IfOk result (λ answer. IsReplyOf self.old.seats self.old.history conn copies.request copies.given answer.reply answer.act) }
        ensures history { IfOk result (λ answer. self.new.history ≡ entries.Request conn copies.request copies.given answer.reply answer.act ∷ self.old.history) }
        ensures kept { IfOk result (λ answer. self.new.kept ≡ kept_after self.old) }
        ensures spares { IfOk result (λ answer. self.new.spares ≡ passes_after conn (how_many (accepts is_announce) self.old.history + 1) (method_accepted copies.request answer.reply) answer.act (option_map (λ passes. passes.items) offer) self.old.spares) }
        ensures pass { IfOk result (λ answer. answer.pass ≡ handed_out answer.act self.old.spares) }
        ensures play { IfOk result (λ answer. (mount seat : ℕ) → answer.act ≡ acts.Play mount seat → IsSome answer.pass) }
        ensures back { IfOk result (λ answer. answer.back ≡ back_after (method_accepted copies.request answer.reply) offer) }
        ensures seats { self.new.seats ≡ self.old.seats }
        ensures cut { self.new.cut ≡ self.old.cut }
        ensures err { OnErr result (self.new ≡ self.old) }
        ensures handed_back { IfErr result (λ refused. refused.back ≡ offer) }
    {
        let Ok(room) = room_for(self.alloc, &offer) else {
            return Err(NoMemory { back: offer });
        };
        let opened = self.world.count_open();
        let Ok(()) = make_room(opened, &mut self.entries, &mut self.spares) else {
            return Err(NoMemory { back: offer });
        };
        let Ok(next) = self.entries.next_base(self.alloc, &self.world) else {
            return Err(NoMemory { back: offer });
        };
        let number = self.world.next_mount();
        let Ok(decision) = self
            .world
            .decide_and_copy(self.alloc, conn, &copies.request, &copies.given)
        else {
            return Err(NoMemory { back: offer });
        };
        let Decision { reply, copy, act } = decision;
        let method = accepted_method(&copies.request, &reply);
        self.entries.add(next, copies.into_entry(conn, copy, act));
        let (pass, back) = self.spares.settle(conn, number, method, act, offer, room);
        Ok(Answer {
            reply,
            act,
            pass,
            back,
        })
    }

    /// `call`, with its conditions tested: the first that isn't met is the error, and the offer comes back. After an error
    /// nothing has changed.
    pub fn ask(
        &mut self,
        conn: u64,
        request: &Request,
        given: &Given,
        offer: Option<Vec<P>>,
    ) -> Result<Answer<P>, AskFault<P>>
        ensures open { IfOk result (λ answer. is_open conn self.old.history ≡ true) }
        ensures offered { IfOk result (λ answer. IsOffer self.old.seats request.now.method (option_map (λ passes. passes.items) offer)) }
        ensures reply { IfOk result (λ answer. IsReplyOf self.old.seats self.old.history conn request.now given.entry.now answer.reply answer.act) }
        ensures history { IfOk result (λ answer. self.new.history ≡ entries.Request conn request.now given.entry.now answer.reply answer.act ∷ self.old.history) }
        ensures kept { IfOk result (λ answer. self.new.kept ≡ kept_after self.old) }
        ensures spares { IfOk result (λ answer. self.new.spares ≡ passes_after conn (how_many (accepts is_announce) self.old.history + 1) (method_accepted request.now answer.reply) answer.act (option_map (λ passes. passes.items) offer) self.old.spares) }
        ensures pass { IfOk result (λ answer. answer.pass ≡ handed_out answer.act self.old.spares) }
        ensures play { IfOk result (λ answer. (mount seat : ℕ) → answer.act ≡ acts.Play mount seat → IsSome answer.pass) }
        ensures back { IfOk result (λ answer. answer.back ≡ back_after (method_accepted request.now answer.reply) offer) }
        ensures seats { self.new.seats ≡ self.old.seats }
        ensures cut { self.new.cut ≡ self.old.cut }
        ensures fault { IfErr result (IsFaultOf self.old.seats self.old.history conn request.now.method offer) }
        ensures err { OnErr result (self.new ≡ self.old) }
    {
        let offer = self.tested(conn, request, offer)?;
        match self.call(conn, request, given, offer) {
            Ok(answer) => Ok(answer),
            Err(refused) => Err(AskFault::NoMemory { back: refused.back }),
        }
    }

    /// `ask`, of a request that was copied before: nothing of it is copied here, so a lock on the book is held for less time.
    pub fn ask_copied(
        &mut self,
        conn: u64,
        copies: Copies,
        offer: Option<Vec<P>>,
    ) -> Result<Answer<P>, AskFault<P>>
        ensures open { IfOk result (λ answer. is_open conn self.old.history ≡ true) }
        ensures offered { IfOk result (λ answer. IsOffer self.old.seats copies.request.method (option_map (λ passes. passes.items) offer)) }
        ensures reply { IfOk result (λ answer. IsReplyOf self.old.seats self.old.history conn copies.request copies.given answer.reply answer.act) }
        ensures history { IfOk result (λ answer. self.new.history ≡ entries.Request conn copies.request copies.given answer.reply answer.act ∷ self.old.history) }
        ensures kept { IfOk result (λ answer. self.new.kept ≡ kept_after self.old) }
        ensures spares { IfOk result (λ answer. self.new.spares ≡ passes_after conn (how_many (accepts is_announce) self.old.history + 1) (method_accepted copies.request answer.reply) answer.act (option_map (λ passes. passes.items) offer) self.old.spares) }
        ensures pass { IfOk result (λ answer. answer.pass ≡ handed_out answer.act self.old.spares) }
        ensures play { IfOk result (λ answer. (mount seat : ℕ) → answer.act ≡ acts.Play mount seat → IsSome answer.pass) }
        ensures back { IfOk result (λ answer. answer.back ≡ back_after (method_accepted copies.request answer.reply) offer) }
        ensures seats { self.new.seats ≡ self.old.seats }
        ensures cut { self.new.cut ≡ self.old.cut }
        ensures fault { IfErr result (IsFaultOf self.old.seats self.old.history conn copies.request.method offer) }
        ensures err { OnErr result (self.new ≡ self.old) }
    {
        let offer = self.tested(conn, &copies.request, offer)?;
        match self.call_copied(conn, copies, offer) {
            Ok(answer) => Ok(answer),
            Err(refused) => Err(AskFault::NoMemory { back: refused.back }),
        }
    }

    /// The offer again, if the connection is open and the offer is what the request's method needs.
    fn tested(
        &self,
        conn: u64,
        request: &Request,
        offer: Option<Vec<P>>,
    ) -> Result<Option<Vec<P>>, AskFault<P>>
        ensures open { IfOk result (λ back. is_open conn self.now.history ≡ true) }
        ensures offered { IfOk result (λ back. IsOffer self.now.seats request.now.method (option_map (λ passes. passes.items) offer)) }
        ensures same { IfOk result (λ back. back ≡ offer) }
        ensures fault { IfErr result (IsFaultOf self.now.seats self.now.history conn request.now.method offer) }
    {
        if !self.is_open(conn) {
            return Err(AskFault::NotOpen { back: offer });
        }
        if !is_offer(self.seats, request, &offer) {
            return Err(AskFault::BadOffer { back: offer });
        }
        Ok(offer)
    }
}

/// Whether passes are offered as a request asks for them: one for each seat with ANNOUNCE, and none with another method.
fn is_offer<P>(seats: usize, request: &Request, offer: &Option<Vec<P>>) -> bool
    ensures { MatchBool result (IsOffer seats request.now.method (option_map (λ passes. passes.items) offer.now)) (IsOffer seats request.now.method (option_map (λ passes. passes.items) offer.now) → ⊥) }
{
    let announces = read_method(request.method.as_slice()) == Some(Method::Announce);
    match offer {
        None => !announces,
        Some(passes) => announces && passes.len() == seats,
    }
}
