//! What the book has answered to a connection, and how its session is after that.
ghost use Rattle.std.specs.Prelude.{◌≡◌, ◌↔◌, ◌∷◌, true, false, None, Option, IfOk, IfSome, OnErr, IsNone, IsSome};
ghost use Rattle.session_state.specs.declared.entry.Entry.TheVariants.{Request};
ghost use Rattle.session_state.specs.declared.session.Session.{Session};
ghost use Rattle.session_state.specs.Legal.{IsReplyOf};
ghost use Rattle.session_state.specs.Lookups.{IsSessionOf, is_open};
ghost use Rattle.relay_connection.specs.Snapshots.{IsSnapshotOf};

use crate::serving::Connection;
use crate::session_snapshot::SessionSnapshot;
use admission::Gate;
use base_syntax::Bytes;
use interleaved::Sink;
use relay_accounts::Part;
use relay_fanout::{Maker, Seat};
use session_lock::{Answer, AskFault, Book, Copies};
use session_state::{Moments, Session, Words};
use sockets::HangUp;
use std::alloc::Global;
use std::sync::Wait;
use std::thread::Threads;
use std::time::Clock;

/// What the book has answered, with a look at the session under the same lock. It has no `Drop`, so that it ends in
/// `Connection::note_asked`, whatever was answered.
pub(crate) struct Asked<P> {
    /// Without an answer what was offered comes back.
    answer: Result<Answer<P>, Option<Vec<P>>>,
    session: Option<SessionSnapshot>,
    /// The part in its mount of a session that has begun with this request.
    begins: Option<Option<Part>>,
}

impl<P: Drop> Asked<P> {
    /// Asks the book for a connection, which knows this of its session.
    pub(crate) fn ask(
        book: &mut Book<P>,
        alloc: Global,
        conn: u64,
        copies: Copies,
        offer: Option<Vec<P>>,
        known: &Option<SessionSnapshot>,
    ) -> Asked<P>
        ensures reply { IfOk result.answer (λ answer. IsReplyOf book.old.seats book.old.history conn copies.request copies.given answer.reply answer.act) }
        ensures history { IfOk result.answer (λ answer. book.new.history ≡ Request conn copies.request copies.given answer.reply answer.act ∷ book.old.history) }
        ensures err { OnErr result.answer (book.new ≡ book.old) }
        ensures session { is_open conn book.new.history ≡ true → (session : Option Session) × IsSessionOf book.new.seats conn book.new.history session × IsSnapshotOf session result.session }
        ensures closed { is_open conn book.new.history ≡ false → result.session ≡ None }
        ensures begins { IsSome result.begins ↔ (IsNone known.now × IsSome result.session) }
    {
        let answer = match book.ask_copied(conn, copies, offer) {
            Ok(answer) => Ok(answer),
            Err(
                AskFault::NotOpen { back }
                | AskFault::BadOffer { back }
                | AskFault::NoMemory { back },
            ) => Err(back),
        };
        match book.session_of(conn) {
            Some(session) => Asked {
                answer,
                session: Some(SessionSnapshot::of(session)),
                begins: known.is_none().then(|| part_of(alloc, session)),
            },
            None => Asked {
                answer,
                session: None,
                begins: None,
            },
        }
    }
}

/// The part that a session has in its mount.
fn part_of(alloc: Global, session: &Session) -> Option<Part>
    ensures { IfSome result (λ part. (part.name ≡ session.now.name) × (part.publishes ≡ session.now.recording)) }
{
    let name = Bytes::from_slice(alloc, session.name.as_slice()).ok()?;
    Some(Part {
        name,
        publishes: session.recording,
    })
}

impl<R, M, V, G, W, H, N> Connection<R, M, V, G, W, H, N>
where
    R: Threads + Wait + Clock + Copy + Send + 'static,
    M: Maker + Drop,
    M::Out: 'static,
    V: Words + Drop,
    G: Gate + Drop,
    W: Sink + Drop + Send + 'static,
    H: HangUp + Drop + Send + Sync + 'static,
    N: Moments + Drop,
{
    /// Learns how the session is after the book was asked, and begins the account of one that has begun. Returns the answer.
    pub(crate) fn note_asked(
        &mut self,
        asked: Asked<Seat<M::Pass>>,
    ) -> Result<Answer<Seat<M::Pass>>, Option<Vec<Seat<M::Pass>>>>
        ensures session { self.new.session ≡ asked.session }
        ensures answer { result ≡ asked.answer }
    {
        let Asked {
            answer,
            session,
            begins,
        } = asked;
        if let Some(part) = begins {
            self.begin_account(part);
        }
        self.session = session;
        self.count_session();
        answer
    }
}
