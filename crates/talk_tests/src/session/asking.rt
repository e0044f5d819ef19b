//! What the tests of the book share.
use base_syntax::Items;
use rtsp_message::{Reader, Request, Unit};
use session_lock::{Answer, Book};
use session_state::Given;
use std::alloc::Global;

/// Returns the request that a text is. `None` if it isn't one, or if memory runs out.
fn request_of(alloc: Global, text: &[u8]) -> Option<Request> {
    let mut units = Reader::new(alloc).feed(text).ok()?.units;
    match units.pop() {
        Some(Unit::Message(request)) => Some(request),
        _ => None,
    }
}

/// Opens `count` connections. Returns whether their numbers are those from 1 on.
pub(crate) fn connects<P: Drop>(book: &mut Book<P>, count: u64) -> bool {
    for number in 1..=count {
        if book.connect() != Ok(number) {
            return false;
        }
    }
    true
}

/// Returns the book's answer to a request, with the word 7, no point and the moment 0. `None` if it refuses to answer, or if
/// memory runs out.
pub(crate) fn asked<P: Drop>(
    book: &mut Book<P>,
    alloc: Global,
    conn: u64,
    text: &[u8],
    offer: Option<Vec<P>>,
) -> Option<Answer<P>> {
    let request = request_of(alloc, text)?;
    let given = Given {
        word: 7,
        points: Items::empty(alloc),
        now: 0,
    };
    book.ask(conn, &request, &given, offer).ok()
}

/// Returns the answer, if it is a 200.
pub(crate) fn accepted<P: Drop>(
    book: &mut Book<P>,
    alloc: Global,
    conn: u64,
    text: &[u8],
    offer: Option<Vec<P>>,
) -> Option<Answer<P>> {
    let answer = asked(book, alloc, conn, text, offer)?;
    if answer.reply.status.code() == 200 {
        Some(answer)
    } else {
        None
    }
}

/// Returns whether this is answered with 200.
pub(crate) fn is_accepted<P: Drop>(
    book: &mut Book<P>,
    alloc: Global,
    conn: u64,
    text: &[u8],
    offer: Option<Vec<P>>,
) -> bool {
    accepted(book, alloc, conn, text, offer).is_some()
}
