//! The passes of a book: for the most seats that there may be, and for mounts that end.
use crate::session::asking::{accepted, asked, connects, is_accepted};
use mounts::MAX_SEATS;
use session_lock::Book;
use session_state::Act;
use std::alloc::Global;
use std::collections::hash_map::RandomState;
use std::sync::Arc;
use std::test::Fail;

const ANNOUNCE_A: &[u8] =
    b"ANNOUNCE rtsp://h/a RTSP/1.0\nCSeq: 1\nContent-Length: 20\n\nv=0\nm=a 0 RTP/AVP 0\n";

const ANNOUNCE_B: &[u8] =
    b"ANNOUNCE rtsp://h/b RTSP/1.0\nCSeq: 1\nContent-Length: 20\n\nv=0\nm=a 0 RTP/AVP 0\n";

const SETUP: &[u8] = b"SETUP rtsp://h/a RTSP/1.0\nCSeq: 2\nTransport: RTP/AVP/TCP\n\n";

const PLAY: &[u8] = b"PLAY rtsp://h/a RTSP/1.0\nCSeq: 3\nSession: 0000000100000007\n\n";

const PAUSE: &[u8] = b"PAUSE rtsp://h/a RTSP/1.0\nCSeq: 4\nSession: 0000000100000007\n\n";

/// The session of the owner, which sets up after the player.
const TEARDOWN: &[u8] = b"TEARDOWN rtsp://h/a RTSP/1.0\nCSeq: 5\nSession: 0000000200000007\n\n";

/// The most seats of a book.
const MOST: usize = 1024;

/// The numbers below `MOST`.
fn numbers(alloc: Global) -> Option<Vec<u16>> {
    let mut passes = Vec::new(alloc);
    for number in 0..1024u16 {
        passes.push(number).ok()?;
    }
    Some(passes)
}

/// Whether connection 1 owns a mount whose passes are the numbers of its seats, and connection 2 has set it up.
fn is_set_up(book: &mut Book<u16>, alloc: Global) -> bool {
    if !connects(book, 2) {
        return false;
    }
    let Some(passes) = numbers(alloc) else {
        return false;
    };
    is_accepted(book, alloc, 1, ANNOUNCE_A, Some(passes))
        && is_accepted(book, alloc, 2, SETUP, None)
}

/// Returns the seat that a PLAY of connection 2 takes, if the pass is that of the seat.
fn seat_taken(book: &mut Book<u16>, alloc: Global) -> Option<usize> {
    let answer = accepted(book, alloc, 2, PLAY, None)?;
    let Act::Play { mount: 1, seat } = answer.act else {
        return None;
    };
    if answer.pass? as usize == seat {
        Some(seat)
    } else {
        None
    }
}

/// Returns whether connection 2 plays from a seat that isn't out yet, and leaves it.
fn takes_another(book: &mut Book<u16>, alloc: Global, is_out: &mut [bool]) -> bool {
    let Some(seat) = seat_taken(book, alloc) else {
        return false;
    };
    if seat >= is_out.len() || is_out[seat] {
        return false;
    }
    is_out[seat] = true;
    is_accepted(book, alloc, 2, PAUSE, None)
}

/// The status of a PLAY of connection 2 that is handed no pass.
fn play_without_pass(book: &mut Book<u16>, alloc: Global) -> Option<u16> {
    let answer = asked(book, alloc, 2, PLAY, None)?;
    if answer.pass.is_none() {
        Some(answer.reply.status.code())
    } else {
        None
    }
}

#[test]
fn as_many_seats_as_there_may_be_are_handed_out(rt: HostRuntime) -> Result<(), Fail> {
    let alloc = rt.alloc();
    assert!(rt; MAX_SEATS == MOST);
    let mut book: Book<u16> = Book::new(alloc, MOST, RandomState::new(&rt)?);
    assert!(rt; is_set_up(&mut book, alloc));
    let mut is_out = vec![in alloc; false; MOST].expect(&rt, "memory");
    for _ in 0..MOST {
        assert!(rt; takes_another(&mut book, alloc, is_out.as_mut_slice()));
    }
    assert!(rt; play_without_pass(&mut book, alloc) == Some(453));
    for seat in 0..1024u16 {
        assert!(rt; book.give_back(1, seat as usize, seat).is_none());
        assert!(rt; book.give_back(1, seat as usize, seat) == Some(seat));
    }
    assert!(rt; seat_taken(&mut book, alloc).is_some());
    Ok(())
}

/// A pass that counts its owners.
type Counted = Arc<u8, Global>;

/// Returns three more owners of a pass.
fn three(alloc: Global, pass: &Counted) -> Option<Vec<Counted>> {
    let mut passes = Vec::new(alloc);
    for _ in 0..3 {
        passes.push(Arc::try_clone(pass).ok()?).ok()?;
    }
    Some(passes)
}

/// Returns how many owners each of two passes has.
fn owners(first: &Counted, second: &Counted) -> (usize, usize) {
    (Arc::strong_count(first), Arc::strong_count(second))
}

/// Announces `a` and `b` with three passes each, and plays `a` from one seat, whose pass is handed out.
fn played(
    book: &mut Book<Counted>,
    alloc: Global,
    first: &Counted,
    second: &Counted,
) -> Option<Counted> {
    let is_set_up = connects(book, 3)
        && is_accepted(book, alloc, 1, ANNOUNCE_A, three(alloc, first))
        && is_accepted(book, alloc, 3, ANNOUNCE_B, three(alloc, second))
        && is_accepted(book, alloc, 2, SETUP, None);
    if !is_set_up {
        return None;
    }
    accepted(book, alloc, 2, PLAY, None)?.pass
}

/// Returns whether the hang-up of connection 1 drops the spare passes of its mount, and no other.
fn hangs_up(book: &mut Book<Counted>, first: &Counted, second: &Counted) -> bool {
    owners(first, second) == (4, 4) && book.hangup(1) == Act::End && owners(first, second) == (2, 4)
}

/// Returns whether a pass of a mount that has ended comes back to the caller that gives it back.
fn comes_back(book: &mut Book<Counted>, pass: Counted, first: &Counted) -> bool {
    match book.give_back(1, 0, pass) {
        Some(back) => *back == 1 && Arc::strong_count(first) == 2,
        None => false,
    }
}

/// Whether `a` is played, ends by a hang-up, and its pass is given back.
fn ends_while_played(
    book: &mut Book<Counted>,
    alloc: Global,
    first: &Counted,
    second: &Counted,
) -> bool {
    let Some(pass) = played(book, alloc, first, second) else {
        return false;
    };
    if !hangs_up(book, first, second) {
        return false;
    }
    comes_back(book, pass, first)
}

#[test]
fn spare_passes_go_with_their_owner(rt: HostRuntime) -> Result<(), Fail> {
    let alloc = rt.alloc();
    let hasher = RandomState::new(&rt)?;
    let first = Arc::new(alloc, 1)?;
    let second = Arc::new(alloc, 2)?;
    let mut book: Book<Counted> = Book::new(alloc, 3, hasher);
    assert!(rt; ends_while_played(&mut book, alloc, &first, &second));
    assert!(rt; owners(&first, &second) == (1, 4));
    drop(book);
    assert!(rt; owners(&first, &second) == (1, 1));
    Ok(())
}

/// Whether the TEARDOWN of connection 1 ends its mount.
fn tears_down(book: &mut Book<Counted>, alloc: Global) -> bool {
    match accepted(book, alloc, 1, TEARDOWN, None) {
        Some(answer) => answer.act == Act::End,
        None => false,
    }
}

#[test]
fn spare_passes_go_with_a_teardown(rt: HostRuntime) -> Result<(), Fail> {
    let alloc = rt.alloc();
    let hasher = RandomState::new(&rt)?;
    let first = Arc::new(alloc, 1)?;
    let second = Arc::new(alloc, 2)?;
    let mut book: Book<Counted> = Book::new(alloc, 3, hasher);
    let pass = played(&mut book, alloc, &first, &second);
    assert!(rt; pass.is_some() && is_accepted(&mut book, alloc, 1, SETUP, None));
    assert!(rt; owners(&first, &second) == (4, 4));
    assert!(rt; tears_down(&mut book, alloc));
    assert!(rt; owners(&first, &second) == (2, 4));
    drop(pass);
    assert!(rt; owners(&first, &second) == (1, 4));
    Ok(())
}

/// Whether connection 3, which owns a mount, is refused another and has its three passes back.
fn is_refused_another(book: &mut Book<Counted>, alloc: Global, pass: &Counted) -> bool {
    let Some(answer) = asked(book, alloc, 3, ANNOUNCE_A, three(alloc, pass)) else {
        return false;
    };
    let back = match &answer.back {
        Some(back) => back.len(),
        None => 0,
    };
    answer.reply.status.code() == 403 && back == 3
}

#[test]
fn an_offer_that_is_not_used_comes_back_whole(rt: HostRuntime) -> Result<(), Fail> {
    let alloc = rt.alloc();
    let hasher = RandomState::new(&rt)?;
    let first = Arc::new(alloc, 1)?;
    let second = Arc::new(alloc, 2)?;
    let mut book: Book<Counted> = Book::new(alloc, 3, hasher);
    assert!(rt; played(&mut book, alloc, &first, &second).is_some());
    // The pass that was handed out is dropped.
    assert!(rt; owners(&first, &second) == (3, 4));
    assert!(rt; is_refused_another(&mut book, alloc, &first));
    assert!(rt; owners(&first, &second) == (3, 4));
    Ok(())
}
