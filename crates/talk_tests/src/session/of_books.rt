//! Books of many connections and many requests, and what they keep of them.
use crate::session::asking::{connects, is_accepted};
use session_lock::Book;
use session_state::{Act, ConnectFault};
use std::alloc::Global;
use std::collections::hash_map::RandomState;
use std::test::Fail;

/// More connections than may be open at a time, one after the other.
const IN_TURN: u64 = 5000;

/// A connection comes, has this number, and hangs up.
fn comes_and_goes(book: &mut Book<u16>, number: u64) -> bool {
    book.connect() == Ok(number) && book.hangup(number) == Act::None
}

/// Returns whether `count` connections come whose numbers are those after `last`.
fn come_after(book: &mut Book<u16>, last: u64, count: u64) -> bool {
    for number in 1..=count {
        if book.connect() != Ok(last.saturating_add(number)) {
            return false;
        }
    }
    true
}

#[test]
fn who_hangs_up_gives_room_to_others(rt: HostRuntime) -> Result<(), Fail> {
    let mut book: Book<u16> = Book::new(rt.alloc(), 1, RandomState::new(&rt)?);
    for number in 1..=IN_TURN {
        assert!(rt; comes_and_goes(&mut book, number));
    }
    assert!(rt; come_after(&mut book, IN_TURN, 1024));
    assert!(rt; book.connect() == Err(ConnectFault::Full));
    // Before the 2,049th and the 4,097th there were 4,096.
    assert!(rt; book.kept() == 2 * (5000 - 4096) + 1024);
    Ok(())
}

/// The room for each hang-up was made when its connection came.
#[test]
fn all_that_are_open_hang_up(rt: HostRuntime) -> Result<(), Fail> {
    let mut book: Book<u16> = Book::new(rt.alloc(), 1, RandomState::new(&rt)?);
    assert!(rt; connects(&mut book, 1024));
    for conn in 1..1025 {
        assert!(rt; book.hangup(conn) == Act::None);
    }
    assert!(rt; book.kept() == 2048);
    Ok(())
}

const OPTIONS: &[u8] = b"OPTIONS * RTSP/1.0\nCSeq: 1\n\n";

/// More requests than a server's connections send in a while.
const MANY: usize = 3000;

#[test]
fn many_requests_are_answered(rt: HostRuntime) -> Result<(), Fail> {
    let alloc = rt.alloc();
    let mut book: Book<u16> = Book::new(alloc, 0, RandomState::new(&rt)?);
    assert!(rt; book.connect() == Ok(1));
    for _ in 0..MANY {
        assert!(rt; is_accepted(&mut book, alloc, 1, OPTIONS, None));
    }
    assert!(rt; book.kept() == MANY + 1);
    Ok(())
}

/// Returns whether a connection is open at the base that comes out.
fn retired_with(book: &mut Book<u16>, conn: u64) -> Option<bool> {
    let retired = book.retired()?;
    Some(retired.base.is_open(conn))
}

#[test]
fn comings_and_requests_cut_the_entries_off(rt: HostRuntime) -> Result<(), Fail> {
    let alloc = rt.alloc();
    let mut book: Book<u16> = Book::with_cut(alloc, 1, RandomState::new(&rt)?, 2);
    for kept in [1, 2, 1] {
        assert!(rt; book.connect().is_ok());
        assert!(rt; book.kept() == kept);
    }
    // The base before it comes out once.
    assert!(rt; retired_with(&mut book, 1) == Some(false));
    assert!(rt; retired_with(&mut book, 1).is_none());
    // At the base connection 2 was open, and connection 3 not yet.
    assert!(rt; book.base().is_open(2) && !book.base().is_open(3));
    assert!(rt; book.hangup(2) == Act::None && book.kept() == 2);
    assert!(rt; book.hangup(1) == Act::None && book.kept() == 3);
    assert!(rt; book.base().is_open(2));
    assert!(rt; is_accepted(&mut book, alloc, 3, OPTIONS, None) && book.kept() == 1);
    assert!(rt; !book.base().is_open(2) && book.base().is_open(3));
    assert!(rt; retired_with(&mut book, 2) == Some(true));
    assert!(rt; book.connect() == Ok(4) && book.kept() == 2);
    Ok(())
}

/// How many entries a server's book keeps before it cuts them off.
const FORTY: usize = 40;

/// What a book has to keep: `kept` entries, after a base at which only the connection `open` was open, or none.
#[derive(Clone, Copy, Drop)]
struct Wanted {
    kept: usize,
    open: Option<u64>,
}

impl Wanted {
    /// After one more coming or request, before which only the connection `open` was open, or none.
    fn after(self, open: Option<u64>) -> Wanted {
        if self.kept >= FORTY {
            return Wanted { kept: 1, open };
        }
        self.with_one()
    }

    /// With one entry more.
    fn with_one(self) -> Wanted {
        Wanted {
            kept: self.kept.saturating_add(1),
            open: self.open,
        }
    }
}

/// Returns whether a book keeps this, and at most one entry more than it may.
fn keeps(book: &Book<u16>, wanted: Wanted) -> bool {
    let base = book.base();
    let is_its_base = match wanted.open {
        Some(conn) => base.count_open() == 1 && base.is_open(conn),
        None => base.count_open() == 0,
    };
    let kept = book.kept();
    is_its_base && kept == wanted.kept && book.entries().len() == kept && kept <= FORTY + 1
}

/// A connection comes, sends one request and hangs up. Returns what the book keeps then, if after each of these it kept what it
/// has to.
fn visited(book: &mut Book<u16>, alloc: Global, conn: u64, before: Wanted) -> Option<Wanted> {
    let come = before.after(None);
    if book.connect() != Ok(conn) || !keeps(book, come) {
        return None;
    }
    let asked = come.after(Some(conn));
    if !is_accepted(book, alloc, conn, OPTIONS, None) || !keeps(book, asked) {
        return None;
    }
    let left = asked.with_one();
    if book.hangup(conn) == Act::None && keeps(book, left) {
        Some(left)
    } else {
        None
    }
}

/// Three calls each, more than five thousand in all.
const VISITS: u64 = 1_700;

#[test]
fn a_book_of_forty_entries_does_not_grow(rt: HostRuntime) -> Result<(), Fail> {
    let alloc = rt.alloc();
    let mut book: Book<u16> = Book::with_cut(alloc, 1, RandomState::new(&rt)?, FORTY);
    let mut wanted = Wanted {
        kept: 0,
        open: None,
    };
    for conn in 1..=VISITS {
        wanted = visited(&mut book, alloc, conn, wanted).expect(&rt, "what it keeps");
    }
    Ok(())
}

/// Returns whether a book keeps `kept` entries, after a base at which `open` connections were open.
fn holds(book: &Book<u16>, kept: usize, open: usize) -> bool {
    book.kept() == kept && book.base().count_open() == open
}

#[test]
fn who_has_left_is_kept_until_the_next_comes(rt: HostRuntime) -> Result<(), Fail> {
    let alloc = rt.alloc();
    let mut book: Book<u16> = Book::with_cut(alloc, 1, RandomState::new(&rt)?, FORTY);
    assert!(rt; connects(&mut book, 1024));
    // Before the 41st there were 40, and also before each fortieth after it.
    assert!(rt; holds(&book, 24, 1000));
    for conn in 1..1025 {
        assert!(rt; book.hangup(conn) == Act::None);
    }
    assert!(rt; holds(&book, 24 + 1024, 1000));
    assert!(rt; book.connect() == Ok(1025));
    assert!(rt; holds(&book, 1, 0));
    Ok(())
}
