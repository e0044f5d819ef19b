//! A book, and what it is asked.
use crate::book::texts;
use anyhow::{Result, bail};
use base_syntax::Items;
use rtsp_message::Request;
use session_lock::Book;
use session_state::Given;
use std::alloc::Global;
use std::collections::hash_map::RandomState;
use std::time::{Clock, Instant};

/// A book in which one mount lives, and a connection that asks.
#[derive(Drop)]
pub struct Bench {
    alloc: Global,
    seed: u64,
    book: Book<u16>,
    conn: u64,
    given: Given,
}

/// How many answers were 200, and the nanoseconds of all.
#[derive(Clone, Copy, Default, Drop)]
pub struct Times {
    pub accepted: u64,
    pub nanos: u128,
}

impl Bench {
    pub fn new(alloc: Global, seed: u64, hasher: RandomState) -> Result<Bench> {
        let request = texts::announce(alloc, b"kept", false, seed)?;
        let passes = one_pass(alloc)?;
        let mut bench = Bench {
            alloc,
            seed,
            book: Book::new(alloc, 1, hasher),
            conn: 0,
            given: Given {
                word: (seed % (1 << 32)) as u32,
                points: Items::empty(alloc),
                now: 0,
            },
        };
        if bench.open(&request, passes) {
            Ok(bench)
        } else {
            bail!("no mount can be kept")
        }
    }

    /// Two connections come, of which one announces the mount and the other one asks. Whether they could.
    fn open(&mut self, request: &Request, passes: Vec<u16>) -> bool {
        let (Ok(owner), Ok(conn)) = (self.book.connect(), self.book.connect()) else {
            return false;
        };
        self.conn = conn;
        self.accepts(owner, request, Some(passes))
    }

    /// Times an OPTIONS.
    pub fn options(&mut self, rt: &impl Clock, rounds: u64) -> Result<Times> {
        let request = texts::options(self.alloc, self.seed)?;
        self.repeat(rt, &request, rounds)
    }

    /// Times a DESCRIBE of the mount that lives.
    pub fn describe(&mut self, rt: &impl Clock, rounds: u64) -> Result<Times> {
        let request = texts::describe(self.alloc, self.seed)?;
        self.repeat(rt, &request, rounds)
    }

    /// Times an ANNOUNCE, each of a connection that comes before it and hangs up after it, which isn't timed.
    pub fn announce(&mut self, rt: &impl Clock, rounds: u64) -> Result<Times> {
        let request = texts::announce(self.alloc, b"bench", true, self.seed)?;
        self.announce_each(rt, &request, rounds)
    }

    fn announce_each(&mut self, rt: &impl Clock, request: &Request, rounds: u64) -> Result<Times> {
        let mut times = Times::default();
        for _ in 0..rounds {
            let Ok(conn) = self.book.connect() else {
                bail!("no connection can come");
            };
            let passes = one_pass(self.alloc)?;
            let start = Instant::now(rt)?;
            let accepted = self.accepts(conn, request, Some(passes));
            times.add(accepted, start.elapsed(rt)?.as_nanos());
            self.book.hangup(conn);
        }
        Ok(times)
    }

    /// Times a request that one connection makes again and again.
    fn repeat(&mut self, rt: &impl Clock, request: &Request, rounds: u64) -> Result<Times> {
        let mut times = Times::default();
        for _ in 0..rounds {
            let start = Instant::now(rt)?;
            let accepted = self.accepts(self.conn, request, None);
            times.add(accepted, start.elapsed(rt)?.as_nanos());
        }
        Ok(times)
    }

    /// Whether a request is answered with 200.
    fn accepts(&mut self, conn: u64, request: &Request, offer: Option<Vec<u16>>) -> bool {
        match self.book.ask(conn, request, &self.given, offer) {
            Ok(answer) => answer.reply.status.code() == 200,
            Err(_) => false,
        }
    }
}

/// What an ANNOUNCE offers.
fn one_pass(alloc: Global) -> Result<Vec<u16>> {
    Ok(vec![in alloc; 0]?)
}

impl Times {
    /// Counts an answer, and what it took.
    fn add(&mut self, accepted: bool, nanos: u128) {
        self.accepted = self.accepted.saturating_add(u64::from(accepted));
        self.nanos = self.nanos.saturating_add(nanos);
    }
}
