//! Cases of a book, and of a world that is asked the same.
ghost use Rattle.std.specs.Prelude.{◌≤◌};

use base_syntax::{Items, cut, read_number};
use case_texts::{Arguments, Fault, Told, meaning, short_of};
use rtsp_message::{Reader, Reply, Request, Unit, put_reply};
use session_lock::{Answer, AskFault, Book};
use session_state::{Act, ConnectFault, Given, Session, State, World};
use std::alloc::{AllocError, Global};
use std::collections::hash_map::RandomState;
use transport_header::Point;

/// The most seats that a mount may have.
const MOST_SEATS: u32 = 1024;

/// What a word of a book's case asks for.
#[derive(Clone, Copy, Drop)]
enum BookWord {
    Seats,
    Word,
    Points,
    Now,
    Offer,
    Connect,
    Hangup,
    Expire,
    Back,
    Kept,
    Open,
    Mount,
    State,
}

const WORDS: [(&str, BookWord); 13] = [
    ("seats", BookWord::Seats),
    ("word", BookWord::Word),
    ("points", BookWord::Points),
    ("now", BookWord::Now),
    ("offer", BookWord::Offer),
    ("connect", BookWord::Connect),
    ("hangup", BookWord::Hangup),
    ("expire", BookWord::Expire),
    ("back", BookWord::Back),
    ("kept", BookWord::Kept),
    ("open", BookWord::Open),
    ("mount", BookWord::Mount),
    ("state", BookWord::State),
];

/// When a book cuts its entries off.
#[derive(Clone, Copy, PartialEq, Drop)]
pub enum Cutting {
    /// After thousands.
    Seldom,
    /// Before each coming and each request that is accepted.
    Always,
}

/// A book and a world, in which the same has happened.
pub struct BookCase {
    alloc: Global,
    hasher: RandomState,
    cutting: Cutting,
    seats: usize,
    book: Book<u16>,
    world: World,
    /// How many entries the history has.
    entries: usize,
    /// How many of them the book has to keep.
    kept: usize,
    /// What the following requests are decided with.
    given: Given,
    /// How many passes the next request offers, where that is told.
    offer: Option<u32>,
    /// How many passes were offered so far: these are their numbers.
    offered: u16,
}

impl Drop for BookCase {
    fn drop(self) {
        let BookCase {
            alloc: _,
            hasher: _,
            cutting: _,
            seats: _,
            book: _,
            world: _,
            entries: _,
            kept: _,
            given: _,
            offer: _,
            offered: _,
        } = self;
    }
}

impl BookCase {
    /// A book and a world in which nothing has happened. Each mount has so many seats.
    pub fn new(alloc: Global, hasher: RandomState, seats: usize, cutting: Cutting) -> BookCase
        requires { seats ≤ 1024 }
    {
        BookCase {
            alloc,
            hasher,
            cutting,
            seats,
            book: match cutting {
                Cutting::Seldom => Book::new(alloc, seats, hasher),
                Cutting::Always => Book::with_cut(alloc, seats, hasher, 1),
            },
            world: World::new(alloc, seats, hasher),
            entries: 0,
            kept: 0,
            given: Given {
                word: 7,
                points: Items::empty(alloc),
                now: 0,
            },
            offer: None,
            offered: 0,
        }
    }

    pub fn call(
        &mut self,
        word: &[u8],
        arguments: &mut Arguments<'_>,
        told: &mut Told,
    ) -> Result<(), Fault> {
        match meaning(&WORDS, word).ok_or(Fault::UnknownWord)? {
            BookWord::Seats => self.seat(arguments),
            BookWord::Word => {
                self.given.word = arguments.hex()?;
                Ok(())
            }
            BookWord::Points => self.place(arguments),
            BookWord::Now => {
                self.given.now = u64::from(arguments.number()?);
                Ok(())
            }
            BookWord::Offer => {
                self.offer = Some(arguments.number()?);
                Ok(())
            }
            BookWord::Connect => self.connect(arguments.number_or(1)?, told),
            BookWord::Hangup => self.hangup(u64::from(arguments.number()?), told),
            BookWord::Expire => self.expire(arguments, told),
            BookWord::Back => self.give_back(arguments, told),
            BookWord::Kept => Ok(told.number(Some(self.entries as u64))?),
            word => {
                let conn = u64::from(arguments.number()?);
                Ok(self.tell_connection(word, conn, told)?)
            }
        }
    }

    /// Tells what a word asks of a connection.
    fn tell_connection(
        &self,
        word: BookWord,
        conn: u64,
        told: &mut Told,
    ) -> Result<(), AllocError> {
        let agrees = match word {
            BookWord::Open => {
                let is_open = self.book.is_open(conn);
                told.truth(is_open)?;
                is_open == self.world.is_open(conn)
            }
            BookWord::Mount => {
                let mount = self.book.mount_of(conn);
                told.number(mount)?;
                mount == self.world.mount_of(conn)
            }
            _ => self.tell_state(conn, told)?,
        };
        tell_agreement(agrees, told)
    }

    /// Tells the state of a connection's session. Whether the world tells the same.
    fn tell_state(&self, conn: u64, told: &mut Told) -> Result<bool, AllocError> {
        let of_book = state_text(self.alloc, self.book.session_of(conn))?;
        let of_world = state_text(self.alloc, self.world.session_of(conn))?;
        told.fact(of_book.as_bytes())?;
        Ok(of_book.as_str() == of_world.as_str())
    }

    /// Begins anew, with so many seats a mount.
    fn seat(&mut self, arguments: &mut Arguments<'_>) -> Result<(), Fault> {
        let seats = arguments.number_to(MOST_SEATS)? as usize;
        *self = BookCase::new(self.alloc, self.hasher, seats, self.cutting);
        Ok(())
    }

    /// Places the points of the tracks, each as `SEQ/RTPTIME` or `-`.
    fn place(&mut self, arguments: &mut Arguments<'_>) -> Result<(), Fault> {
        let mut points = Items::empty(self.alloc);
        for word in arguments.words(self.alloc)? {
            points.push(read_point(word)?)?;
        }
        self.given.points = points;
        Ok(())
    }

    /// Lets so many connections come, and tells the last number.
    fn connect(&mut self, count: u32, told: &mut Told) -> Result<(), Fault> {
        let mut last = None;
        for _ in 0..count {
            let came = connected(self.book.connect())?;
            tell_agreement(connected(self.world.connect())? == came, told)?;
            if came.is_some() {
                self.cut_off();
                self.add_entry();
            }
            self.tell_kept(told)?;
            last = came;
        }
        match last {
            Some(conn) => told.number(Some(conn))?,
            None => told.fact(b"full")?,
        }
        Ok(())
    }

    fn hangup(&mut self, conn: u64, told: &mut Told) -> Result<(), Fault> {
        if self.book.is_open(conn) {
            self.add_entry();
        }
        let act = self.book.hangup(conn);
        told.fact(act_text(self.alloc, act)?.as_bytes())?;
        tell_agreement(self.world.hangup(conn) == act, told)?;
        self.tell_kept(told)
    }

    /// Ends the session of a connection, if it has expired.
    fn expire(&mut self, arguments: &mut Arguments<'_>, told: &mut Told) -> Result<(), Fault> {
        let conn = u64::from(arguments.number()?);
        let heard = u64::from(arguments.number()?);
        let now = u64::from(arguments.number()?);
        let act = self.book.expire(conn, heard, now);
        match act {
            Some(act) => {
                self.add_entry();
                let done = act_text(self.alloc, act)?;
                let text = format!(in self.alloc; "expired {done}")?;
                told.fact(text.as_bytes())?;
            }
            None => told.fact(b"no")?,
        }
        tell_agreement(self.world.expire(conn, heard, now) == act, told)?;
        self.tell_kept(told)
    }

    fn give_back(&mut self, arguments: &mut Arguments<'_>, told: &mut Told) -> Result<(), Fault> {
        let mount = u64::from(arguments.number()?);
        let seat = arguments.number()? as usize;
        let pass = arguments.short()?;
        let back = self.book.give_back(mount, seat, pass);
        match back {
            None => {
                self.add_entry();
                told.fact(b"taken")?;
            }
            Some(pass) => {
                let text = format!(in self.alloc; "returned {pass}")?;
                told.fact(text.as_bytes())?;
            }
        }
        tell_agreement(self.world.back(mount, seat) == back.is_none(), told)?;
        self.tell_kept(told)
    }

    /// Asks what a text of one request says, for a connection.
    pub fn ask(&mut self, conn: u64, bytes: &[u8], told: &mut Told) -> Result<(), Fault> {
        let request = read_request(self.alloc, bytes)?;
        self.ask_request(conn, &request, told)
    }

    /// Asks what a request says, for a connection.
    fn ask_request(&mut self, conn: u64, request: &Request, told: &mut Told) -> Result<(), Fault> {
        let offer = self.next_offer(request)?;
        match self.book.ask(conn, request, &self.given, offer) {
            Ok(answer) => {
                self.cut_off();
                self.add_entry();
                self.tell_answer(conn, request, &answer, told)?;
            }
            Err(fault) => tell_refusal(self.alloc, &fault, told)?,
        }
        self.tell_kept(told)
    }

    /// Tells what the book answers to a request, and where the world answers it otherwise.
    fn tell_answer(
        &mut self,
        conn: u64,
        request: &Request,
        answer: &Answer<u16>,
        told: &mut Told,
    ) -> Result<(), Fault> {
        put_reply(&mut told.text, &answer.reply)?;
        told.fact(answer_text(self.alloc, answer)?.as_bytes())?;
        let agrees = self.world_agrees(conn, request, answer.act, &told.text)?;
        Ok(tell_agreement(agrees, told)?)
    }

    /// The passes that the next request offers: as many as was told, or else one for each seat with ANNOUNCE.
    fn next_offer(&mut self, request: &Request) -> Result<Option<Vec<u16>>, AllocError> {
        let announces = request.method.as_slice() == b"ANNOUNCE".as_slice();
        let count = match self.offer.take() {
            Some(count) => count as usize,
            None if announces => self.seats,
            None => return Ok(None),
        };
        let mut passes = Vec::new(self.alloc);
        for _ in 0..count {
            self.offered = self.offered.wrapping_add(1);
            passes.push(self.offered)?;
        }
        Ok(Some(passes))
    }

    /// Whether the world does this act for a request and replies so, and tells the same reply before.
    fn world_agrees(
        &mut self,
        conn: u64,
        request: &Request,
        wanted: Act,
        text: &[u8],
    ) -> Result<bool, AllocError> {
        if !self.world.is_open(conn) {
            return Ok(false);
        }
        let foreseen = self.world.reply_of(self.alloc, conn, request, &self.given)?;
        let is_foreseen = is_written(self.alloc, foreseen, text)?;
        let (reply, act) = self.world.decide(self.alloc, conn, request, &self.given)?;
        let is_replied = is_written(self.alloc, reply, text)?;
        Ok(act == wanted && is_foreseen && is_replied)
    }

    /// The entries are cut off, if the book does so.
    fn cut_off(&mut self) {
        if self.cutting == Cutting::Always {
            self.kept = 0;
        }
    }

    /// The history has one entry more, which the book has to keep.
    fn add_entry(&mut self) {
        self.entries = self.entries.saturating_add(1);
        self.kept = self.kept.saturating_add(1);
    }

    /// Tells how many entries the book keeps, unless they are as many as they have to be.
    fn tell_kept(&self, told: &mut Told) -> Result<(), Fault> {
        let kept = self.book.kept();
        if kept != self.kept {
            let text = format!(in self.alloc; "kept {kept}")?;
            told.fact(text.as_bytes())?;
        }
        Ok(())
    }
}

/// Tells where the world told something else than the book.
fn tell_agreement(agrees: bool, told: &mut Told) -> Result<(), AllocError> {
    if agrees {
        Ok(())
    } else {
        told.fact(b"world differs")
    }
}

/// The number of a connection that came. `None` where there are too many.
fn connected(came: Result<u64, ConnectFault>) -> Result<Option<u64>, Fault> {
    match came {
        Ok(conn) => Ok(Some(conn)),
        Err(ConnectFault::Full) => Ok(None),
        Err(ConnectFault::OutOfMemory) => Err(Fault::OutOfMemory),
    }
}

/// The one request that bytes are.
fn read_request(alloc: Global, bytes: &[u8]) -> Result<Request, Fault> {
    let mut units = Reader::new(alloc).feed(bytes)?.units;
    if units.len() != 1 {
        return Err(Fault::NoMessage);
    }
    match units.pop() {
        Some(Unit::Message(request)) => Ok(request),
        _ => Err(Fault::NoMessage),
    }
}

/// A point, as `SEQ/RTPTIME`, or `-` for none.
fn read_point(word: &[u8]) -> Result<Option<Point>, Fault> {
    let (sequence, Some(timestamp)) = cut(word, b'/') else {
        return if word == b"-".as_slice() {
            Ok(None)
        } else {
            Err(Fault::BadNumber)
        };
    };
    Ok(Some(Point {
        seq: short_of(sequence)?,
        rtptime: read_number(timestamp, u32::MAX).ok_or(Fault::BadNumber)?,
    }))
}

/// Whether a reply is written as this text.
fn is_written(alloc: Global, reply: Reply, text: &[u8]) -> Result<bool, AllocError> {
    let mut written = Vec::new(alloc);
    put_reply(&mut written, &reply)?;
    Ok(written.as_slice() == text)
}

fn act_text(alloc: Global, act: Act) -> Result<String, AllocError> {
    match act {
        Act::None => String::from_str(alloc, "none"),
        Act::Open => String::from_str(alloc, "open"),
        Act::Play { mount, seat } => format!(in alloc; "play {mount} {seat}"),
        Act::Stop { mount, seat } => format!(in alloc; "stop {mount} {seat}"),
        Act::Record => String::from_str(alloc, "record"),
        Act::End => String::from_str(alloc, "end"),
    }
}

/// The act of an answer, the pass that was handed out, and how many came back.
fn answer_text(alloc: Global, answer: &Answer<u16>) -> Result<String, AllocError> {
    let mut text = act_text(alloc, answer.act)?;
    if let Some(pass) = answer.pass {
        text.push_str(format!(in alloc; " pass {pass}")?.as_str())?;
    }
    push_back(&mut text, alloc, &answer.back)?;
    Ok(text)
}

/// Tells why a request isn't answered, and how many passes came back.
fn tell_refusal(alloc: Global, fault: &AskFault<u16>, told: &mut Told) -> Result<(), Fault> {
    let (words, back) = match fault {
        AskFault::NotOpen { back } => ("not open", back),
        AskFault::BadOffer { back } => ("bad offer", back),
        AskFault::NoMemory { .. } => return Err(Fault::OutOfMemory),
    };
    let mut text = String::from_str(alloc, words)?;
    push_back(&mut text, alloc, back)?;
    Ok(told.fact(text.as_bytes())?)
}

/// Says how many passes came back, if any did.
fn push_back(text: &mut String, alloc: Global, back: &Option<Vec<u16>>) -> Result<(), AllocError> {
    let count = match back {
        Some(passes) => passes.len(),
        None => 0,
    };
    if count > 0 {
        text.push_str(format!(in alloc; " back {count}")?.as_str())?;
    }
    Ok(())
}

fn state_text(alloc: Global, session: Option<&Session>) -> Result<String, AllocError> {
    let Some(session) = session else {
        return String::from_str(alloc, "init");
    };
    match session.state {
        State::Ready => String::from_str(alloc, "ready"),
        State::Playing { seat } => format!(in alloc; "playing {seat}"),
        State::Recording => String::from_str(alloc, "recording"),
    }
}
