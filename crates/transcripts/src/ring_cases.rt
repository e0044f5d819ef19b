//! Cases of a running ring, on one thread.

use crate::log_cases::{back_of, tell_account, tell_left, tell_taken};
use case_texts::{Arguments, Fault, Told, meaning};
use cursor::{Feed, Tap};
use packet_ring::{Pass, Publisher, Subscriber, new};
use std::alloc::{AllocError, Global};
use std::mem;

/// What a word of a ring's case asks for.
#[derive(Clone, Copy, Drop)]
enum RingWord {
    Ring,
    Passes,
    Publish,
    Many,
    Close,
    FeedClose,
    Leave,
    Seat(SeatWord),
}

/// What is asked of a seat.
#[derive(Clone, Copy, Drop)]
enum SeatWord {
    Attach,
    AttachBack,
    Detach,
    Leave,
    Told(ToldWord),
}

/// What is told of an attached seat.
#[derive(Clone, Copy, Drop)]
enum ToldWord {
    Take,
    Cursor,
    Account,
    Known,
}

const WORDS: [(&str, RingWord); 15] = [
    ("ring", RingWord::Ring),
    ("passes", RingWord::Passes),
    ("publish", RingWord::Publish),
    ("many", RingWord::Many),
    ("close", RingWord::Close),
    ("feed-close", RingWord::FeedClose),
    ("leave", RingWord::Leave),
    ("attach", RingWord::Seat(SeatWord::Attach)),
    ("attach-back", RingWord::Seat(SeatWord::AttachBack)),
    ("detach", RingWord::Seat(SeatWord::Detach)),
    ("leave-seat", RingWord::Seat(SeatWord::Leave)),
    ("take", RingWord::Seat(SeatWord::Told(ToldWord::Take))),
    ("cursor", RingWord::Seat(SeatWord::Told(ToldWord::Cursor))),
    ("account", RingWord::Seat(SeatWord::Told(ToldWord::Account))),
    ("known", RingWord::Seat(SeatWord::Told(ToldWord::Known))),
];

/// A seat of a ring.
#[derive(Drop)]
enum Seat {
    Out(Pass),
    In(Subscriber),
    /// Its pass or its subscriber was dropped.
    Gone,
}

/// A ring, once one was made.
#[derive(Drop)]
pub struct RingCase {
    publisher: Option<Publisher>,
    seats: Vec<Seat>,
}

impl RingCase {
    /// No ring.
    pub fn new(alloc: Global) -> RingCase {
        RingCase {
            publisher: None,
            seats: Vec::new(alloc),
        }
    }

    pub fn call(
        &mut self,
        word: &[u8],
        arguments: &mut Arguments<'_>,
        told: &mut Told,
    ) -> Result<(), Fault> {
        match meaning(&WORDS, word).ok_or(Fault::UnknownWord)? {
            RingWord::Ring => self.make(arguments, told.alloc()),
            RingWord::Passes => Ok(told.number(Some(self.seats.len() as u64))?),
            RingWord::Publish => self.publish(1, arguments, told),
            RingWord::Many => {
                let count = arguments.number()?;
                self.publish(count, arguments, told)
            }
            RingWord::Close => self.close(told),
            RingWord::FeedClose => self.close_feed(),
            RingWord::Leave => {
                self.publisher = None;
                Ok(())
            }
            RingWord::Seat(word) => {
                let place = arguments.number()? as usize;
                match self.seats.get_mut(place) {
                    Some(seat) => call_seat(seat, word, arguments, told),
                    None => Err(Fault::BadNumber),
                }
            }
        }
    }

    /// `ring KEEP SEATS PACKET_BYTES`.
    fn make(&mut self, arguments: &mut Arguments<'_>, alloc: Global) -> Result<(), Fault> {
        let keep = arguments.number_to(4095)? as usize;
        let seats = arguments.number_to(1024)? as usize;
        let packet_bytes = arguments.number_to(65_535)? as usize;
        if keep == 0 || packet_bytes == 0 {
            return Err(Fault::BadNumber);
        }
        let (publisher, passes) = new(alloc, keep, seats, packet_bytes)?;
        self.seats = seats_of(alloc, passes)?;
        self.publisher = Some(publisher);
        Ok(())
    }

    /// Publishes a packet a number of times, and tells what the last publish returned.
    fn publish(
        &mut self,
        times: u32,
        arguments: &mut Arguments<'_>,
        told: &mut Told,
    ) -> Result<(), Fault> {
        let tag = arguments.byte()?;
        let bytes = arguments.text(told.alloc())?;
        match &mut self.publisher {
            Some(publisher) => Ok(publish(publisher, times, tag, &bytes, told)?),
            None => Err(Fault::TooEarly),
        }
    }

    /// `close`: tells the number of the receipt.
    fn close(&mut self, told: &mut Told) -> Result<(), Fault> {
        match self.publisher.take() {
            Some(publisher) => Ok(told.number(Some(publisher.close().number()))?),
            None => Err(Fault::TooEarly),
        }
    }

    /// `feed-close`: closes the ring as a feed.
    fn close_feed(&mut self) -> Result<(), Fault> {
        match self.publisher.take() {
            Some(publisher) => {
                Feed::close(publisher);
                Ok(())
            }
            None => Err(Fault::TooEarly),
        }
    }
}

/// Returns seats that aren't attached.
fn seats_of(alloc: Global, passes: Vec<Pass>) -> Result<Vec<Seat>, AllocError> {
    let mut seats = Vec::with_capacity(alloc, passes.len())?;
    for pass in passes {
        seats.push(Seat::Out(pass))?;
    }
    Ok(seats)
}

fn publish(
    publisher: &mut Publisher,
    times: u32,
    tag: u8,
    bytes: &[u8],
    told: &mut Told,
) -> Result<(), AllocError> {
    let mut last = None;
    for _ in 0..times {
        last = Some(Feed::publish(publisher, tag, bytes));
    }
    let line = match last {
        None => format!(in told.alloc(); "none")?,
        Some(Ok(number)) => format!(in told.alloc(); "appended {number}")?,
        Some(Err(refused)) => {
            let number = refused.number();
            format!(in told.alloc(); "refused {number}")?
        }
    };
    told.fact(line.as_bytes())
}

fn call_seat(
    seat: &mut Seat,
    word: SeatWord,
    arguments: &mut Arguments<'_>,
    told: &mut Told,
) -> Result<(), Fault> {
    match word {
        SeatWord::Attach => Ok(attach(seat, None, told)?),
        SeatWord::AttachBack => Ok(attach(seat, Some(back_of(arguments)?), told)?),
        SeatWord::Detach => Ok(detach(seat, told)?),
        SeatWord::Leave => {
            *seat = Seat::Gone;
            Ok(())
        }
        SeatWord::Told(word) => Ok(tell_seat(seat, word, told)?),
    }
}

/// Attaches a seat that isn't attached, and tells where it begins.
fn attach(seat: &mut Seat, back: Option<u64>, told: &mut Told) -> Result<(), AllocError> {
    match mem::replace(seat, Seat::Gone) {
        Seat::Out(pass) => {
            let subscriber = match back {
                Some(back) => pass.attach_back(back),
                None => pass.attach(),
            };
            let start = subscriber.cursor();
            *seat = Seat::In(subscriber);
            told.fact(format!(in told.alloc(); "attached {start}")?.as_bytes())
        }
        other => {
            *seat = other;
            told.fact(b"no")
        }
    }
}

/// Detaches a seat that is attached, and tells its packets.
fn detach(seat: &mut Seat, told: &mut Told) -> Result<(), AllocError> {
    match mem::replace(seat, Seat::Gone) {
        Seat::In(subscriber) => {
            let (pass, left) = subscriber.detach();
            *seat = Seat::Out(pass);
            tell_left(left, told)
        }
        other => {
            *seat = other;
            told.fact(b"no")
        }
    }
}

fn tell_seat(seat: &mut Seat, word: ToldWord, told: &mut Told) -> Result<(), AllocError> {
    match (seat, word) {
        (Seat::In(subscriber), ToldWord::Take) => take(subscriber, told),
        (Seat::In(subscriber), ToldWord::Cursor) => told.number(Some(subscriber.cursor())),
        (Seat::In(subscriber), ToldWord::Account) => tell_account(subscriber.account(), told),
        (Seat::In(subscriber), ToldWord::Known) => told.number(Some(subscriber.known())),
        (Seat::Out(pass), ToldWord::Known) => told.number(Some(pass.known())),
        _ => told.fact(b"no"),
    }
}

/// Takes an attached seat's next packet.
fn take(subscriber: &mut Subscriber, told: &mut Told) -> Result<(), AllocError> {
    let mut room = vec![in told.alloc(); 0; subscriber.packet_bytes()]?;
    let taken = subscriber.take(&mut room);
    tell_taken(taken, &room, told)
}
