//! Cases of a log.
ghost use Rattle.cursor.specs.Plain.{IsAttached};

use base_syntax::read_number;
use case_texts::{Arguments, Fault, Told, meaning};
use cursor::{Account, Left, Packet, PlainLog, PlainTap, Refused, Taken, pump};
use std::alloc::{AllocError, Global};

/// What a word of a log's case asks for.
#[derive(Clone, Copy, Drop)]
enum LogWord {
    Log,
    Pump,
    Publish,
    Many,
    Close,
    Closed,
    Seat(SeatWord),
}

/// What is asked of a seat.
#[derive(Clone, Copy, Drop)]
enum SeatWord {
    Attached,
    Free,
    Attach,
    AttachBack,
    Take,
    Detach,
    Cursor,
    Account,
}

const WORDS: [(&str, LogWord); 14] = [
    ("log", LogWord::Log),
    ("pump", LogWord::Pump),
    ("publish", LogWord::Publish),
    ("many", LogWord::Many),
    ("close", LogWord::Close),
    ("closed", LogWord::Closed),
    ("attached", LogWord::Seat(SeatWord::Attached)),
    ("free", LogWord::Seat(SeatWord::Free)),
    ("attach", LogWord::Seat(SeatWord::Attach)),
    ("attach-back", LogWord::Seat(SeatWord::AttachBack)),
    ("take", LogWord::Seat(SeatWord::Take)),
    ("detach", LogWord::Seat(SeatWord::Detach)),
    ("cursor", LogWord::Seat(SeatWord::Cursor)),
    ("account", LogWord::Seat(SeatWord::Account)),
];

/// A log, once one was made.
#[derive(Drop)]
pub struct LogCase {
    log: Option<PlainLog>,
}

impl LogCase {
    /// No log.
    pub fn new() -> LogCase {
        LogCase { log: None }
    }

    pub fn call(
        &mut self,
        word: &[u8],
        arguments: &mut Arguments<'_>,
        told: &mut Told,
    ) -> Result<(), Fault> {
        match meaning(&WORDS, word).ok_or(Fault::UnknownWord)? {
            LogWord::Log => self.make(told.alloc(), arguments),
            LogWord::Pump => self.pump(arguments, told),
            word => match &mut self.log {
                Some(log) => call_log(log, word, arguments, told),
                None => Err(Fault::TooEarly),
            },
        }
    }

    /// Makes a log.
    fn make(&mut self, alloc: Global, arguments: &mut Arguments<'_>) -> Result<(), Fault> {
        let keep = u64::from(arguments.number()?);
        let seats = arguments.short()?;
        let packet_bytes = arguments.number_to(65_535)? as usize;
        self.log = Some(PlainLog::new(alloc, keep, seats, packet_bytes)?);
        Ok(())
    }

    /// Pumps a seat of the log.
    fn pump(&mut self, arguments: &mut Arguments<'_>, told: &mut Told) -> Result<(), Fault> {
        if self.log.is_none() {
            return Err(Fault::TooEarly);
        }
        let seat = arguments.short()?;
        let takes = u64::from(arguments.number()?);
        if let Some(log) = self.log.take() {
            self.log = Some(pumped(log, seat, takes, told)?);
        }
        Ok(())
    }
}

fn call_log(
    log: &mut PlainLog,
    word: LogWord,
    arguments: &mut Arguments<'_>,
    told: &mut Told,
) -> Result<(), Fault> {
    match word {
        LogWord::Publish => publish(log, 1, arguments, told),
        LogWord::Many => {
            let count = arguments.number()?;
            publish(log, count, arguments, told)
        }
        LogWord::Close => Ok(close(log, told)?),
        LogWord::Closed => Ok(told.truth(log.is_closed())?),
        LogWord::Seat(SeatWord::AttachBack) => {
            let seat = arguments.short()?;
            let back = back_of(arguments)?;
            Ok(attach(log, seat, Some(back), told)?)
        }
        LogWord::Seat(word) => Ok(call_seat(log, word, arguments.short()?, told)?),
        LogWord::Log | LogWord::Pump => Err(Fault::UnknownWord),
    }
}

/// A call over a seat.
fn call_seat(
    log: &mut PlainLog,
    word: SeatWord,
    seat: u16,
    told: &mut Told,
) -> Result<(), AllocError> {
    match word {
        SeatWord::Attached => told.truth(log.is_attached(seat)),
        SeatWord::Free => told.truth(log.is_free(seat)),
        SeatWord::Attach | SeatWord::AttachBack => attach(log, seat, None, told),
        _ if log.is_attached(seat) => call_attached(log, word, seat, told),
        _ => told.fact(b"no"),
    }
}

/// A call over a seat that is attached.
fn call_attached(
    log: &mut PlainLog,
    word: SeatWord,
    seat: u16,
    told: &mut Told,
) -> Result<(), AllocError>
    requires { IsAttached log.old seat }
{
    match word {
        SeatWord::Take => take(log, seat, told),
        SeatWord::Detach => tell_left(log.detach(seat), told),
        SeatWord::Cursor => told.number(Some(log.account(seat).cursor())),
        _ => tell_account(log.account(seat), told),
    }
}

pub fn tell_left(left: Left, told: &mut Told) -> Result<(), AllocError> {
    let Left { taken, lost, left } = left;
    let text = format!(in told.alloc(); "taken {taken} lost {lost} left {left}")?;
    told.fact(text.as_bytes())
}

/// Publishes a packet so many times, and tells what the last time was answered.
fn publish(
    log: &mut PlainLog,
    times: u32,
    arguments: &mut Arguments<'_>,
    told: &mut Told,
) -> Result<(), Fault> {
    let tag = arguments.byte()?;
    let bytes = arguments.text(told.alloc())?;
    let mut answer = String::from_str(told.alloc(), "no")?;
    for _ in 0..times {
        answer = published(log, tag, &bytes, told.alloc())?;
    }
    Ok(told.fact(answer.as_bytes())?)
}

fn published(log: &mut PlainLog, tag: u8, bytes: &[u8], alloc: Global) -> Result<String, Fault> {
    if log.is_closed() {
        return Ok(String::from_str(alloc, "no")?);
    }
    match log.publish(tag, bytes) {
        Ok(number) => Ok(format!(in alloc; "appended {number}")?),
        Err(Refused::OutOfMemory) => Err(Fault::OutOfMemory),
        Err(refused) => {
            let number = refused.number();
            Ok(format!(in alloc; "refused {number}")?)
        }
    }
}

fn close(log: &mut PlainLog, told: &mut Told) -> Result<(), AllocError> {
    if log.is_closed() {
        return told.fact(b"no");
    }
    log.close();
    told.fact(b"closed")
}

/// Attaches a seat, at the log's end or a number of packets back.
fn attach(
    log: &mut PlainLog,
    seat: u16,
    back: Option<u64>,
    told: &mut Told,
) -> Result<(), AllocError> {
    if !log.is_free(seat) {
        return told.fact(b"no");
    }
    let start = match back {
        Some(back) => log.attach_back(seat, back),
        None => log.attach(seat),
    };
    told.fact(format!(in told.alloc(); "attached {start}")?.as_bytes())
}

/// Takes how many packets back a seat begins: a number, or `all` for the largest one.
pub fn back_of(arguments: &mut Arguments<'_>) -> Result<u64, Fault> {
    let word = arguments.word().ok_or(Fault::BadNumber)?;
    if word == b"all".as_slice() {
        return Ok(u64::MAX);
    }
    let number = read_number(word, u32::MAX).ok_or(Fault::BadNumber)?;
    Ok(u64::from(number))
}

/// Takes an attached seat's next packet.
fn take(log: &mut PlainLog, seat: u16, told: &mut Told) -> Result<(), AllocError>
    requires { IsAttached log.old seat }
{
    let mut room = vec![in told.alloc(); 0; log.packet_bytes()]?;
    let taken = log.take(seat, &mut room);
    tell_taken(taken, &room, told)
}

/// Tells what a take returned, whose packet is at the front of these bytes.
pub fn tell_taken(taken: Taken, room: &[u8], told: &mut Told) -> Result<(), AllocError> {
    let alloc = told.alloc();
    match taken {
        Taken::Packet { number, tag, len } => {
            let head = format!(in alloc; "packet {number} {tag}")?;
            told.named(head.as_bytes(), &room[..len.min(room.len())])
        }
        Taken::Lost(count) => told.fact(format!(in alloc; "lost {count}")?.as_bytes()),
        Taken::Empty => told.fact(b"empty"),
        Taken::Ended => told.fact(b"ended"),
    }
}

pub fn tell_account(account: Account, told: &mut Told) -> Result<(), AllocError> {
    let Account { start, taken, lost } = account;
    let text = format!(in told.alloc(); "start {start} taken {taken} lost {lost}")?;
    told.fact(text.as_bytes())
}

/// Pumps at most so many takes of a seat, and tells the packets and the account.
fn pumped(log: PlainLog, seat: u16, takes: u64, told: &mut Told) -> Result<PlainLog, Fault> {
    if !log.is_attached(seat) {
        told.fact(b"no")?;
        return Ok(log);
    }
    let mut tap = PlainTap::new(log, seat);
    tell_pumped(&mut tap, takes, told)?;
    Ok(tap.into_log())
}

/// Pumps at most so many takes of a tap, and tells the packets and the account.
fn tell_pumped(tap: &mut PlainTap, takes: u64, told: &mut Told) -> Result<(), AllocError> {
    let mut packets = Vec::new(told.alloc());
    let Ok(account) = pump(told.alloc(), tap, takes, &mut packets) else {
        return Err(AllocError);
    };
    tell_packets(&packets, told)?;
    tell_account(account, told)
}

fn tell_packets(packets: &[Packet], told: &mut Told) -> Result<(), AllocError> {
    for packet in packets {
        tell_packet(packet, told)?;
    }
    Ok(())
}

fn tell_packet(packet: &Packet, told: &mut Told) -> Result<(), AllocError> {
    let tag = packet.tag;
    let head = format!(in told.alloc(); "packet {tag}")?;
    told.named(head.as_bytes(), packet.bytes.as_slice())
}
