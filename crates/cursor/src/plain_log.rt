ghost use Rattle.std.specs.Prelude.{◌≡◌, ◌<◌, ◌≤◌, ◌↔◌, ◌^◌, false, length};
ghost use Rattle.std.specs.Prelude.{IsTrue, IfOk, IfErr, OnErr, IsErrOf};
ghost use Rattle.cursor.specs.Account.{cursor_of};
ghost use Rattle.cursor.specs.Log.{packet_of};
ghost use Rattle.cursor.specs.Plain.{empty_plain, PlainEvent, PlainMayRefuse, IsFree, IsAttached, HasAccount, TakesAt};
ghost use Rattle.cursor.specs.Taps.{delivery_of, FitsBuffer};
ghost use Rattle.cursor.specs.Visits.{TakesWith};

use crate::calls::{Answer, Call};
use crate::copies::Copying;
use crate::packets::Packet;
use crate::refusals::Refused;
use crate::takes::{Account, Left, Taken};
use crate::visits::Visit;
use base_syntax::Bytes;
use std::alloc::{AllocError, Global};
use std::marker::Model;

/// The broadcast log as a value: the whole list of packets, whether it is closed, and a place for
/// each seat.
pub struct PlainLog {
    alloc: Global,
    keep: u64,
    packet_bytes: usize,
    packets: Vec<Packet>,
    closed: bool,
    seats: Vec<Option<Account>>,
}

impl Model for PlainLog {
    ghost use Rattle.cursor.specs.Plain.{Plain, IsSound, plain_of};

    ghost Value = { Plain };

    ghost view = { λ p. plain_of p.keep p.packet_bytes p.packets.items p.closed p.seats.items };

    ghost invariant = { λ p. IsSound (plain_of p.keep p.packet_bytes p.packets.items p.closed p.seats.items) };
}

impl Drop for PlainLog {
    fn drop(self) {
        let PlainLog {
            alloc: _,
            keep: _,
            packet_bytes: _,
            packets: _,
            closed: _,
            seats: _,
        } = self;
    }
}

impl PlainLog {
    /// An empty open log that keeps the last `keep` packets for its seats, none of which is attached.
    /// Its packets have at most `packet_bytes` bytes.
    pub fn new(
        alloc: Global,
        keep: u64,
        seats: u16,
        packet_bytes: usize,
    ) -> Result<PlainLog, AllocError>
        requires { packet_bytes ≤ 65535 }
        ensures { IfOk result (λ log. log ≡ empty_plain keep seats packet_bytes) }
    {
        Ok(PlainLog {
            alloc,
            keep,
            packet_bytes,
            packets: Vec::new(alloc),
            closed: false,
            seats: vec![in alloc; None; usize::from(seats)]?,
        })
    }

    /// Appends a packet to the open log, and answers its number. A refusal, which is `TooLong` or
    /// `OutOfMemory`, changes nothing.
    pub fn publish(&mut self, tag: u8, bytes: &[u8]) -> Result<u64, Refused>
        requires { self.old.closed ≡ false }
        ensures appended { IfOk result (λ n.
            PlainEvent self.old (Call.Publish (packet_of tag bytes.now)) (Answer.Appended n) self.new) }
        ensures refused { OnErr result (self.new ≡ self.old) }
        ensures too_long { IsErrOf result Refused.TooLong ↔ (self.old.packet_bytes < length bytes.now) }
        ensures may { IfErr result PlainMayRefuse }
    {
        if bytes.len() > self.packet_bytes {
            return Err(Refused::TooLong);
        }
        let number = self.packets.len() as u64;
        let bytes = Bytes::from_slice(self.alloc, bytes)?;
        self.packets.push(Packet { tag, bytes })?;
        Ok(number)
    }

    /// Ends the open log: no packet comes after it.
    pub fn close(&mut self)
        requires { self.old.closed ≡ false }
        ensures { PlainEvent self.old Call.Close Answer.Closed self.new }
    {
        self.closed = true;
    }

    /// Attaches a seat that isn't attached, and answers the number that it reads from: the next packet's.
    pub fn attach(&mut self, seat: u16) -> u64
        requires { IsFree self.old seat }
        ensures event { PlainEvent self.old (Call.Attach seat 0) (Answer.Attached result) self.new }
        ensures end { result ≡ length self.old.packets }
    {
        self.attach_back(seat, 0)
    }

    /// Attaches a seat that isn't attached, up to `back` packets back from the log's end, and answers the
    /// number that it reads from. It isn't given more packets than the log keeps, nor than there are.
    pub fn attach_back(&mut self, seat: u16, back: u64) -> u64
        requires { IsFree self.old seat }
        ensures { PlainEvent self.old (Call.Attach seat back) (Answer.Attached result) self.new }
    {
        let account = Account::begun(self.keep, back, self.packets.len() as u64);
        self.seats[usize::from(seat)] = Some(account);
        account.start
    }

    /// The seat's next packet, or why there is none now. A packet's bytes are the first `len` of the
    /// buffer.
    pub fn take(&mut self, seat: u16, buf: &mut [u8]) -> Taken
        requires attached { IsAttached self.old seat }
        requires room { self.old.packet_bytes ≤ length buf.old }
        ensures event { let answer = Answer.Taken (delivery_of result buf.new) in
            PlainEvent self.old (Call.Take seat) answer self.new }
        ensures fits { FitsBuffer result self.old.packet_bytes }
    {
        let mut copying = Copying::new(buf);
        self.take_with(seat, &mut copying)
    }

    /// Takes as `take` does, and shows the packet to the visitor where it lies.
    pub fn take_with<V: Visit>(&mut self, seat: u16, visitor: &mut V) -> Taken
        requires attached { IsAttached self.old seat }
        requires room { self.old.packet_bytes ≤ V.packet_bytes visitor.old }
        ensures event { TakesWith (TakesAt seat) V.see_gives self.old visitor.old result self.new visitor.new }
        ensures fits { FitsBuffer result self.old.packet_bytes }
        ensures room { V.packet_bytes visitor.new ≡ V.packet_bytes visitor.old }
    {
        let end = self.packets.len() as u64;
        let floor = end.saturating_sub(self.keep);
        let mut account = self.account(seat);
        let cursor = account.cursor();
        let taken = if cursor < floor {
            account.lost += floor - cursor;
            Taken::Lost(floor - cursor)
        } else if cursor < end {
            let packet = &self.packets[cursor as usize];
            let bytes = packet.bytes.as_slice();
            visitor.see(packet.tag, bytes);
            account.taken += 1;
            Taken::Packet {
                number: cursor,
                tag: packet.tag,
                len: bytes.len(),
            }
        } else if self.closed {
            Taken::Ended
        } else {
            Taken::Empty
        };
        self.seats[usize::from(seat)] = Some(account);
        taken
    }

    /// Detaches a seat, and tells what it took, what it lost, and how many packets it left.
    pub fn detach(&mut self, seat: u16) -> Left
        requires { IsAttached self.old seat }
        ensures { PlainEvent self.old (Call.Detach seat) (Answer.Detached result) self.new }
    {
        let account = self.account(seat);
        let left = self.packets.len() as u64 - account.cursor();
        self.seats[usize::from(seat)] = None;
        Left {
            taken: account.taken,
            lost: account.lost,
            left,
        }
    }

    /// Where the attached seat began, and what it took and lost since.
    pub fn account(&self, seat: u16) -> Account
        requires { IsAttached self.now seat }
        ensures account { HasAccount self.now seat result }
        ensures within { cursor_of result ≤ length self.now.packets }
        ensures small { cursor_of result < 2 ^ 64 }
    {
        match self.seats[usize::from(seat)] {
            Some(account) => account,
            None => unreachable!(),
        }
    }

    /// Whether the seat is there and attached.
    pub fn is_attached(&self, seat: u16) -> bool
        ensures { IsTrue result ↔ IsAttached self.now seat }
    {
        matches!(self.seats.get(usize::from(seat)), Some(Some(_)))
    }

    /// Whether the seat is there and isn't attached.
    pub fn is_free(&self, seat: u16) -> bool
        ensures { IsTrue result ↔ IsFree self.now seat }
    {
        matches!(self.seats.get(usize::from(seat)), Some(None))
    }

    /// Whether the log has ended.
    pub fn is_closed(&self) -> bool
        ensures { result ≡ self.now.closed }
    {
        self.closed
    }

    /// The longest packet that the log takes, in bytes: at most 65,535.
    pub fn packet_bytes(&self) -> usize
        ensures value { result ≡ self.now.packet_bytes }
        ensures bound { result ≤ 65535 }
    {
        self.packet_bytes
    }
}
