ghost use Rattle.std.specs.Prelude.{◌≡◌, ◌+◌, ◌<◌, ◌≤◌, ◌^◌, ◌≢◌, ℕ, Some, length, slice_get, slice_index_or, IfOk, OnOk, OnErr};
ghost use Rattle.cursor.specs.Account.{cursor_of};
ghost use Rattle.ring_steps.specs.Ring.{State, seat_at, cursor, place, word};
ghost use Rattle.ring_steps.specs.Bounds.{SeatBounds};
ghost use Rattle.ring_steps.specs.Step.{outcome, attach, detach, first_load, second_load, end_take, lose, find_packet, pin, unpin, unpin_failed, read_length, read_byte};

use crate::buffers::byte_at;
use crate::calls::{Observed, Stepped};
use crate::views::{Publisher, PublisherPhase, Seat, SeatPhase};
use crate::words::{Head, Slot, Word};
use base_syntax::Bytes;
use cursor::{Account, Answer, Delivery, Left, Packet};
use std::alloc::{AllocError, Global};
use std::marker::Model;

/// A ring whose publisher and seats make one atomic step at a time.
pub struct Ring {
    pub(crate) alloc: Global,
    pub(crate) keep: u64,
    pub(crate) head: Head,
    pub(crate) slots: Vec<Slot>,
    pub(crate) log: Vec<Bytes>,
    pub(crate) publisher: Publisher,
    pub(crate) seats: Vec<Seat>,
}

impl Model for Ring {
    ghost Value = { State };

    ghost view = { λ p. record { keep = p.keep; head = p.head; slots = p.slots.items; log = p.log.items; publisher = p.publisher; seats = p.seats.items } };
}

impl Drop for Ring {
    fn drop(self) {
        let Ring {
            alloc: _,
            keep: _,
            head: _,
            slots: _,
            log: _,
            publisher: _,
            seats: _,
        } = self;
    }
}

impl Ring {
    /// An attachment's load. The seat begins up to `back` packets back from the end.
    pub(crate) fn attach(&mut self, seat: usize, back: u64) -> Stepped
        requires bounds { SeatBounds self.old seat }
        ensures { outcome self.new result ≡ attach self.old seat (seat_at self.old seat) back }
    {
        let head = self.head;
        let account = Account::begun(self.keep, back, head.length);
        let view = &mut self.seats[seat];
        view.load(head);
        view.phase = SeatPhase::Between;
        view.account = account;
        Stepped {
            saw: Observed::Load(head),
            answer: Some(Answer::Attached(account.start)),
        }
    }

    /// A detachment's load.
    pub(crate) fn detach(&mut self, seat: usize) -> Stepped
        requires bounds { SeatBounds self.old seat }
        ensures { outcome self.new result ≡ detach self.old seat (seat_at self.old seat) }
    {
        let head = self.head;
        let account = self.seats[seat].account;
        let view = &mut self.seats[seat];
        view.load(head);
        view.phase = SeatPhase::Out;
        Stepped {
            saw: Observed::Load(head),
            answer: Some(Answer::Detached(Left {
                taken: account.taken,
                lost: account.lost,
                left: head.length - account.cursor(),
            })),
        }
    }

    /// A take's first load.
    pub(crate) fn first_load(&mut self, seat: usize) -> Stepped
        requires bounds { SeatBounds self.old seat }
        ensures { outcome self.new result ≡ first_load self.old seat (seat_at self.old seat) }
    {
        let cursor = self.seats[seat].account.cursor();
        let floor = self.head.length.saturating_sub(self.keep);
        if self.head.length == cursor {
            self.end_take(seat)
        } else if cursor < floor {
            self.lose(seat, floor - cursor)
        } else {
            self.find_packet(seat)
        }
    }

    /// A take's second load, after a pin that failed.
    pub(crate) fn second_load(&mut self, seat: usize) -> Stepped
        requires bounds { SeatBounds self.old seat }
        ensures { outcome self.new result ≡ second_load self.old seat (seat_at self.old seat) }
    {
        let cursor = self.seats[seat].account.cursor();
        let floor = self.head.length.saturating_sub(self.keep);
        self.lose(seat, floor.saturating_sub(cursor))
    }

    /// A load that ends a take at the end of the log.
    pub(crate) fn end_take(&mut self, seat: usize) -> Stepped
        requires bounds { SeatBounds self.old seat }
        ensures { outcome self.new result ≡ end_take self.old seat (seat_at self.old seat) }
    {
        let head = self.head;
        self.seats[seat].load(head);
        let taken = if head.closed {
            Delivery::Ended
        } else {
            Delivery::Empty
        };
        Stepped {
            saw: Observed::Load(head),
            answer: Some(Answer::Taken(taken)),
        }
    }

    /// A load that ends a take with so many packets lost.
    pub(crate) fn lose(&mut self, seat: usize, count: u64) -> Stepped
        requires bounds { SeatBounds self.old seat }
        requires small { (seat_at self.old seat).account.lost + count < 2 ^ 64 }
        ensures { outcome self.new result ≡ lose self.old seat (seat_at self.old seat) count }
    {
        let head = self.head;
        let view = &mut self.seats[seat];
        view.account.lost += count;
        view.load(head);
        view.phase = SeatPhase::Between;
        Stepped {
            saw: Observed::Load(head),
            answer: Some(Answer::Taken(Delivery::Lost(count))),
        }
    }

    /// A load after which the packet at the cursor is to be pinned.
    pub(crate) fn find_packet(&mut self, seat: usize) -> Stepped
        requires bounds { SeatBounds self.old seat }
        ensures { outcome self.new result ≡ find_packet self.old seat (seat_at self.old seat) }
    {
        let head = self.head;
        let view = &mut self.seats[seat];
        view.load(head);
        view.phase = SeatPhase::Found;
        Stepped {
            saw: Observed::Load(head),
            answer: None,
        }
    }

    /// The place of a packet's slot.
    pub(crate) fn place(&self, number: u64) -> usize
        requires { self.now.keep < 2 ^ 32 }
        ensures { result ≡ place self.now number }
    {
        (number % (self.keep + 1)) as usize
    }

    /// The pin of the slot of the packet at the cursor.
    pub(crate) fn pin(&mut self, seat: usize) -> Stepped
        requires bounds { SeatBounds self.old seat }
        ensures { outcome self.new result ≡ pin self.old seat (seat_at self.old seat) }
    {
        let cursor = self.seats[seat].account.cursor();
        let place = self.place(cursor);
        let word = self.slots[place].word;
        self.slots[place].word.pins = word.pins + 1;
        self.seats[seat].phase = if word.number == cursor + 1 && !word.writing {
            SeatPhase::Holding
        } else {
            SeatPhase::Failed
        };
        Stepped {
            saw: Observed::Pin(word),
            answer: None,
        }
    }

    /// The unpin after the last byte.
    pub(crate) fn unpin(&mut self, seat: usize) -> Result<Stepped, AllocError>
        requires bounds { SeatBounds self.old seat }
        requires pinned { 1 ≤ (word self.old (place self.old (cursor (seat_at self.old seat)))).pins }
        ensures step { IfOk result (λ r. outcome self.new r ≡ unpin self.old seat (seat_at self.old seat)) }
        ensures err { OnErr result (self.new ≡ self.old) }
    {
        let number = self.seats[seat].account.cursor();
        let bytes = Vec::from_slice(self.alloc, self.seats[seat].read.as_slice())?;
        let place = self.place(number);
        let word = self.slots[place].word;
        self.slots[place].word.pins = word.pins - 1;
        let view = &mut self.seats[seat];
        view.account.taken += 1;
        view.phase = SeatPhase::Between;
        let packet = Packet {
            tag: 0,
            bytes: Bytes::new(bytes),
        };
        Ok(Stepped {
            saw: Observed::Unpin(word),
            answer: Some(Answer::Taken(Delivery::Got { number, packet })),
        })
    }

    /// The unpin after a pin that failed.
    pub(crate) fn unpin_failed(&mut self, seat: usize) -> Stepped
        requires bounds { SeatBounds self.old seat }
        requires pinned { 1 ≤ (word self.old (place self.old (cursor (seat_at self.old seat)))).pins }
        ensures { outcome self.new result ≡ unpin_failed self.old seat (seat_at self.old seat) }
    {
        let cursor = self.seats[seat].account.cursor();
        let place = self.place(cursor);
        let word = self.slots[place].word;
        self.slots[place].word.pins = word.pins - 1;
        let view = &mut self.seats[seat];
        view.phase = SeatPhase::Missed;
        view.misses += 1;
        Stepped {
            saw: Observed::Unpin(word),
            answer: None,
        }
    }

    /// The read of the length cell.
    pub(crate) fn read_length(&mut self, seat: usize) -> Stepped
        requires bounds { SeatBounds self.old seat }
        ensures { outcome self.new result ≡ read_length self.old seat (seat_at self.old seat) }
    {
        let cursor = self.seats[seat].account.cursor();
        let place = self.place(cursor);
        let len = self.slots[place].len;
        let view = &mut self.seats[seat];
        view.length = len;
        view.read.clear();
        view.phase = SeatPhase::Reading;
        Stepped {
            saw: Observed::Length(len),
            answer: None,
        }
    }

    /// The read of one byte.
    pub(crate) fn read_byte(&mut self, seat: usize) -> Result<Stepped, AllocError>
        requires bounds { SeatBounds self.old seat }
        ensures step { IfOk result (λ r. outcome self.new r ≡ read_byte self.old seat (seat_at self.old seat)) }
        ensures err { OnErr result (self.new ≡ self.old) }
    {
        let cursor = self.seats[seat].account.cursor();
        let place = self.place(cursor);
        let byte = byte_at(&self.slots[place].bytes, self.seats[seat].read.len());
        self.seats[seat].read.push(byte)?;
        Ok(Stepped {
            saw: Observed::Byte(byte),
            answer: None,
        })
    }
}
