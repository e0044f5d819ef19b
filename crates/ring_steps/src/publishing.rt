ghost use Rattle.std.specs.Prelude.{◌≡◌, ◌+◌, ◌-◌, ◌<◌, ◌≤◌, ◌^◌, length, IfOk, OnErr};
ghost use Rattle.ring_steps.specs.Ring.{State, slot};
ghost use Rattle.ring_steps.specs.Bounds.{PublisherBounds};
ghost use Rattle.ring_steps.specs.Step.{outcome, begin, write_length, write_byte, finish, append, close, next_place};

use crate::buffers::{byte_at, put_byte};
use crate::calls::{Observed, Stepped};
use crate::ring::Ring;
use crate::views::PublisherPhase;
use crate::words::{Head, Word};
use base_syntax::Bytes;
use cursor::Answer;
use std::alloc::AllocError;
use std::mem;

impl Ring {
    /// The place where the next packet goes.
    fn next_place(&self) -> usize
        requires { self.now.keep < 2 ^ 32 }
        ensures { result ≡ next_place self.now }
    {
        self.place(self.log.len() as u64)
    }

    /// The exchange that begins a slot, or the refusal where it fails.
    pub(crate) fn begin(&mut self, packet: &Bytes) -> Result<Stepped, AllocError>
        requires bounds { PublisherBounds self.old }
        ensures step { IfOk result (λ r. outcome self.new r ≡ begin self.old packet.now) }
        ensures err { OnErr result (self.new ≡ self.old) }
    {
        let packet = Bytes::from_slice(self.alloc, packet.as_slice())?;
        let place = self.next_place();
        let word = self.slots[place].word;
        let floor = (self.log.len() as u64).saturating_sub(self.keep);
        let saw = Observed::Begin(word);
        if word.number == floor && word.pins == 0 && !word.writing {
            self.slots[place].word.writing = true;
            self.publisher.phase = PublisherPhase::Begun;
            self.publisher.packet = packet;
            self.publisher.written = 0;
            Ok(Stepped { saw, answer: None })
        } else {
            self.publisher.failed += 1;
            self.publisher.pins = word.pins;
            Ok(Stepped {
                saw,
                answer: Some(Answer::Refused),
            })
        }
    }

    /// The write of the length cell.
    pub(crate) fn write_length(&mut self) -> Stepped
        requires bounds { PublisherBounds self.old }
        ensures { outcome self.new result ≡ write_length self.old }
    {
        let place = self.next_place();
        let len = self.publisher.packet.len();
        self.slots[place].len = len;
        self.publisher.phase = PublisherPhase::Filling;
        Stepped {
            saw: Observed::Length(len),
            answer: None,
        }
    }

    /// The write of one byte.
    pub(crate) fn write_byte(&mut self) -> Result<Stepped, AllocError>
        requires bounds { PublisherBounds self.old }
        requires more { self.old.publisher.written < 2 ^ 64 - 1 }
        ensures step { IfOk result (λ r. outcome self.new r ≡ write_byte self.old) }
        ensures err { OnErr result (self.new ≡ self.old) }
    {
        let place = self.next_place();
        let written = self.publisher.written;
        let byte = byte_at(&self.publisher.packet, written);
        put_byte(&mut self.slots[place].bytes, written, byte)?;
        self.publisher.written = written + 1;
        Ok(Stepped {
            saw: Observed::Byte(byte),
            answer: None,
        })
    }

    /// The addition that finishes a slot.
    pub(crate) fn finish(&mut self) -> Stepped
        requires bounds { PublisherBounds self.old }
        ensures { outcome self.new result ≡ finish self.old }
    {
        let place = self.next_place();
        let number = self.log.len() as u64 + 1;
        let word = self.slots[place].word;
        self.slots[place].word = Word {
            pins: word.pins,
            writing: false,
            number,
        };
        self.publisher.phase = PublisherPhase::Finished;
        Stepped {
            saw: Observed::Finish(word),
            answer: None,
        }
    }

    /// The store of the head that appends the pending packet.
    pub(crate) fn append(&mut self) -> Result<Stepped, AllocError>
        ensures step { IfOk result (λ r. outcome self.new r ≡ append self.old) }
        ensures err { OnErr result (self.new ≡ self.old) }
    {
        let number = self.log.len() as u64;
        self.log.reserve(1)?;
        let packet = mem::replace(&mut self.publisher.packet, Bytes::empty(self.alloc));
        self.log.push(packet).unwrap();
        self.publisher.phase = PublisherPhase::Between;
        self.head = Head {
            length: number + 1,
            closed: false,
        };
        Ok(Stepped {
            saw: Observed::Append(number + 1),
            answer: Some(Answer::Appended(number)),
        })
    }

    /// The store of the head that closes the log.
    pub(crate) fn close(&mut self) -> Stepped
        ensures { outcome self.new result ≡ close self.old }
    {
        self.head = Head {
            length: self.log.len() as u64,
            closed: true,
        };
        self.publisher.closed = true;
        Stepped {
            saw: Observed::Close,
            answer: Some(Answer::Closed),
        }
    }
}
