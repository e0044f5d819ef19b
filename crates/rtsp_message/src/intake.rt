//! The units of a source, one by one.
ghost use Rattle.std.specs.Prelude.{◌≡◌, ◌<◌, ◌≤◌, ◌+◌, [], length, IfSome, IfNone};

use crate::fault::Fault;
use crate::part::part_len;
use crate::piece::Piece;
use crate::reader::Reader;
use crate::unit::Unit;
use interleaved::Source;
use std::alloc::Global;
use std::marker::Model;
use std::vec::IntoIter;

/// What an intake returns.
#[derive(Drop)]
pub enum Next {
    Unit(Unit),
    /// The source is at its end, and what came last is no whole unit.
    End,
    /// The stream can't be read on.
    Fault(Fault),
    /// The source has failed.
    ReadFailed,
    /// Memory was refused. No byte is lost: the next call goes on from there.
    OutOfMemory,
}

/// The units of a source, one by one.
pub struct Intake<S: Source> {
    alloc: Global,
    source: S,
    reader: Reader,
    units: IntoIter<Unit>,
    /// What the last read brought: the first `held` of these bytes. The reader has taken the first `from` of them.
    piece: Piece,
    held: usize,
    from: usize,
    /// The source has given all its bytes.
    ended: bool,
}

impl<S: Source> Model for Intake<S> {
    ghost use Rattle.rtsp_message.specs.Intakes.{IntakeState};

    ghost Value = { IntakeState S };

    ghost use Rattle.rtsp_message.specs.IntakeFields.{state_of, IsIntake};

    ghost view = { state_of };

    ghost invariant = { IsIntake S.incoming };
}

impl<S: Source + Drop> Drop for Intake<S> {
    fn drop(self) {
        let Intake {
            alloc: _,
            source: _,
            reader: _,
            units: _,
            piece: _,
            held: _,
            from: _,
            ended: _,
        } = self;
    }
}

impl<S: Source + Drop> Intake<S> {
    ghost use Rattle.rtsp_message.specs.Intakes.{fresh, handed, weight, HandsOut, Tells, IsOver, Lasts, IsNoUnit, IsPrompt, ReadsOnce, Takes};

    pub fn new(alloc: Global, source: S) -> Intake<S>
        ensures { result ≡ fresh source }
    {
        Intake {
            alloc,
            source,
            reader: Reader::new(alloc),
            units: Vec::new(alloc).into_iter(),
            piece: Piece::new(),
            held: 0,
            from: 0,
            ended: false,
        }
    }

    /// Gives the source back, as far as it was read.
    pub fn into_source(self) -> S
        ensures { result ≡ self.source }
    {
        let Intake {
            alloc: _,
            source,
            reader: _,
            units: _,
            piece: _,
            held: _,
            from: _,
            ended: _,
        } = self;
        source
    }

    /// Returns the most units that can still come. Each takes at least a byte of what the source has left, of what is held or
    /// of what waits, or it is queued.
    ///
    /// Apart from what the source has left that is limited. The bytes held and the units queued are at most 65,536 together,
    /// and fewer than 73,728 bytes wait. At most 2,048 units are queued: the last part was at most 512 whole frames, or each
    /// took a byte of 2,048.
    pub fn left(&self) -> u64
        ensures value { result ≡ weight S.bound self.now }
        ensures few { result < S.bound self.now.source + 139_264 }
        ensures queued { length self.now.queue ≤ 2_048 }
    {
        let held = &self.piece.as_slice()[..self.held];
        let unread = self.source.left() + (held.len() - self.from) as u64;
        unread + self.reader.waiting() as u64 + self.units.len() as u64
    }

    /// The next unit, or why there is none. After `End`, `Fault` or `ReadFailed` it returns the same for good.
    ///
    /// The source is read only if no unit, no fault and no end is at hand, so that a source that waits for more
    /// keeps back nothing that has come whole.
    pub fn next(&mut self) -> Next
        ensures hands_out { HandsOut S.incoming self.old self.new (handed result) }
        ensures tells { Tells S.incoming S.failed self.new result }
        ensures lasts { Lasts S.failed self.new result }
        ensures for_good { (answer : _) → IsOver S.failed self.old answer → result ≡ answer }
        ensures ends { weight S.bound self.new + length (handed result) ≤ weight S.bound self.old }
        ensures prompt { IsPrompt S.gives self.old self.new }
    {
        loop {
            if let Some(unit) = self.units.next() {
                return Next::Unit(unit);
            }
            if let Some(answer) = self.read_on() {
                return answer;
            }
        }
    }

    /// Reads units from the next part, or returns why there are none to read. What was handed out takes no room meanwhile.
    fn read_on(&mut self) -> Option<Next>
        requires { self.old.queue ≡ [] }
        ensures hands_out { HandsOut S.incoming self.old self.new [] }
        ensures no_unit { IfSome result IsNoUnit }
        ensures tells { IfSome result (Tells S.incoming S.failed self.new) }
        ensures lasts { IfSome result (Lasts S.failed self.new) }
        ensures for_good { (answer : _) → IsOver S.failed self.old answer → IfSome result (λ a. a ≡ answer) × IfNone result ⊥ }
        ensures ends { weight S.bound self.new ≤ weight S.bound self.old }
        ensures once { ReadsOnce S.gives self.old self.new }
        ensures takes { IfNone result (Takes S.gives self.old self.new) }
        ensures goes_on { IfNone result (S.bound self.new.source + length self.new.held < S.bound self.old.source + length self.old.held) }
    {
        self.give_room_back();
        self.read_piece()
    }

    /// Gives back the room of the units that were handed out.
    fn give_room_back(&mut self)
        requires { self.old.queue ≡ [] }
        ensures { self.new ≡ self.old }
    {
        self.units = Vec::new(self.alloc).into_iter();
    }

    /// Reads units from the next part of the piece, or returns why there are none to read. The source is read only if the
    /// reader has taken the whole piece.
    fn read_piece(&mut self) -> Option<Next>
        requires { self.old.queue ≡ [] }
        ensures hands_out { HandsOut S.incoming self.old self.new [] }
        ensures no_unit { IfSome result IsNoUnit }
        ensures tells { IfSome result (Tells S.incoming S.failed self.new) }
        ensures lasts { IfSome result (Lasts S.failed self.new) }
        ensures for_good { (answer : _) → IsOver S.failed self.old answer → IfSome result (λ a. a ≡ answer) × IfNone result ⊥ }
        ensures ends { weight S.bound self.new ≤ weight S.bound self.old }
        ensures once { ReadsOnce S.gives self.old self.new }
        ensures takes { IfNone result (Takes S.gives self.old self.new) }
        ensures goes_on { IfNone result (S.bound self.new.source + length self.new.held < S.bound self.old.source + length self.old.held) }
    {
        if let Some(fault) = self.reader.fault() {
            return Some(Next::Fault(fault));
        }
        if self.ended {
            return Some(Next::End);
        }
        if self.from == self.held {
            self.piece.lengthen(self.alloc, self.held);
            match self.piece.read_from(&mut self.source) {
                Ok(0) => {
                    self.ended = true;
                    return Some(Next::End);
                }
                Ok(count) => {
                    self.held = count;
                    self.from = 0;
                }
                Err(_) => return Some(Next::ReadFailed),
            }
        }
        let front = &self.piece.as_slice()[..self.held];
        let bytes = &front[self.from..];
        let len = part_len(self.reader.waiting(), self.reader.missing(), bytes);
        match self.reader.feed(&bytes[..len]) {
            Ok(fed) => {
                self.units = fed.units.into_iter();
                self.from += len;
                None
            }
            Err(_) => Some(Next::OutOfMemory),
        }
    }
}
