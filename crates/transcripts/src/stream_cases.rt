//! Cases of a stream that comes in pieces.
ghost use Rattle.std.specs.Prelude.{◌≤◌};

use case_texts::Told;
use interleaved::{Frame, ListSource};
use rtsp_message::{Fault, Header, Headers, Intake, Next, Reader, Request, Unit};
use std::alloc::{AllocError, Global};

/// A stream of at most so many bytes is read again in small pieces. Those of the longest units are.
const MOST_IN_PIECES: usize = 100_000;

/// The longest of these pieces.
const LONGEST_PIECE: usize = 7;

/// A stream of at most so many bytes is cut in two at each place, and taken in.
const MOST_CUT: usize = 4096;

/// What is read of a stream: the units, as they are told, and what is wrong after them.
#[derive(Drop)]
struct Readout {
    units: Told,
    fault: Option<Fault>,
}

/// A stream, as far as it came.
pub struct StreamCase {
    alloc: Global,
    reader: Reader,
    bytes: Vec<u8>,
    read: Readout,
}

impl Drop for StreamCase {
    fn drop(self) {
        let StreamCase {
            alloc: _,
            reader: _,
            bytes: _,
            read: _,
        } = self;
    }
}

impl StreamCase {
    /// A stream of which nothing came.
    pub fn new(alloc: Global) -> StreamCase {
        StreamCase {
            alloc,
            reader: Reader::new(alloc),
            bytes: Vec::new(alloc),
            read: Readout::empty(alloc),
        }
    }

    /// Feeds the next piece, and tells the units that it brings, and the fault.
    pub fn feed(&mut self, piece: &[u8], told: &mut Told) -> Result<(), AllocError> {
        self.bytes.extend_from_slice(piece)?;
        let fed = self.reader.feed(piece)?;
        self.read.fault = fed.fault;
        self.tell_units(&fed.units, told)?;
        match fed.fault {
            Some(fault) => tell_fault(fault, told),
            None => Ok(()),
        }
    }

    /// Tells units that were read.
    fn tell_units(&mut self, units: &[Unit], told: &mut Told) -> Result<(), AllocError> {
        for unit in units {
            self.read.add(unit)?;
            tell_unit(unit, told)?;
        }
        Ok(())
    }

    /// Reads all pieces again, cut in other ways, and tells where that gives anything else.
    pub fn read_again(&self, told: &mut Told) -> Result<(), AllocError> {
        if self.bytes.len() > MOST_IN_PIECES {
            return Ok(());
        }
        if let Some(size) = self.first_bad_size()? {
            told.fact(format!(in self.alloc; "otherwise in pieces of {size}")?.as_bytes())?;
        }
        if self.bytes.len() > MOST_CUT {
            return Ok(());
        }
        if let Some(place) = self.first_bad_cut()? {
            told.fact(format!(in self.alloc; "otherwise cut at {place}")?.as_bytes())?;
        }
        if !self.is_taken_in(1)? || !self.is_taken_in(7)? {
            told.fact(b"otherwise taken in")?;
        }
        Ok(())
    }

    /// The first length of which pieces read otherwise.
    fn first_bad_size(&self) -> Result<Option<usize>, AllocError> {
        for size in 1..=LONGEST_PIECE {
            if !self.is_read_in_pieces(size)? {
                return Ok(Some(size));
            }
        }
        Ok(None)
    }

    /// Whether pieces of so many bytes read the same.
    fn is_read_in_pieces(&self, size: usize) -> Result<bool, AllocError>
        requires { 1 ≤ size }
    {
        let mut reader = Reader::new(self.alloc);
        let mut read = Readout::empty(self.alloc);
        for piece in self.bytes.chunks(size) {
            read.feed(&mut reader, piece)?;
        }
        Ok(read.is(&self.read))
    }

    /// The first place at which the bytes, cut in two there, read otherwise.
    fn first_bad_cut(&self) -> Result<Option<usize>, AllocError> {
        for place in 0..=self.bytes.len() {
            let (front, back) = self.bytes.split_at(place);
            if !self.is_read_cut(front, back)? {
                return Ok(Some(place));
            }
        }
        Ok(None)
    }

    /// Whether two pieces read the same.
    fn is_read_cut(&self, front: &[u8], back: &[u8]) -> Result<bool, AllocError> {
        let mut reader = Reader::new(self.alloc);
        let mut read = Readout::empty(self.alloc);
        read.feed(&mut reader, front)?;
        read.feed(&mut reader, back)?;
        Ok(read.is(&self.read))
    }

    /// Whether an intake reads the same from a source that gives so many bytes at a time.
    fn is_taken_in(&self, piece: usize) -> Result<bool, AllocError>
        requires { 1 ≤ piece }
    {
        let bytes = Vec::from_slice(self.alloc, &self.bytes)?;
        let mut intake = Intake::new(self.alloc, ListSource::new(bytes, piece, None));
        let mut read = Readout::empty(self.alloc);
        // Each unit has a byte at least.
        read.take_in(&mut intake, self.bytes.len().saturating_add(1))?;
        Ok(read.is(&self.read))
    }
}

impl Readout {
    /// Nothing is read.
    fn empty(alloc: Global) -> Readout {
        Readout {
            units: Told::nothing(alloc),
            fault: None,
        }
    }

    /// Feeds a piece to a reader.
    fn feed(&mut self, reader: &mut Reader, piece: &[u8]) -> Result<(), AllocError> {
        let fed = reader.feed(piece)?;
        for unit in &fed.units {
            self.add(unit)?;
        }
        self.fault = fed.fault;
        Ok(())
    }

    /// Takes in what an intake answers to at most so many calls.
    fn take_in(&mut self, intake: &mut Intake<ListSource>, calls: usize) -> Result<(), AllocError> {
        for _ in 0..calls {
            if !self.take_next(intake.next())? {
                break;
            }
        }
        Ok(())
    }

    /// Takes in an answer of an intake. Whether more may come.
    fn take_next(&mut self, next: Next) -> Result<bool, AllocError> {
        match next {
            Next::Unit(unit) => {
                self.add(&unit)?;
                return Ok(true);
            }
            Next::Fault(fault) => self.fault = Some(fault),
            Next::End | Next::ReadFailed => {}
            Next::OutOfMemory => return Err(AllocError),
        }
        Ok(false)
    }

    fn add(&mut self, unit: &Unit) -> Result<(), AllocError> {
        tell_unit(unit, &mut self.units)
    }

    fn is(&self, other: &Readout) -> bool {
        self.fault == other.fault && self.units.facts.as_slice() == other.units.facts.as_slice()
    }
}

pub fn tell_fault(fault: Fault, told: &mut Told) -> Result<(), AllocError> {
    let number = fault.number();
    told.fact(format!(in told.alloc(); "fault {number}")?.as_bytes())
}

fn tell_unit(unit: &Unit, told: &mut Told) -> Result<(), AllocError> {
    match unit {
        Unit::Message(request) => tell_request(request, told),
        Unit::Frame(frame) => tell_frame(frame, told),
    }
}

pub fn tell_frame(frame: &Frame, told: &mut Told) -> Result<(), AllocError> {
    let channel = frame.channel;
    let head = format!(in told.alloc(); "frame {channel}")?;
    told.named(head.as_bytes(), frame.payload.as_slice())
}

pub fn tell_request(request: &Request, told: &mut Told) -> Result<(), AllocError> {
    told.word(request.method.as_slice())?;
    told.word(request.uri.as_slice())?;
    told.fact(request.version.as_slice())?;
    tell_cseq(request.cseq, told)?;
    tell_headers(&request.headers, request.body.as_slice(), told)
}

/// Tells the number of a message, where it has one.
pub fn tell_cseq(cseq: Option<u32>, told: &mut Told) -> Result<(), AllocError> {
    match cseq {
        Some(number) => told.fact(format!(in told.alloc(); "CSeq {number}")?.as_bytes()),
        None => Ok(()),
    }
}

/// Tells the header fields of a message, and its body, where it has one.
pub fn tell_headers(headers: &Headers, body: &[u8], told: &mut Told) -> Result<(), AllocError> {
    for header in headers.as_slice() {
        tell_header(header, told)?;
    }
    if body.is_empty() {
        return Ok(());
    }
    told.named(b"body", body)
}

fn tell_header(header: &Header, told: &mut Told) -> Result<(), AllocError> {
    told.facts.extend_from_slice(header.name.as_slice())?;
    told.word(b":")?;
    told.fact(header.value.as_slice())
}
