//! Cases of a server's stream that comes in pieces.
ghost use Rattle.std.specs.Prelude.{◌≤◌};

use crate::stream_cases::{tell_cseq, tell_fault, tell_frame, tell_headers, tell_request};
use case_texts::Told;
use rtsp_message::{Fed, Peer, PeerReader, Received, Response};
use std::alloc::{AllocError, Global};

/// A stream of at most so many bytes is read again in small pieces.
const MOST_IN_PIECES: usize = 100_000;

/// The longest of these pieces.
const LONGEST_PIECE: usize = 7;

/// A server's stream, as far as it came.
#[derive(Drop)]
pub struct ServerStreamCase {
    alloc: Global,
    reader: PeerReader,
    bytes: Vec<u8>,
    /// What was read of it: what was received, as it is told.
    read: Told,
}

impl ServerStreamCase {
    /// A stream of which nothing came.
    pub fn new(alloc: Global) -> ServerStreamCase {
        ServerStreamCase {
            alloc,
            reader: PeerReader::new(alloc, Peer::Server),
            bytes: Vec::new(alloc),
            read: Told::nothing(alloc),
        }
    }

    /// Feeds the next piece, and tells what it brings, and the fault.
    pub fn feed(&mut self, piece: &[u8], told: &mut Told) -> Result<(), AllocError> {
        self.bytes.extend_from_slice(piece)?;
        let fed = self.reader.feed(piece)?;
        let fault = fed.fault;
        let mut came = Told::nothing(self.alloc);
        tell_received(fed, &mut came)?;
        self.read.facts.extend_from_slice(&came.facts)?;
        told.facts.extend_from_slice(&came.facts)?;
        match fault {
            Some(fault) => tell_fault(fault, told),
            None => Ok(()),
        }
    }

    /// Reads all pieces again, cut in other ways, and tells where that gives anything else.
    pub fn read_again(&self, told: &mut Told) -> Result<(), AllocError> {
        if self.bytes.len() > MOST_IN_PIECES {
            return Ok(());
        }
        for size in 1..=LONGEST_PIECE {
            if !self.is_read_in_pieces(size)? {
                return told.fact(format!(in self.alloc;
                    "otherwise in pieces of {size}"
                )?.as_bytes());
            }
        }
        Ok(())
    }

    /// Whether pieces of so many bytes read the same.
    fn is_read_in_pieces(&self, size: usize) -> Result<bool, AllocError>
        requires { 1 ≤ size }
    {
        let mut reader = PeerReader::new(self.alloc, Peer::Server);
        let mut read = Told::nothing(self.alloc);
        for piece in self.bytes.chunks(size) {
            tell_received(reader.feed(piece)?, &mut read)?;
        }
        Ok(
            reader.fault() == self.reader.fault()
                && read.facts.as_slice() == self.read.facts.as_slice(),
        )
    }
}

/// Tells what was received.
fn tell_received(fed: Fed, told: &mut Told) -> Result<(), AllocError> {
    for unit in fed.units {
        match Received::from(unit) {
            Received::Reply(reply) => tell_reply(&reply, told)?,
            Received::Request(request) => tell_request(&request, told)?,
            Received::Frame(frame) => tell_frame(&frame, told)?,
        }
    }
    Ok(())
}

fn tell_reply(reply: &Response, told: &mut Told) -> Result<(), AllocError> {
    let status = reply.status;
    told.word(reply.version.as_slice())?;
    told.word(format!(in told.alloc(); "{status}")?.as_bytes())?;
    told.fact(reply.reason.as_slice())?;
    tell_cseq(reply.cseq, told)?;
    tell_headers(&reply.headers, reply.body.as_slice(), told)
}
