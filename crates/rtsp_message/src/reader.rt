//! A client's stream, read in the pieces that it comes in.
ghost use Rattle.std.specs.Prelude.{◌≡◌, ◌*◌, ◌<◌, ◌≤◌, [], length, OnOk, OnErr, IfOk, IfSome};
ghost use Rattle.rtsp_message.specs.Stream.{Waits, ReadsOn, fault_of, waiting_len};
ghost use Rattle.rtsp_message.specs.Stores.{counted};
ghost use Rattle.rtsp_message.specs.ReaderStates.{NeedsMore};

use crate::fault::Fault;
use crate::peer::Peer;
use crate::peer_reader::{Fed, PeerReader};
use std::alloc::{AllocError, Global};
use std::marker::Model;

/// Reads the units of a client's stream, in whatever pieces its bytes come (RFC 2326, 4, 6 and 10.12).
///
/// It keeps the bytes that wait for more, fewer than 73,728 of them, in at most twice the room that they need, and what it
/// knows of them, so that it doesn't look at them again for each piece. Once there was a fault it keeps that alone, and no
/// room.
pub struct Reader {
    stream: PeerReader,
}

impl Model for Reader {
    ghost use Rattle.rtsp_message.specs.ReaderStates.{ReaderState, IsClients};

    ghost Value = { ReaderState };

    ghost view = { λ r. r.stream.state };

    ghost invariant = { λ r. IsClients r.stream };
}

impl Drop for Reader {
    fn drop(self) {
        let Reader { stream: _ } = self;
    }
}

impl Reader {
    pub fn new(alloc: Global) -> Reader
        ensures { result ≡ record { reading = Waits []; looked = 0; fed = 0; room = 0 } }
    {
        Reader {
            stream: PeerReader::new(alloc, Peer::Client),
        }
    }

    /// Why the stream can't be read on, once that was answered.
    pub fn fault(&self) -> Option<Fault>
        ensures { result ≡ fault_of self.now.reading }
    {
        self.stream.fault()
    }

    /// How many bytes wait for more, none once a fault was answered.
    pub fn waiting(&self) -> usize
        ensures value { result ≡ waiting_len self.now.reading }
        ensures most { result < 73_728 }
    {
        self.stream.waiting()
    }

    /// At least how many bytes more the frame needs that is under way. `None` if none is.
    pub(crate) fn missing(&self) -> Option<usize>
        ensures { IfSome result (NeedsMore self.now.reading) }
    {
        self.stream.missing()
    }

    /// How many looks at bytes were made. The count stays at 2^64 - 1 once it is there.
    pub fn looked(&self) -> u64
        ensures value { result ≡ self.now.looked }
        ensures most { result ≤ 6 * self.now.fed }
    {
        self.stream.looked()
    }

    /// How many bytes were fed and not refused. The count stays at 2^64 - 1 once it is there.
    pub fn fed(&self) -> u64
        ensures { result ≡ self.now.fed }
    {
        self.stream.fed()
    }

    /// For how many bytes the reader holds memory: at most twice as many as wait for more.
    pub fn room(&self) -> usize
        ensures value { result ≡ self.now.room }
        ensures bound { result ≤ 2 * waiting_len self.now.reading }
    {
        self.stream.room()
    }

    /// Reads on with the next piece of the stream.
    ///
    /// Once a fault was answered, each later call answers no units and the same fault. After an `Err` the reader is
    /// as before, and the piece counts as not fed.
    pub fn feed(&mut self, piece: &[u8]) -> Result<Fed, AllocError>
        ensures units { IfOk result (λ fed. ReadsOn self.old.reading piece.now fed.units.items self.new.reading) }
        ensures fault { IfOk result (λ fed. fed.fault ≡ fault_of self.new.reading) }
        ensures bound { waiting_len self.new.reading < 73_728 }
        ensures room { self.new.room ≤ 2 * waiting_len self.new.reading }
        ensures looks_before { self.old.looked ≤ 6 * self.old.fed }
        ensures looks { self.new.looked ≤ 6 * self.new.fed }
        ensures looks_stay { self.old.looked ≤ self.new.looked }
        ensures fed { OnOk result (self.new.fed ≡ counted self.old.fed (length piece.now)) }
        ensures err { OnErr result (self.new ≡ self.old) }
    {
        self.stream.feed(piece)
    }
}
