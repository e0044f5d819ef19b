//! A stream of a peer, read in the pieces that it comes in.
ghost use Rattle.std.specs.Prelude.{◌≡◌, ◌+◌, ◌*◌, ◌<◌, ◌≤◌, ◌++◌, [], length, drop, OnOk, OnErr, IfOk, IfSome};
ghost use Rattle.rtsp_message.specs.Stream.{ReadsOnFrom, fault_of, waiting_len, IsScan};
ghost use Rattle.rtsp_message.specs.Stores.{counted, LooksOnly};
ghost use Rattle.rtsp_message.specs.Knowns.{IsKnown, looks_for};
ghost use Rattle.rtsp_message.specs.ReaderStates.{left, nothing_fed, read_len, IsRead, NeedsMoreFrom};

use crate::cutting::{cut_frame, cut_message};
use crate::fault::Fault;
use crate::frames::cut_frames;
use crate::known::{Known, Look};
use crate::look::look;
use crate::peer::Peer;
use crate::store::Store;
use crate::unit::Unit;
use interleaved::FRAME_HEAD;
use std::alloc::{AllocError, Global};
use std::marker::Model;

/// What a piece of the stream has brought.
#[derive(Drop)]
pub struct Fed {
    /// The units that are whole now, in their order.
    pub units: Vec<Unit>,
    /// Why the stream can't be read on. It comes after the units.
    pub fault: Option<Fault>,
}

/// Reads the units of a stream of a peer, in whatever pieces its bytes come.
///
/// It keeps the bytes that wait for more, fewer than 73,728 of them, in at most twice the room that they need, and what it
/// knows of them, so that it doesn't look at them again for each piece. Once there was a fault it keeps that alone, and no
/// room.
pub struct PeerReader {
    peer: Peer,
    store: Store,
    known: Known,
    fed: u64,
    fault: Option<Fault>,
}

impl Model for PeerReader {
    ghost use Rattle.rtsp_message.specs.ReaderStates.{PeerReaderState};

    ghost Value = { PeerReaderState };

    ghost use Rattle.rtsp_message.specs.Readers.{state_of, IsReader};

    ghost view = { state_of };

    ghost invariant = { IsReader };
}

impl Drop for PeerReader {
    fn drop(self) {
        let PeerReader {
            peer: _,
            store: _,
            known: _,
            fed: _,
            fault: _,
        } = self;
    }
}

/// The units at the front of some bytes, and how far they go.
#[derive(Drop)]
struct Scan {
    units: Vec<Unit>,
    /// The bytes that the units take, and those between them.
    len: usize,
    /// What is known of the bytes after them.
    known: Known,
    /// What is wrong with the bytes after them.
    fault: Option<Fault>,
}

impl PeerReader {
    pub fn new(alloc: Global, peer: Peer) -> PeerReader
        ensures { result ≡ record { peer = peer; state = nothing_fed } }
    {
        PeerReader {
            peer,
            store: Store::new(alloc),
            known: Known::Nothing,
            fed: 0,
            fault: None,
        }
    }

    /// Why the stream can't be read on, once that was answered.
    pub fn fault(&self) -> Option<Fault>
        ensures { result ≡ fault_of self.now.state.reading }
    {
        self.fault
    }

    /// How many bytes wait for more, none once a fault was answered.
    pub fn waiting(&self) -> usize
        ensures value { result ≡ waiting_len self.now.state.reading }
        ensures most { result < 73_728 }
    {
        self.store.len()
    }

    /// At least how many bytes more the frame needs that is under way. `None` if none is.
    pub fn missing(&self) -> Option<usize>
        ensures { IfSome result (NeedsMoreFrom self.now.peer self.now.state.reading) }
    {
        let len = match self.known {
            Known::Dollar => FRAME_HEAD,
            Known::Frame { len } => len,
            _ => return None,
        };
        Some(len.saturating_sub(self.store.len()))
    }

    /// How many looks at bytes were made. The count stays at 2^64 - 1 once it is there.
    pub fn looked(&self) -> u64
        ensures value { result ≡ self.now.state.looked }
        ensures most { result ≤ 6 * self.now.state.fed }
    {
        self.store.looked()
    }

    /// How many bytes were fed and not refused. The count stays at 2^64 - 1 once it is there.
    pub fn fed(&self) -> u64
        ensures { result ≡ self.now.state.fed }
    {
        self.fed
    }

    /// For how many bytes the reader holds memory: at most twice as many as wait for more.
    pub fn room(&self) -> usize
        ensures value { result ≡ self.now.state.room }
        ensures bound { result ≤ 2 * waiting_len self.now.state.reading }
    {
        self.store.room()
    }

    /// Reads on with the next piece of the stream.
    ///
    /// Once a fault was answered, each later call answers no units and the same fault. After an `Err` the reader is
    /// as before, and the piece counts as not fed.
    pub fn feed(&mut self, piece: &[u8]) -> Result<Fed, AllocError>
        ensures units { IfOk result (λ fed. ReadsOnFrom self.old.peer self.old.state.reading piece.now fed.units.items self.new.state.reading) }
        ensures fault { IfOk result (λ fed. fed.fault ≡ fault_of self.new.state.reading) }
        ensures bound { waiting_len self.new.state.reading < 73_728 }
        ensures room { self.new.state.room ≤ 2 * waiting_len self.new.state.reading }
        ensures looks_before { self.old.state.looked ≤ 6 * self.old.state.fed }
        ensures looks { self.new.state.looked ≤ 6 * self.new.state.fed }
        ensures looks_stay { self.old.state.looked ≤ self.new.state.looked }
        ensures fed { OnOk result (self.new.state.fed ≡ counted self.old.state.fed (length piece.now)) }
        ensures peer { self.new.peer ≡ self.old.peer }
        ensures err { OnErr result (self.new ≡ self.old) }
    {
        let alloc = self.store.allocator();
        let fed = self.fed.saturating_add(piece.len() as u64);
        if let Some(fault) = self.fault {
            self.fed = fed;
            return Ok(Fed {
                units: Vec::new(alloc),
                fault: Some(fault),
            });
        }
        if self.store.len() == 0 {
            if let Some(units) = cut_frames(alloc, piece)? {
                // Twice at the four bytes of each head.
                self.store.count(8 * units.len());
                self.fed = fed;
                return Ok(Fed { units, fault: None });
            }
        }
        let scan = read_piece(alloc, &mut self.store, self.peer, self.known, piece)?;
        let Scan {
            units,
            known,
            fault,
            ..
        } = scan;
        self.known = known;
        self.fed = fed;
        self.fault = fault;
        Ok(Fed { units, fault })
    }
}

/// Puts the piece after what waits and reads on. What is refused leaves the store as it was.
fn read_piece(
    alloc: Global,
    store: &mut Store,
    peer: Peer,
    known: Known,
    piece: &[u8],
) -> Result<Scan, AllocError>
    requires known { IsKnown peer store.old.bytes known }
    requires room { store.old.room ≤ 2 * length store.old.bytes }
    ensures ok { IfOk result (λ scan. IsRead peer (store.old.bytes ++ piece.now) store.old.looked store.new known scan.units.items scan.fault scan.known) }
    ensures err { OnErr result (store.new ≡ store.old) }
{
    let len = store.len();
    let looked = store.looked();
    let before = store.put(piece)?;
    match read_on(alloc, store, peer, known) {
        Ok(scan) => Ok(scan),
        Err(error) => {
            store.take_back(before, len);
            store.back_to(looked);
            Err(error)
        }
    }
}

/// Reads units from the front of the store, and keeps what comes after them.
fn read_on(alloc: Global, store: &mut Store, peer: Peer, known: Known) -> Result<Scan, AllocError>
    requires known { IsKnown peer store.old.bytes known }
    requires room { store.old.room ≤ 2 * length store.old.bytes }
    ensures ok { IfOk result (λ scan. IsRead peer store.old.bytes store.old.looked store.new known scan.units.items scan.fault scan.known) }
    ensures bytes { OnErr result (store.new.bytes ≡ store.old.bytes) }
    ensures room { OnErr result (store.new.room ≡ store.old.room) }
{
    let scan = read_units(alloc, store, peer, known)?;
    keep_rest(store, scan.len, scan.fault)?;
    Ok(scan)
}

/// Lets the first bytes go, and after a fault all of them. Where no unit was cut out, the bytes stay where they are.
fn keep_rest(store: &mut Store, len: usize, fault: Option<Fault>) -> Result<(), AllocError>
    requires within { len ≤ length store.old.bytes }
    requires room { store.old.room ≤ 2 * length store.old.bytes }
    ensures bytes { OnOk result (store.new.bytes ≡ left fault (drop len store.old.bytes)) }
    ensures room { OnOk result (store.new.room ≤ 2 * length store.new.bytes) }
    ensures looked { store.new.looked ≡ store.old.looked }
    ensures err { OnErr result (store.new ≡ store.old) }
{
    if fault.is_some() {
        store.clear();
        return Ok(());
    }
    if len > 0 {
        store.cut(len)?;
    }
    Ok(())
}

/// Reads units from the front of the bytes, as far as they are whole.
fn read_units(
    alloc: Global,
    store: &mut Store,
    peer: Peer,
    known: Known,
) -> Result<Scan, AllocError>
    requires { IsKnown peer store.old.bytes known }
    ensures scan { IfOk result (λ scan. IsScan peer store.old.bytes scan.units.items scan.len scan.fault) }
    ensures known { IfOk result (λ scan. IsKnown peer (left scan.fault (drop scan.len store.old.bytes)) scan.known) }
    ensures counts { IfOk result (λ scan. LooksOnly store.old store.new (looks_for known) (6 * read_len (length store.old.bytes) scan.len scan.fault + looks_for scan.known)) }
    ensures bytes { store.new.bytes ≡ store.old.bytes }
    ensures room { store.new.room ≡ store.old.room }
{
    let mut units = Vec::new(alloc);
    let mut len = 0;
    let mut known = known;
    while len < store.len() {
        match look(store, peer, len, known) {
            Look::Pad => {
                len += 1;
                known = Known::Nothing;
            }
            Look::Frame { len: size } => {
                let frame = cut_frame(alloc, store, len, size)?;
                units.push(Unit::Frame(frame))?;
                len += size;
                known = Known::Nothing;
            }
            Look::Message { head, len: size } => {
                let request = cut_message(alloc, store, peer, len, head, size)?;
                units.push(Unit::Message(request))?;
                len += size;
                known = Known::Nothing;
            }
            Look::Bad(fault) => {
                return Ok(Scan {
                    units,
                    len,
                    known: Known::Nothing,
                    fault: Some(fault),
                });
            }
            Look::Waits(known) => {
                return Ok(Scan {
                    units,
                    len,
                    known,
                    fault: None,
                });
            }
        }
    }
    Ok(Scan {
        units,
        len,
        known,
        fault: None,
    })
}
