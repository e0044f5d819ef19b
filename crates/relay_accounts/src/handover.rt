//! Frames on their way from a ring to the system.
ghost use Rattle.std.specs.Prelude.{◌≡◌, ◌+◌, ◌<◌, ◌≤◌, [], ◌∷◌, ◌++◌, length, count_by, filter, fold};
ghost use Rattle.relay_accounts.specs.Capped.{capped};
ghost use Rattle.relay_accounts.specs.Handing.{handed_by, is_sent, with_bytes_of};

use std::marker::Model;

/// How many frames may wait at a time.
const MOST: usize = 16;

/// What a player's sender made of the packets that it took from its seat.
#[derive(Clone, Copy, Debug, PartialEq, Eq, Drop)]
pub struct HandedOver {
    /// The system took each of them as a whole frame.
    pub sent: u64,
    /// They are of tracks that aren't set up.
    pub skipped: u64,
    /// How many bytes the packets in `sent` have, without the four bytes before each in its frame.
    pub bytes: u64,
}

/// A frame that waits in its connection's buffer.
#[derive(Clone, Copy, Debug, PartialEq, Eq, Drop)]
pub(crate) struct WaitingFrame {
    /// The place after its last byte.
    end: u64,
    /// How many bytes its packet has.
    bytes: u64,
}

impl WaitingFrame {
    /// Returns whether the system has taken its last byte, if it has taken the bytes before this place.
    fn is_sent(&self, taken: u64) -> bool
        ensures { result ≡ is_sent taken self.now }
    {
        self.end <= taken
    }
}

/// The frames of a seat, of which the last sixteen may wait in their connection's buffer: a frame is sent once the system has
/// taken its last byte. Places are counted in bytes of the connection, from its first one on.
#[derive(Drop)]
pub struct Handover {
    /// How many frames the system took before those that wait.
    sent: u64,
    skipped: u64,
    /// How many bytes the packets of the frames have that are in `sent`.
    bytes: u64,
    /// The frames that wait, at the front.
    frames: [WaitingFrame; MOST],
    count: usize,
}

impl Model for Handover {
    ghost use Rattle.std.specs.Prelude.{◌≤◌, take};
    ghost use Rattle.relay_accounts.specs.Handing.{Handing};

    ghost Value = { Handing };

    ghost view = { λ h. record { sent = h.sent; skipped = h.skipped; bytes = h.bytes; waiting = take h.count h.frames } };

    ghost invariant = { λ h. h.count ≤ 16 };
}

impl Handover {
    /// No packet was taken yet.
    pub fn new() -> Handover
        ensures { result ≡ record { sent = 0; skipped = 0; bytes = 0; waiting = [] } }
    {
        Handover {
            sent: 0,
            skipped: 0,
            bytes: 0,
            frames: [WaitingFrame { end: 0, bytes: 0 }; MOST],
            count: 0,
        }
    }

    /// Counts `count` packets that were taken and are of tracks that aren't set up.
    pub fn skip(&mut self, count: u64)
        ensures { self.new ≡ record self.old { skipped = capped (self.old.skipped + count) } }
    {
        self.skipped = self.skipped.saturating_add(count);
    }

    /// The system has taken all frames that waited.
    pub fn pass(&mut self)
        ensures { self.new ≡ record self.old { sent = capped (self.old.sent + length self.old.waiting); bytes = with_bytes_of self.old.bytes self.old.waiting; waiting = [] } }
    {
        self.sent = self.sent.saturating_add(self.count as u64);
        self.bytes = with_bytes_of(self.bytes, &self.frames[..self.count]);
        self.count = 0;
    }

    /// Adds a frame that waits after the others; its last byte is before this place, and its packet has `bytes` bytes. If sixteen
    /// wait already, it isn't added and never counts as sent.
    pub fn put(&mut self, end: u64, bytes: u64)
        ensures kept { length self.old.waiting < 16 → self.new ≡ record self.old { waiting = self.old.waiting ++ record { end = end; bytes = bytes } ∷ [] } }
        ensures full { 16 ≤ length self.old.waiting → self.new ≡ self.old }
    {
        if self.count < MOST {
            self.frames[self.count] = WaitingFrame { end, bytes };
            self.count += 1;
        }
    }

    /// What was handed over once the system has taken the bytes before this place.
    pub fn handed(&self, taken: u64) -> HandedOver
        ensures { result ≡ handed_by self.now taken }
    {
        let waiting = &self.frames[..self.count];
        HandedOver {
            sent: self.sent.saturating_add(passed(waiting, taken)),
            skipped: self.skipped,
            bytes: with_bytes_passed(self.bytes, waiting, taken),
        }
    }
}

/// Returns how many of these frames end before this place.
fn passed(frames: &[WaitingFrame], taken: u64) -> u64
    ensures { result ≡ count_by (is_sent taken) frames.now }
{
    frames.iter().filter(|frame| frame.is_sent(taken)).count() as u64
}

/// Returns these bytes and those of the packets of these frames.
fn with_bytes_of(bytes: u64, frames: &[WaitingFrame]) -> u64
    ensures { result ≡ with_bytes_of bytes frames.now }
{
    frames
        .iter()
        .fold(bytes, |bytes, frame| bytes.saturating_add(frame.bytes))
}

/// Returns these bytes and those of the packets of the frames that end before this place.
fn with_bytes_passed(bytes: u64, frames: &[WaitingFrame], taken: u64) -> u64
    ensures { result ≡ fold (λ sum frame. capped (sum + frame.bytes)) bytes (filter (is_sent taken) frames.now) }
{
    frames
        .iter()
        .filter(|frame| frame.is_sent(taken))
        .fold(bytes, |bytes, frame| bytes.saturating_add(frame.bytes))
}
