//! The send side of a connection.
use crate::mount::leave::Leave;
use crate::sending::coming::PutIn;
use crate::sending::given_back::GivenBack;
use crate::sending::phase::FramePhase;
use crate::sending::sent_frames::SentFrames;
use crate::sending::tap_place::TapPlace;
use crate::sending::writer_player::WriterPlayer;
use crate::sending::writing_side::WritingSide;
use cursor::Lend;
use interleaved::{Failed, Sink};
use mount_signals::{AttachedTap, MountSignal, WakeSignal};
use rtsp_message::{Status, put_plain};
use sockets::HangUp;
use std::alloc::Global;
use std::mem;
use std::sync::atomic::{AtomicU64, Ordering};
use std::sync::{Arc, Mutex, Wait};
use std::time::Duration;
use transport_header::TrackChannels;

/// The tap of a connection's seat, and the player that a writer looks at, if one does.
pub(crate) struct SeatTap<T> {
    pub(crate) tap: TapPlace<T>,
    pub(crate) player: Option<WriterPlayer>,
}

impl<T: Drop> Drop for SeatTap<T> {
    fn drop(self) {
        let SeatTap { tap: _, player: _ } = self;
    }
}

/// The send side of a connection: what the thread that sends its frames has of it, a thread of its own, or a writer, which has
/// other players, too.
///
/// A frame thread holds the seat's lock while it takes from the tap; the thread that reads takes the tap out after it has joined
/// the frame thread. A writer holds the seat's lock for one look, and the writing side's meanwhile.
pub struct SendSide<T, W: Sink, H> {
    pub writing: WritingSide<W>,
    pub shutdown: H,
    pub phase: FramePhase,
    pub(crate) seat: Mutex<SeatTap<T>>,
    /// How many players it has had.
    plays: AtomicU64,
}

impl<T: Drop, W: Sink + Drop, H: Drop> Drop for SendSide<T, W, H> {
    fn drop(self) {
        let SendSide {
            writing: _,
            shutdown: _,
            phase: _,
            seat: _,
            plays: _,
        } = self;
    }
}

impl<T, W: Sink + Drop, H> SendSide<T, W, H> {
    /// Writes a reply. A writer that found the writing side taken meanwhile is woken.
    pub fn write(
        &self,
        rt: &impl Wait,
        wake_signal: &WakeSignal,
        text: &[u8],
    ) -> Result<(), Failed> {
        let (written, given_back) = GivenBack::after_write(rt, &self.writing, text);
        if let Some(mark) = given_back.take_mark() {
            mark.raise(&wake_signal.writers);
        }
        written
    }

    /// Writes a reply that has no field but CSeq. Takes no memory.
    pub fn write_plain(
        &self,
        rt: &impl Wait,
        wake_signal: &WakeSignal,
        status: Status,
        cseq: Option<u32>,
    ) -> Result<(), Failed> {
        let mut text = [0; 128];
        let len = put_plain(&mut text, status, cseq);
        self.write(rt, wake_signal, &text[..len])
    }
}

impl<T: Lend + Leave + Drop, W: Sink + Drop, H: HangUp + Drop> SendSide<T, W, H> {
    /// No tap is in it.
    pub fn new(writing: WritingSide<W>, shutdown: H) -> SendSide<T, W, H> {
        SendSide {
            writing,
            shutdown,
            phase: FramePhase::new(),
            seat: Mutex::new(SeatTap {
                tap: TapPlace::Nowhere,
                player: None,
            }),
            plays: AtomicU64::new(0),
        }
    }

    /// Puts in the player that a writer will look at. It takes from the tap that was put in before.
    pub(crate) fn play(
        &self,
        rt: &impl Wait,
        signal: Arc<MountSignal, Global>,
        seat: usize,
        channels: TrackChannels,
        after_end: Option<Duration>,
    ) -> PutIn {
        let number = self.plays.fetch_add(1, Ordering::SeqCst);
        let after_end = after_end.map(|time| u64::try_from(time.as_millis()).unwrap_or(u64::MAX));
        let is_attached = matches!(self.seat.lock(rt).tap, TapPlace::Attached(_));
        let mut player = None;
        if is_attached {
            let known = signal.pace.join(rt, seat);
            player = Some(WriterPlayer::new(number, signal, seat, known, channels, after_end));
        }
        PutIn::new(rt, &self.seat, number, player)
    }

    /// Takes the player out again, after at most one look of its writer, and returns how its frames ended. Its tap stays.
    pub(crate) fn stop_playing(&self, rt: &impl Wait) -> SentFrames {
        let player = self.seat.lock(rt).player.take();
        match player {
            Some(player) => player.stop(rt),
            None => SentFrames::none(),
        }
    }

    /// Puts a tap in, which a frame thread or a writer will take from.
    pub fn put(&self, rt: &impl Wait, tap: AttachedTap<T>) {
        self.phase.begin(rt);
        self.seat.lock(rt).tap = TapPlace::Attached(tap.into_tap());
    }

    /// Takes the tap out. No frame thread runs.
    pub fn take(&self, rt: &impl Wait) -> TapPlace<T> {
        mem::replace(&mut self.seat.lock(rt).tap, TapPlace::Nowhere)
    }
}
