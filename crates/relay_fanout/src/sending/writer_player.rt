//! A player whose frames a writer sends.
ghost use Rattle.std.specs.Prelude.{◌≡◌, IsNone, None};
ghost use Rattle.waking.specs.PlayerStates.{comer};

use crate::sending::sent_frames::SentFrames;
use mount_signals::{KnownLevel, LeftPace, MountSignal};
use relay_accounts::Handover;
use std::alloc::Global;
use std::sync::{Arc, Wait};
use transport_header::TrackChannels;
use waking::PlayerState;

/// A player that takes from a seat: its writer looks at it, and the thread that reads its connection takes it out again.
#[derive(Drop)]
pub(crate) struct WriterPlayer {
    /// How many players its connection had before.
    number: u64,
    pub(super) handover: Handover,
    pub(super) signal: Arc<MountSignal, Global>,
    pub(super) seat: usize,
    pub(super) channels: TrackChannels,
    pub(super) known: KnownLevel,
    /// That it has left its mount's pace, if it has.
    pub(super) left: Option<LeftPace>,
    /// What its writer decides of it.
    pub(super) state: PlayerState,
}

impl WriterPlayer {
    /// It has taken nothing yet, and has joined its mount's pace. `after_end` is for how many milliseconds the connection may stay
    /// after its mount has ended and all was sent, `None` for ever.
    pub(crate) fn new(
        number: u64,
        signal: Arc<MountSignal, Global>,
        seat: usize,
        known: KnownLevel,
        channels: TrackChannels,
        after_end: Option<u64>,
    ) -> WriterPlayer
        ensures seat { (result.number ≡ number) × (result.signal ≡ signal) × (result.seat ≡ seat) × (result.channels ≡ channels) }
        ensures comes { result.state ≡ comer after_end }
        ensures paced { (result.known ≡ known) × IsNone result.left }
    {
        WriterPlayer {
            number,
            handover: Handover::new(),
            signal,
            seat,
            channels,
            known,
            left: None,
            state: PlayerState::new(after_end),
        }
    }

    /// How many players its connection had before.
    pub(crate) fn number(&self) -> u64
        ensures { result ≡ self.now.number }
    {
        self.number
    }

    /// Returns how its frames ended: `Stopped` if they hadn't, or if the last of them weren't written. No publisher waits for it any
    /// more.
    pub(crate) fn stop(self, rt: &impl Wait) -> SentFrames {
        let left = match self.left {
            Some(left) => left,
            None => self.signal.pace.leave(rt, self.seat),
        };
        let ending = self.state.written_ending();
        let WriterPlayer { handover, .. } = self;
        SentFrames::of_player(ending, handover, left)
    }

    /// Its socket has taken all that waited: a publisher may wait for it again, once it has taken all.
    pub(super) fn come_back(&mut self, rt: &impl Wait)
        ensures joined { (self.new.known ≡ None) × IsNone self.new.left }
    {
        self.known = self.signal.pace.join(rt, self.seat);
        self.left = None;
    }
}
