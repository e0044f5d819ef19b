//! How a player's frames ended.
ghost use Rattle.std.specs.Prelude.{◌≡◌, []};
ghost use Rattle.relay_accounts.specs.declared.ending.FrameEnd.TheVariants.{Stopped};
ghost use Rattle.relay_fanout.specs.FrameEnds.{frame_end_of};

use crate::sending::phase::EndTold;
use mount_signals::LeftPace;
use relay_accounts::{FrameEnd, Handover};
use waking::{Ending, Failure};

/// How a player's frames ended, and what its sender made of the packets that it took. The last of its frames may wait in the
/// connection's buffer yet.
#[derive(Drop)]
pub struct SentFrames {
    pub end: FrameEnd,
    pub handover: Handover,
    _made: Made,
}

/// Keeps the making of `SentFrames` to this file.
#[derive(Drop)]
struct Made;

impl SentFrames {
    /// No packet was taken.
    pub(super) fn none() -> SentFrames
        ensures end { result.end ≡ Stopped }
        ensures handover { result.handover ≡ record { sent = 0; skipped = 0; bytes = 0; waiting = [] } }
    {
        SentFrames {
            end: FrameEnd::Stopped,
            handover: Handover::new(),
            _made: Made,
        }
    }

    /// Of a frame thread, whose end was told, and whose player has left the pace.
    pub(super) fn of_thread(
        end: FrameEnd,
        handover: Handover,
        told: EndTold,
        _left: LeftPace,
    ) -> SentFrames
        ensures end { result.end ≡ end }
        ensures handover { result.handover ≡ handover }
    {
        told.spend();
        SentFrames {
            end,
            handover,
            _made: Made,
        }
    }

    /// Of a writer's player that has left the pace, whose frames had ended so when it was stopped.
    pub(super) fn of_player(
        ending: Option<Ending>,
        handover: Handover,
        _left: LeftPace,
    ) -> SentFrames
        ensures end { result.end ≡ frame_end_of ending }
        ensures handover { result.handover ≡ handover }
    {
        let end = match ending {
            None | Some(Ending::Failed(Failure::NoTap)) => FrameEnd::Stopped,
            Some(Ending::WithMount | Ending::Closing(_)) => FrameEnd::Ended,
            Some(Ending::Failed(Failure::OutOfMemory)) => FrameEnd::OutOfMemory,
            Some(Ending::Failed(Failure::WriteFailed)) => FrameEnd::WriteFailed,
        };
        SentFrames {
            end,
            handover,
            _made: Made,
        }
    }
}
