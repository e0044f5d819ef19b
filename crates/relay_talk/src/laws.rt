//! What it comes to that a talk takes what comes in, as theorems that call nothing.
ghost use Rattle.std.specs.Prelude.{◌≡◌, ◌++◌, ℕ, List, Some};
ghost use Rattle.interleaved.specs.declared.frame.Frame.{Frame};
ghost use Rattle.rtsp_message.specs.declared.unit.Unit.{Unit as StreamUnit};
ghost use Rattle.session_state.specs.declared.given.Given.{Given};
ghost use Rattle.packet_ring.specs.Views.{Publishing};
ghost use Rattle.relay_talk.specs.Publishing.{IsRecording, units_of};
ghost use Rattle.relay_talk.specs.Taking.{GrowsByFrames, SplitsInTwo, TakesAll, TalkState};

/// If the session records and has a feed when a stretch of frames comes in, the log of the feed grows by those frames that are
/// published, in order, and by nothing else.
pub fn recorded_frames_grow_the_log()
    ensures { (before after : TalkState) (frames : List Frame) (given : List Given) (text : List ℕ) (feed : Publishing)
        → IsRecording 1 before.standing.history → before.publishing ≡ Some feed
        → TakesAll before (units_of frames) given after text → GrowsByFrames before.standing.history frames feed after.publishing }
{}

/// If no session records when a stretch of frames comes in, the feed is unchanged.
pub fn unrecorded_frames_are_dropped()
    ensures { (before after : TalkState) (frames : List Frame) (given : List Given) (text : List ℕ)
        → ¬ IsRecording 1 before.standing.history
        → TakesAll before (units_of frames) given after text → after.publishing ≡ before.publishing }
{}

/// Units that were taken can be cut anywhere: there is a state between the two parts. So both laws above speak of each stretch
/// of a talk.
pub fn talks_split_anywhere()
    ensures { (before after : TalkState) (units others : List StreamUnit) (given : List Given) (text : List ℕ)
        → TakesAll before (units ++ others) given after text → SplitsInTwo before units others given after text }
{}
