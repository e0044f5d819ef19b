//! What a camera sends is what a player gets.

ghost use Rattle.std.specs.Prelude.{◌≡◌, ◌⊎◌, ◌^◌, ◌<◌, ◌≤◌, ℕ, List, Option, Some, length};
ghost use Rattle.rtsp_message.specs.Intakes.{HandsOut, IntakeState, fresh};
ghost use Rattle.rtsp_message.specs.declared.unit.Unit.{Unit as StreamUnit};
ghost use Rattle.transport_header.specs.declared.spec.ChannelPair.{ChannelPair};
ghost use Rattle.cursor.specs.Account.{cursor_of};
ghost use Rattle.packet_ring.specs.Views.{Publishing, Subscribing, keep_of, packet_bytes_of};
ghost use Rattle.relay_pass.specs.declared.report.PassReport.{PassReport};
ghost use Rattle.relay_pass.specs.declared.report.StreamEnd.{StreamEnd};
ghost use Rattle.relay_pass.specs.declared.report.StreamEnd.TheVariants.{End as AtEnd};
ghost use Rattle.relay_pass.specs.declared.report.PassStop.TheVariants.{Stream};
ghost use Rattle.relay_pass.specs.Came.{frames_among};
ghost use Rattle.relay_pass.specs.Carried.{AreWritten, IsRelayed};
ghost use Rattle.relay_pass.specs.Passes.{PassesOn};

use interleaved::Source;

/// Each frame that a camera sends on a track's channel comes out to the player, byte for byte and in order, on the
/// player's channel of that track, and nothing else comes out.
///
/// It holds if no device fails, no memory is refused, the player begins at the log's end, the log has fewer than 2^46
/// packets, and no more of them are published than the ring keeps, or none is lost (`pass`#`kept_up` says when). A frame
/// doesn't come out if it is on an RTP channel and is no RTP packet, if it is longer than the ring's packets may be, or if
/// the player hasn't set up its track.
pub fn what_is_sent_comes_out<S: Source>()
    ensures relayed { (from to : List (Option ChannelPair)) (source : S) (new : IntakeState S) (publisher publisher' : Publishing) (seat seat' : Subscribing) (before after : Option (List ℕ)) (report : PassReport) (stream : List ℕ)
        → PassesOn S.incoming S.failed from to (fresh source) new publisher publisher' seat seat' before after report
        → S.incoming source ≡ Some stream
        → report.stop ≡ Stream AtEnd
        → cursor_of seat.account ≡ length publisher.log
        → (report.came.published ≤ keep_of publisher.ring) ⊎ (report.went.lost ≡ 0)
        → length publisher'.log < 2 ^ 46
        → (report.came.pinned ≡ 0) × (report.went.lost ≡ 0) × IsRelayed from to (packet_bytes_of publisher.ring) stream before after }
{}

/// The same of the frames that were read, however the stream ended: unless a write failed, each comes out.
pub fn what_is_read_comes_out<S: Source>()
    ensures written { (from to : List (Option ChannelPair)) (old new : IntakeState S) (publisher publisher' : Publishing) (seat seat' : Subscribing) (before after : Option (List ℕ)) (report : PassReport) (end : StreamEnd)
        → PassesOn S.incoming S.failed from to old new publisher publisher' seat seat' before after report
        → report.stop ≡ Stream end
        → cursor_of seat.account ≡ length publisher.log
        → (report.came.published ≤ keep_of publisher.ring) ⊎ (report.went.lost ≡ 0)
        → length publisher'.log < 2 ^ 46
        → (units : List StreamUnit) × HandsOut S.incoming old new units × AreWritten from to (packet_bytes_of publisher.ring) (frames_among units) before after }
{}

/// Nothing is lost if the seat begins at the log's end and no more packets are published than the ring keeps. No frame is
/// refused as pinned, for want of memory, or while the log has fewer than 2^46 packets for want of a number.
pub fn few_packets_are_kept<S: Source>()
    ensures lost { (from to : List (Option ChannelPair)) (old new : IntakeState S) (publisher publisher' : Publishing) (seat seat' : Subscribing) (before after : Option (List ℕ)) (report : PassReport)
        → PassesOn S.incoming S.failed from to old new publisher publisher' seat seat' before after report
        → cursor_of seat.account ≡ length publisher.log
        → report.came.published ≤ keep_of publisher.ring
        → report.went.lost ≡ 0 }
    ensures refused { (from to : List (Option ChannelPair)) (old new : IntakeState S) (publisher publisher' : Publishing) (seat seat' : Subscribing) (before after : Option (List ℕ)) (report : PassReport)
        → PassesOn S.incoming S.failed from to old new publisher publisher' seat seat' before after report
        → length publisher'.log < 2 ^ 46
        → (report.came.pinned ≡ 0) × (report.came.unkept ≡ 0) × (report.came.worn ≡ 0) }
{}
