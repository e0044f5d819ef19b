//! What holds of a player of a running ring over many calls.

ghost use Rattle.std.specs.Prelude.{◌≤◌, List, length};
ghost use Rattle.cursor.specs.Account.{cursor_of};
ghost use Rattle.packet_ring.specs.Players.{DoesCalls, SubscriberCall, WasGiven, answers_of};
ghost use Rattle.packet_ring.specs.Views.{Subscribing};

/// What a subscriber's calls gave it is the log that it has seen, from its cursor on and in order, less exactly the packets
/// that its takes reported lost: each packet is given once or lies in one loss.
///
/// The calls are takes with any answers and, between them, any number of `learn` and `meet`. With
/// `Pass::attach_back`#`account` the cursor is the start of the attachment, and with `Subscriber::detach`#`left` all packets
/// of the log are accounted for. With `Publisher::has_published` the log seen is a beginning of the publisher's.
pub fn takes_are_received()
    ensures { (old new : Subscribing) (calls : List SubscriberCall)
        → DoesCalls old calls new
        → cursor_of old.account ≤ length old.seen
        → WasGiven old (answers_of calls) new }
{}
