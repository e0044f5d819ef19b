//! What a seat learns of the log without a load.
ghost use Rattle.std.specs.Prelude.{◌≡◌, ◌⊎◌, ◌≤◌, take};
ghost use Rattle.packet_ring.specs.Calls.{SeesOn};
ghost use Rattle.packet_ring.specs.Steps.{HasSeen, ends_at};
ghost use Rattle.packet_ring.specs.Views.{packets_from, seen_by};

use crate::block::Token;
use crate::reached::Reached;

/// The token, which knows of `known` packets, knows of the `length` packets that were told, too. Returns of how many it knows
/// then.
pub(crate) fn learn_told(token: &mut Token, known: u64, told: &Reached, length: u64) -> u64
    requires same { told.now.id ≡ token.old.id }
    requires had { HasSeen known token.old.me.seen }
    requires has { HasSeen length told.now.log }
    ensures same { (token.new.id ≡ token.old.id) × (token.new.number ≡ token.old.number) × (token.new.me.view ≡ token.old.me.view) × (token.new.me.right ≡ token.old.me.right) }
    ensures has { HasSeen result token.new.me.seen }
    ensures own { SeesOn (seen_by token.old known) (ends_at token.old.me.seen known) (seen_by token.new result) (ends_at token.new.me.seen result) }
    ensures told { SeesOn (packets_from (take length told.now.log)) (ends_at told.now.log length) (seen_by token.new result) (ends_at token.new.me.seen result) }
    ensures more { known ≤ result }
    ensures count { (result ≡ known) ⊎ (result ≡ length) }
    ensures one { (seen_by token.new result ≡ seen_by token.old known) ⊎ (seen_by token.new result ≡ packets_from (take length told.now.log)) }
{
    token.learn(told);
    if known < length { length } else { known }
}
