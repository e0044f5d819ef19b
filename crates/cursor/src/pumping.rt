ghost use Rattle.std.specs.Prelude.{◌≡◌, ◌<◌, ◌≤◌, ◌++◌, ℕ, List, length, vec_len, IfOk, IfErr};
ghost use Rattle.std.specs.Vec.{vec_capacity};
ghost use Rattle.cursor.specs.declared.takes.Delivery.{Delivery};
ghost use Rattle.cursor.specs.Account.{received, with_answers};
ghost use Rattle.cursor.specs.Taps.{Takes, IsUpTo, AllGoOn};

use crate::packets::Packet;
use crate::takes::{Account, Delivery, Taken};
use crate::taps::Tap;
use std::alloc::{AllocError, Global};

/// There was no memory for a further take, after so many.
#[derive(Clone, Copy, Debug, PartialEq, Eq)]
pub struct Stopped {
    pub takes: u64,
}

/// Makes n takes, or fewer where one answers `Empty` or `Ended`, which is then the last. Their packets
/// are added to `out`. Room is made before each take, so that nothing taken is dropped.
pub fn pump<T: Tap>(
    alloc: Global,
    tap: &mut T,
    n: u64,
    out: &mut Vec<Packet>,
) -> Result<Account, Stopped>
    // The answers are a run of the tap's steps, their packets stand in `out`, and the account counts
    // them.
    ensures done { IfOk result (λ account. (answers : List Delivery)
        × Takes T.take_gives tap.old answers tap.new × IsUpTo n answers
        × (out.new.items ≡ out.old.items ++ received answers)
        × (account ≡ with_answers (T.account tap.old) answers)) }
    ensures account { IfOk result (λ account. account ≡ T.account tap.new) }
    ensures same { T.packet_bytes tap.new ≡ T.packet_bytes tap.old }
    // So are those of the takes before the one that there was no room for.
    ensures stopped { IfErr result (λ stopped. (answers : List Delivery)
        × Takes T.take_gives tap.old answers tap.new × AllGoOn answers
        × (length answers ≡ stopped.takes) × (stopped.takes < n)
        × (out.new.items ≡ out.old.items ++ received answers)) }
{
    for takes in 0..n {
        let Ok(room) = make_room(alloc, tap, out) else {
            return Err(Stopped { takes });
        };
        match take_into(tap, room) {
            Delivery::Got { packet, .. } => out.push(packet).unwrap(),
            Delivery::Lost(_) => {}
            Delivery::Empty | Delivery::Ended => return Ok(tap.account()),
        }
    }
    Ok(tap.account())
}

/// Makes room for one more packet, in the list and for its bytes.
fn make_room<T: Tap>(alloc: Global, tap: &T, out: &mut Vec<Packet>) -> Result<Vec<u8>, AllocError>
    ensures room { IfOk result (λ room. vec_len room ≡ T.packet_bytes tap.now) }
    ensures place { IfOk result (λ room. vec_len out.new < vec_capacity out.new) }
    ensures same { out.new.items ≡ out.old.items }
{
    out.reserve(1)?;
    let room = vec![in alloc; 0; tap.packet_bytes()]?;
    Ok(room)
}

/// One take, with the packet itself. It keeps no more of the room that was made than its bytes need.
fn take_into<T: Tap>(tap: &mut T, mut room: Vec<u8>) -> Delivery
    requires { T.packet_bytes tap.old ≤ vec_len room }
    ensures gives { T.take_gives tap.old result tap.new }
    ensures same { T.packet_bytes tap.new ≡ T.packet_bytes tap.old }
{
    let taken = tap.take(room.as_mut_slice());
    if let Taken::Packet { len, .. } = taken {
        room.truncate(len);
        room.shrink_to_fit();
    }
    taken.delivery(room)
}
