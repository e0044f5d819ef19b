ghost use Rattle.std.specs.Prelude.{◌≡◌, ◌↔◌, ◌++◌, ℕ, List, Option, take, IsTrue, IfOk, OnErr};
ghost use Rattle.cursor.specs.declared.calls.Answer.{Answer};
ghost use Rattle.cursor.specs.Log.{Event, LegalHistory, Run};
ghost use Rattle.cursor.specs.Plain.{log_of, made, MayMake, PlainRun, Replied, Replies};

use crate::calls::{Answer, Call};
use crate::plain_log::PlainLog;
use std::alloc::{AllocError, Global};

/// Makes these calls in order. Each that may be made when its turn comes is answered, and no other one.
/// What was answered is a run of log events, and from the empty log a legal history.
pub fn run(
    alloc: Global,
    log: &mut PlainLog,
    calls: &[Call],
) -> Result<Vec<Option<Answer>>, AllocError>
    ensures replies { IfOk result (λ replies. Replies log.old calls.now replies.items log.new) }
    ensures plain { IfOk result (λ replies. PlainRun log.old (made calls.now replies.items) log.new) }
    ensures history { IfOk result (λ replies.
        Run log.old.keep (log_of log.old) (made calls.now replies.items) (log_of log.new)) }
    // It goes on from any legal history, as the empty one that a new log has.
    ensures legal { IfOk result (λ replies. (seats : ℕ) (before : List Event)
        → LegalHistory log.old.keep seats before (log_of log.old)
        → LegalHistory log.old.keep seats (before ++ made calls.now replies.items) (log_of log.new)) }
    // Without memory for one more it stands where the calls before left it.
    ensures err { OnErr result ((n : ℕ) × (replies : List (Option Answer))
        × Replies log.old (take n calls.now) replies log.new) }
{
    let mut replies = Vec::with_capacity(alloc, calls.len())?;
    for call in calls {
        replies.push(reply(alloc, log, call)?).unwrap();
    }
    Ok(replies)
}

/// The answer to one call, if it may be made now. Without memory the log is as it was.
fn reply(alloc: Global, log: &mut PlainLog, call: &Call) -> Result<Option<Answer>, AllocError>
    ensures replied { IfOk result (λ reply. Replied log.old call.now reply log.new) }
    ensures err { OnErr result (log.new ≡ log.old) }
{
    if !may_make(log, call) {
        return Ok(None);
    }
    let answer = match call {
        Call::Publish(packet) => match log.publish(packet.tag, packet.bytes.as_slice()) {
            Ok(number) => Answer::Appended(number),
            Err(_) => return Err(AllocError),
        },
        Call::Close => {
            log.close();
            Answer::Closed
        }
        Call::Attach { seat, back } => Answer::Attached(log.attach_back(*seat, *back)),
        Call::Take(seat) => {
            let mut room = vec![in alloc; 0; log.packet_bytes()]?;
            let taken = log.take(*seat, room.as_mut_slice());
            Answer::Taken(taken.delivery(room))
        }
        Call::Detach(seat) => Answer::Detached(log.detach(*seat)),
    };
    Ok(Some(answer))
}

/// Whether a call may be made now.
fn may_make(log: &PlainLog, call: &Call) -> bool
    ensures { IsTrue result ↔ MayMake log.now call.now }
{
    match call {
        Call::Publish(packet) => !log.is_closed() && packet.bytes.len() <= log.packet_bytes(),
        Call::Close => !log.is_closed(),
        Call::Attach { seat, .. } => log.is_free(*seat),
        Call::Take(seat) | Call::Detach(seat) => log.is_attached(*seat),
    }
}
