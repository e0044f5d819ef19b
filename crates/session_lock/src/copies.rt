//! The copies that the history keeps of a request.
ghost use Rattle.std.specs.Prelude.{◌≡◌, ◌≤◌, ◌<◌, ◌+◌, ◌^◌, [], IfOk, OnOk, Option, Some, vec_len, vec_capacity, Vec};
ghost use Rattle.session_lock.specs.Spares.{out_count};

use crate::entries::Entries;
use crate::spares::Spares;
use rtsp_message::{Reply, Request};
use session_state::{Act, Entry, Given};
use std::alloc::{AllocError, Global};

/// A request and what is given with it, copied: what the history keeps of a request, beside its connection and its answer.
#[derive(Drop)]
pub struct Copies {
    pub request: Request,
    pub given: Given,
}

impl Copies {
    ghost use Rattle.session_state.specs.declared.entry.Entry.TheVariants as entries;

    /// Copies a request and what is given with it. The only error is out of memory.
    pub fn of(alloc: Global, request: &Request, given: &Given) -> Result<Copies, AllocError>
        ensures request { IfOk result (λ copies. copies.request ≡ request.now) }
        ensures given { IfOk result (λ copies. copies.given ≡ given.entry.now) }
    {
        Ok(Copies {
            request: request.copy(alloc)?,
            given: given.copy(alloc)?,
        })
    }

    /// The entry of the request, with the reply and the act that it got. Takes no memory.
    pub(crate) fn into_entry(self, conn: u64, reply: Reply, act: Act) -> Entry
        ensures { result ≡ entries.Request conn self.request self.given reply act }
    {
        Entry::Request {
            conn,
            request: self.request,
            given: self.given,
            reply,
            act,
        }
    }
}

/// Makes the room that a request may need: for its entry, for the return of the seat that it takes or the expiry of the
/// session that it begins, and for the passes of the mount that it announces, beside what was promised to those who are open.
pub(crate) fn make_room<P: Drop>(
    opened: usize,
    entries: &mut Entries,
    spares: &mut Spares<P>,
) -> Result<(), AllocError>
    requires { opened + out_count spares.old.mounts ≤ entries.old.room }
    ensures entries { OnOk result (opened + opened + out_count spares.new.mounts + 2 ≤ entries.new.room) }
    ensures spares { OnOk result (0 < spares.new.room) }
    ensures same { entries.new ≡ record entries.old { room = entries.new.room } }
    ensures mounts { spares.new.mounts ≡ spares.old.mounts }
    ensures kept { entries.old.room ≤ entries.new.room }
    ensures bounded { out_count spares.new.mounts < 2 ^ 63 }
{
    entries.reserve(opened, spares.count_out())?;
    spares.reserve()
}

/// Room for the passes of an offer.
pub(crate) fn room_for<P: Drop>(
    alloc: Global,
    offer: &Option<Vec<P>>,
) -> Result<Vec<Option<P>>, AllocError>
    ensures empty { IfOk result (λ room. room.items ≡ []) }
    ensures enough { IfOk result (λ room. (passes : _) → offer.now ≡ Some passes → vec_len passes ≤ vec_capacity room) }
{
    match offer {
        None => Ok(Vec::new(alloc)),
        Some(passes) => Vec::with_capacity(alloc, passes.len()),
    }
}
