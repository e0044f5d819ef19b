//! Judging a request.
ghost use Rattle.std.specs.Prelude.{IfOk, IsSome};
ghost use Rattle.session_state.specs.History.{History};
ghost use Rattle.session_state.specs.Judged.{CanTake, IsJudged, asked_of};
ghost use Rattle.session_state.specs.Legal.{IsLegal};
ghost use Rattle.session_state.specs.Stands.{Stands, kept_of};

use crate::checks::Refusal;
use crate::given::Given;
use crate::world::{Change, World};
use rtsp_message::{Reply, Request};
use std::alloc::{AllocError, Global};

impl World {
    /// What a request of an open connection is answered, and what that changes. Changes nothing itself.
    pub(crate) fn judge(
        &self,
        alloc: Global,
        conn: u64,
        request: &Request,
        given: &Given,
    ) -> Result<(Reply, Change), AllocError>
        requires open { IsSome (kept_of conn self.now.connections) }
        ensures judged { IfOk result (λ r. (history : History) → IsLegal self.now.mounts.seats history → Stands history self.now
            → IsJudged (asked_of self.now history conn request.now) given.entry.now r.0 r.1) }
        ensures can { IfOk result (λ r. CanTake self.now conn r.1) }
    {
        match self.check(alloc, conn, request) {
            Ok(accepted) => self.accept(alloc, conn, request, given, accepted),
            Err(Refusal::Fails(check)) => {
                let reply = self.refuse(alloc, conn, request, check)?;
                Ok((reply, Change::Nothing))
            }
            Err(Refusal::OutOfMemory) => Err(AllocError),
        }
    }
}
