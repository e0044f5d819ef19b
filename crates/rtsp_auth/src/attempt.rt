//! Which 401 is answered.
ghost use Rattle.std.specs.Prelude.{◌≡◌, ◌++◌, ◌⊎◌, false, Some, IfOk, IfErr, OnOk, OnErr};
ghost use Rattle.std.specs.Bool.{OnTrue, OnFalse};
ghost use Rattle.rtsp_auth.specs.declared.answer.Answer.TheVariants.{Nothing};
ghost use Rattle.rtsp_auth.specs.declared.field_fault.FieldFault.TheVariants.{OutOfMemory};
ghost use Rattle.rtsp_auth.specs.Attempts as spec;
ghost use Rattle.rtsp_auth.specs.Faults.{IsField};

use crate::answer::Answer;
use crate::challenge::Challenge;
use crate::credentials::Credentials;
use crate::field_fault::FieldFault;
use crate::request::Request;
use std::mem;

/// What the requests of a connection are sent with, and whether a 401 for the request that was begun last is answered.
#[derive(Debug, Drop)]
pub struct Attempt {
    /// What requests are sent with.
    pub answer: Answer,
    /// Whether a 401 for the request that was begun last was answered. Then no other 401 for it is.
    pub is_spent: bool,
}

/// Returns whether an answer to a challenge may go to the host of a request.
fn may_go(challenge: &Challenge, credentials: &Credentials, request: &Request) -> bool
    ensures { result ≡ spec.may_go challenge.now credentials.now request.now }
{
    match challenge {
        Challenge::Basic => credentials.is_for(request.host),
        Challenge::Digest(_) => true,
    }
}

impl Attempt {
    /// A connection on which no request was sent.
    pub fn new() -> Attempt
        ensures answer { result.answer ≡ Nothing }
        ensures begun { result.is_spent ≡ false }
    {
        Attempt {
            answer: Answer::Nothing,
            is_spent: false,
        }
    }

    /// Another request begins, so that its first 401 can be answered. The caller says so once for each request, and not when it sends
    /// the request again with an answer. Without it no further 401 is answered.
    pub fn begin(&mut self)
        ensures { self.new ≡ spec.begun self.old }
    {
        self.is_spent = false;
    }

    /// Takes in the challenge of a 401 for a request, and returns whether the request is to be sent again with an answer to it. It is
    /// if no 401 for this request was answered, whatever other replies came between, and either nothing was sent with the request, or a
    /// challenge of Digest refuses it for its nonce: the new challenge says `stale`, or has another nonce. Basic is answered only if the
    /// request goes to the host of the credentials. Otherwise the password is refused, and nothing changes.
    pub fn answer(
        &mut self,
        challenge: Challenge,
        credentials: &Credentials,
        request: &Request,
    ) -> bool
        ensures value { result ≡ spec.is_answered self.old challenge credentials.now request.now }
        ensures yes { OnTrue result (self.new ≡ spec.answered self.old challenge) }
        ensures no { OnFalse result (self.new ≡ self.old) }
    {
        if self.is_spent
            || !self.answer.is_open(&challenge)
            || !may_go(&challenge, credentials, request)
        {
            return false;
        }
        let before = mem::replace(&mut self.answer, Answer::Nothing);
        self.answer = before.after(challenge);
        self.is_spent = true;
        true
    }

    /// Appends the value of the Authorization field of one more request. Returns whether the request has that field: if not, nothing
    /// is appended. An answer of Digest has the count of this request, which is one more than that of the last one with its nonce. An
    /// answer of Basic is written only if the request goes to the host of the credentials.
    ///
    /// `cnonce` is what the client draws for the request (RFC 7616, 3.4). The value has no byte below 0x20, no 0x7F and at most
    /// `MOST_FIELD_BYTES`; if it can't be so, a fault names why. After a fault `out` and the count are as before.
    pub fn put_authorization(
        &mut self,
        out: &mut Vec<u8>,
        credentials: &Credentials,
        request: &Request,
        cnonce: &[u8],
    ) -> Result<bool, FieldFault>
        ensures value { IfOk result (λ is_there. is_there ≡ spec.has_field self.old.answer credentials.now request.now) }
        ensures sent { OnOk result (self.new ≡ spec.sent self.old) }
        ensures text { OnOk result (out.new.items ≡ out.old.items ++ spec.field_text self.new.answer credentials.now request.now cnonce.now) }
        ensures fits { OnOk result (IsField (spec.field_text self.new.answer credentials.now request.now cnonce.now)) }
        ensures fault { IfErr result (λ fault. (fault ≡ OutOfMemory) ⊎ (spec.field_fault self.old.answer credentials.now request.now cnonce.now ≡ Some fault)) }
        ensures unsent { OnErr result (self.new ≡ self.old) }
        ensures err { OnErr result (out.new.items ≡ out.old.items) }
    {
        self.answer.put(out, credentials, request, cnonce)
    }
}
