//! What requests are sent with.
ghost use Rattle.std.specs.Prelude.{◌≡◌, ◌++◌, ◌⊎◌, IfOk, IfErr, Some, OnOk, OnErr};
ghost use Rattle.rtsp_auth.specs.declared.answer.Answer.TheVariants as answers;
ghost use Rattle.rtsp_auth.specs.declared.field_fault.FieldFault.TheVariants.{OutOfMemory};
ghost use Rattle.rtsp_auth.specs.Answers.{digest_text};
ghost use Rattle.rtsp_auth.specs.Attempts as spec;
ghost use Rattle.rtsp_auth.specs.Faults.{IsField};

use crate::basic::put_basic;
use crate::challenge::{Challenge, DigestChallenge};
use crate::credentials::Credentials;
use crate::digest::put_digest;
use crate::field_fault::FieldFault;
use crate::request::Request;
use base_syntax::Bytes;

/// A nonce that requests were sent with.
#[derive(Debug, Drop)]
pub struct NonceUse {
    pub nonce: Bytes,
    /// How many requests were sent with it.
    pub count: u32,
}

/// An answer of Digest that requests are sent with.
#[derive(Debug, Drop)]
pub struct DigestAnswer {
    /// The challenge that is answered.
    pub challenge: DigestChallenge,
    /// How many requests were sent with its nonce, `nc` of the last one (RFC 7616, 3.4).
    pub count: u32,
    /// The nonce that was used before, if there was one. If the server gives it again, its count goes on.
    pub before: Option<NonceUse>,
}

/// What requests are sent with.
#[derive(Debug, Drop)]
pub enum Answer {
    /// No Authorization field.
    Nothing,
    /// User name and password, as they are.
    Basic,
    /// An answer to this challenge of Digest.
    Digest(DigestAnswer),
}

/// Returns whether the server wants the same password with another nonce.
fn is_renewal(sent: &DigestChallenge, challenge: &DigestChallenge) -> bool
    ensures { result ≡ spec.is_renewal sent.now challenge.now }
{
    challenge.is_stale || sent.nonce.as_slice() != challenge.nonce.as_slice()
}

/// Returns how many requests were sent with the nonce before the last one, if it is this nonce.
fn count_before(before: &Option<NonceUse>, nonce: &[u8]) -> u32
    ensures { result ≡ spec.count_before before.now nonce.now }
{
    match before {
        Some(earlier) => {
            if earlier.nonce.as_slice() == nonce {
                earlier.count
            } else {
                0
            }
        }
        None => 0,
    }
}

impl DigestAnswer {
    /// Returns the answer to the first challenge.
    fn first(challenge: DigestChallenge) -> DigestAnswer
        ensures { result ≡ spec.first_answer challenge }
    {
        DigestAnswer {
            challenge,
            count: 0,
            before: None,
        }
    }

    /// Returns how many requests were sent with a nonce, of the last two nonces.
    fn count_of(&self, nonce: &[u8]) -> u32
        ensures { result ≡ spec.count_of self.now nonce.now }
    {
        if self.challenge.nonce.as_slice() == nonce {
            self.count
        } else {
            count_before(&self.before, nonce)
        }
    }

    /// Returns the nonce that was used last before this one.
    fn into_before(self, nonce: &[u8]) -> Option<NonceUse>
        ensures { result ≡ spec.nonce_before self nonce.now }
    {
        let DigestAnswer {
            challenge,
            count,
            before,
        } = self;
        let last = challenge.into_nonce();
        if last.as_slice() == nonce {
            before
        } else {
            Some(NonceUse { nonce: last, count })
        }
    }

    /// Returns the answer to the next challenge.
    fn next(self, challenge: DigestChallenge) -> DigestAnswer
        ensures { result ≡ spec.next_answer self challenge }
    {
        let count = self.count_of(challenge.nonce.as_slice());
        let before = self.into_before(challenge.nonce.as_slice());
        DigestAnswer {
            challenge,
            count,
            before,
        }
    }

    /// Appends the answer for one more request. After an error `out` and the count are as before.
    fn put(
        &mut self,
        out: &mut Vec<u8>,
        credentials: &Credentials,
        request: &Request,
        cnonce: &[u8],
    ) -> Result<(), FieldFault>
        ensures sent { OnOk result (self.new ≡ spec.one_more self.old) }
        ensures text { OnOk result (out.new.items ≡ out.old.items ++ digest_text self.new.challenge credentials.now request.now self.new.count cnonce.now) }
        ensures fits { OnOk result (IsField (digest_text self.new.challenge credentials.now request.now self.new.count cnonce.now)) }
        ensures fault { IfErr result (λ fault. (fault ≡ OutOfMemory) ⊎ (spec.field_fault (answers.Digest self.old) credentials.now request.now cnonce.now ≡ Some fault)) }
        ensures unsent { OnErr result (self.new ≡ self.old) }
        ensures err { OnErr result (out.new.items ≡ out.old.items) }
    {
        if self.count == u32::MAX {
            return Err(FieldFault::LastCount);
        }
        let count = self.count + 1;
        put_digest(out, &self.challenge, credentials, request, count, cnonce)?;
        self.count = count;
        Ok(())
    }
}

impl Answer {
    /// Returns whether a challenge that comes with a 401 for a request sent so says more than that the password is refused.
    pub(crate) fn is_open(&self, challenge: &Challenge) -> bool
        ensures { result ≡ spec.is_open self.now challenge.now }
    {
        match (self, challenge) {
            (Answer::Nothing, _) => true,
            (Answer::Basic, _) => false,
            (Answer::Digest(_), Challenge::Basic) => false,
            (Answer::Digest(sent), Challenge::Digest(challenge)) => {
                is_renewal(&sent.challenge, challenge)
            }
        }
    }

    /// Returns the answer of Digest to a challenge.
    fn digest_after(self, challenge: DigestChallenge) -> DigestAnswer
        ensures { result ≡ spec.digest_after self challenge }
    {
        match self {
            Answer::Nothing => DigestAnswer::first(challenge),
            Answer::Basic => DigestAnswer::first(challenge),
            Answer::Digest(sent) => sent.next(challenge),
        }
    }

    /// Returns what the next requests are sent with, once a challenge is answered.
    pub(crate) fn after(self, challenge: Challenge) -> Answer
        ensures { result ≡ spec.answer_after self challenge }
    {
        match challenge {
            Challenge::Basic => Answer::Basic,
            Challenge::Digest(challenge) => Answer::Digest(self.digest_after(challenge)),
        }
    }

    /// Appends the value of the Authorization field of one more request, and returns whether there is one. After an error `out` and the
    /// count are as before.
    pub(crate) fn put(
        &mut self,
        out: &mut Vec<u8>,
        credentials: &Credentials,
        request: &Request,
        cnonce: &[u8],
    ) -> Result<bool, FieldFault>
        ensures value { IfOk result (λ is_there. is_there ≡ spec.has_field self.old credentials.now request.now) }
        ensures sent { OnOk result (self.new ≡ spec.sent_once_more self.old) }
        ensures text { OnOk result (out.new.items ≡ out.old.items ++ spec.field_text self.new credentials.now request.now cnonce.now) }
        ensures fits { OnOk result (IsField (spec.field_text self.new credentials.now request.now cnonce.now)) }
        ensures fault { IfErr result (λ fault. (fault ≡ OutOfMemory) ⊎ (spec.field_fault self.old credentials.now request.now cnonce.now ≡ Some fault)) }
        ensures unsent { OnErr result (self.new ≡ self.old) }
        ensures err { OnErr result (out.new.items ≡ out.old.items) }
    {
        match self {
            Answer::Nothing => Ok(false),
            Answer::Basic => {
                if !credentials.is_for(request.host) {
                    return Ok(false);
                }
                put_basic(out, credentials)?;
                Ok(true)
            }
            Answer::Digest(sent) => {
                sent.put(out, credentials, request, cnonce)?;
                Ok(true)
            }
        }
    }
}
