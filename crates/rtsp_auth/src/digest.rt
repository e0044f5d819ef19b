//! An answer of Digest (RFC 7616, 3.4).
ghost use Rattle.std.specs.Prelude.{◌≡◌, ◌++◌, ◌⊎◌, length, take, Some, IfErr, OnOk, OnErr};
ghost use Rattle.std.specs.Option.{option_copied};
ghost use Rattle.rtsp_auth.specs.declared.field_fault.FieldFault.TheVariants.{OutOfMemory};
ghost use Rattle.rtsp_auth.specs.Answers.{algorithm_name, algorithm_part, count_part, digest_text, opaque_part, request_part, user_part};
ghost use Rattle.rtsp_auth.specs.Faults.{IsField, text_fault};

use crate::algorithm::Algorithm;
use crate::challenge::DigestChallenge;
use crate::credentials::Credentials;
use crate::field_fault::FieldFault;
use crate::front::Front;
use crate::quoting::write_quoted;
use crate::request::Request;
use crate::responses::response;
use crate::settling::settle;
use base_syntax::Bytes;
use std::alloc::AllocError;

/// Appends the user, and the challenge that is answered, or a part of it if memory is refused.
#[tactic(auto, unfolding(crate::specs::Answers::user_part))]
fn write_user(
    out: &mut Vec<u8>,
    challenge: &DigestChallenge,
    credentials: &Credentials,
) -> Result<(), AllocError>
    ensures text { OnOk result (out.new.items ≡ out.old.items ++ user_part challenge.now credentials.now) }
    ensures kept { OnErr result (take (length out.old.items) out.new.items ≡ out.old.items) }
{
    write_quoted(out, Front::Username, credentials.user.as_slice())?;
    write_quoted(out, Front::Realm, challenge.realm.as_slice())?;
    write_quoted(out, Front::Nonce, challenge.nonce.as_slice())
}

/// Appends what is asked for and the response, or a part of it if memory is refused.
#[tactic(auto, unfolding(crate::specs::Answers::request_part))]
fn write_request(
    out: &mut Vec<u8>,
    challenge: &DigestChallenge,
    credentials: &Credentials,
    request: &Request,
    count: u32,
    cnonce: &[u8],
) -> Result<(), AllocError>
    ensures text { OnOk result (out.new.items ≡ out.old.items ++ request_part challenge.now credentials.now request.now count cnonce.now) }
    ensures kept { OnErr result (take (length out.old.items) out.new.items ≡ out.old.items) }
{
    let digits = response(
        *out.allocator(),
        challenge,
        credentials,
        request,
        count,
        cnonce,
    )?;
    write_quoted(out, Front::Uri, request.uri)?;
    write_quoted(out, Front::Response, digits.as_bytes())
}

/// Returns the name of a hash function.
fn algorithm_name(algorithm: Algorithm) -> &'static [u8]
    ensures { result.now ≡ algorithm_name algorithm }
{
    match algorithm {
        Algorithm::Md5 => b"MD5",
        Algorithm::Sha256 => b"SHA-256",
    }
}

/// Appends the algorithm if the challenge names it, or a part of it if memory is refused.
#[tactic(auto, unfolding(crate::specs::Answers::algorithm_part))]
fn write_algorithm(
    out: &mut Vec<u8>,
    is_named: bool,
    algorithm: Algorithm,
) -> Result<(), AllocError>
    ensures text { OnOk result (out.new.items ≡ out.old.items ++ algorithm_part is_named algorithm) }
    ensures kept { OnErr result (take (length out.old.items) out.new.items ≡ out.old.items) }
{
    if !is_named {
        return Ok(());
    }
    out.extend_from_slice(Front::Algorithm.text())?;
    out.extend_from_slice(algorithm_name(algorithm))
}

/// Appends what the challenge wants repeated, or a part of it if memory is refused.
fn write_opaque(out: &mut Vec<u8>, opaque: &Option<Bytes>) -> Result<(), AllocError>
    ensures text { OnOk result (out.new.items ≡ out.old.items ++ opaque_part opaque.now) }
    ensures kept { OnErr result (take (length out.old.items) out.new.items ≡ out.old.items) }
{
    match opaque {
        Some(opaque) => write_quoted(out, Front::Opaque, opaque.as_slice()),
        None => Ok(()),
    }
}

/// Appends the count of the nonce and the client's nonce if the challenge offers a qop, or a part of them if memory is refused.
#[tactic(auto, unfolding(crate::specs::Answers::count_part))]
fn write_count(
    out: &mut Vec<u8>,
    has_qop: bool,
    count: u32,
    cnonce: &[u8],
) -> Result<(), AllocError>
    ensures text { OnOk result (out.new.items ≡ out.old.items ++ count_part has_qop count cnonce.now) }
    ensures kept { OnErr result (take (length out.old.items) out.new.items ≡ out.old.items) }
{
    if !has_qop {
        return Ok(());
    }
    let digits = hex::encode(*out.allocator(), count.to_be_bytes())?;
    out.extend_from_slice(Front::Count.text())?;
    out.extend_from_slice(digits.as_bytes())?;
    write_quoted(out, Front::Cnonce, cnonce)
}

/// Appends the answer, or a part of it if memory is refused.
#[tactic(auto, unfolding(crate::specs::Answers::digest_text))]
fn write_digest(
    out: &mut Vec<u8>,
    challenge: &DigestChallenge,
    credentials: &Credentials,
    request: &Request,
    count: u32,
    cnonce: &[u8],
) -> Result<(), AllocError>
    ensures text { OnOk result (out.new.items ≡ out.old.items ++ digest_text challenge.now credentials.now request.now count cnonce.now) }
    ensures kept { OnErr result (take (length out.old.items) out.new.items ≡ out.old.items) }
{
    write_user(out, challenge, credentials)?;
    write_request(out, challenge, credentials, request, count, cnonce)?;
    write_algorithm(out, challenge.is_named, challenge.algorithm)?;
    write_opaque(out, &challenge.opaque)?;
    write_count(out, challenge.has_qop, count, cnonce)
}

/// Appends the answer. After an error `out` is as before.
#[tactic(auto, using(crate::proofs::Appended::appended))]
pub(crate) fn put_digest(
    out: &mut Vec<u8>,
    challenge: &DigestChallenge,
    credentials: &Credentials,
    request: &Request,
    count: u32,
    cnonce: &[u8],
) -> Result<(), FieldFault>
    ensures ok { OnOk result (out.new.items ≡ out.old.items ++ digest_text challenge.now credentials.now request.now count cnonce.now) }
    ensures fits { OnOk result (IsField (digest_text challenge.now credentials.now request.now count cnonce.now)) }
    ensures fault { IfErr result (λ fault. (fault ≡ OutOfMemory) ⊎ (text_fault (digest_text challenge.now credentials.now request.now count cnonce.now) ≡ Some fault)) }
    ensures err { OnErr result (out.new.items ≡ out.old.items) }
{
    let before = out.len();
    let written = write_digest(out, challenge, credentials, request, count, cnonce);
    settle(out, before, written)
}
