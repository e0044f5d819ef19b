//! The response of Digest (RFC 7616, 3.4.1).
ghost use Rattle.std.specs.Prelude.{◌≡◌, ◌++◌, length, take, IfOk, OnOk, OnErr};
ghost use Rattle.std.specs.String.{string_bytes};
ghost use Rattle.rtsp_auth.specs.Digest.{a1_text, a2_text, colon_and, hashed_text, qop_part, response_of};

use crate::algorithm::hash_text;
use crate::challenge::DigestChallenge;
use crate::credentials::Credentials;
use crate::request::Request;
use std::alloc::{AllocError, Global};

/// Appends a text after a colon, or a part of it if memory is refused.
fn write_part(out: &mut Vec<u8>, text: &[u8]) -> Result<(), AllocError>
    ensures text { OnOk result (out.new.items ≡ out.old.items ++ colon_and text.now) }
    ensures kept { OnErr result (take (length out.old.items) out.new.items ≡ out.old.items) }
{
    out.extend_from_slice(b":")?;
    out.extend_from_slice(text)
}

/// Returns A1, which is hashed for the user.
#[tactic(auto, unfolding(crate::specs::Digest::a1_text))]
fn a1_text(alloc: Global, credentials: &Credentials, realm: &[u8]) -> Result<Vec<u8>, AllocError>
    ensures { IfOk result (λ text. text.items ≡ a1_text credentials.now realm.now) }
{
    let mut text = Vec::from_slice(alloc, credentials.user.as_slice())?;
    write_part(&mut text, realm)?;
    write_part(&mut text, credentials.password.as_slice())?;
    Ok(text)
}

/// Returns A2, which is hashed for the request.
#[tactic(auto, unfolding(crate::specs::Digest::a2_text))]
fn a2_text(alloc: Global, request: &Request) -> Result<Vec<u8>, AllocError>
    ensures { IfOk result (λ text. text.items ≡ a2_text request.now) }
{
    let mut text = Vec::from_slice(alloc, request.method)?;
    write_part(&mut text, request.uri)?;
    Ok(text)
}

/// Appends what is between the nonce and the last colon, or a part of it if memory is refused.
#[tactic(auto, unfolding(crate::specs::Digest::qop_part))]
fn write_qop_part(
    out: &mut Vec<u8>,
    has_qop: bool,
    count: u32,
    cnonce: &[u8],
) -> Result<(), AllocError>
    ensures text { OnOk result (out.new.items ≡ out.old.items ++ qop_part has_qop count cnonce.now) }
    ensures kept { OnErr result (take (length out.old.items) out.new.items ≡ out.old.items) }
{
    if !has_qop {
        return Ok(());
    }
    let digits = hex::encode(*out.allocator(), count.to_be_bytes())?;
    write_part(out, digits.as_bytes())?;
    write_part(out, cnonce)?;
    write_part(out, b"auth")
}

/// Returns what is hashed at last.
#[tactic(auto, unfolding(crate::specs::Digest::hashed_text))]
fn hashed_text(
    alloc: Global,
    challenge: &DigestChallenge,
    credentials: &Credentials,
    request: &Request,
    count: u32,
    cnonce: &[u8],
) -> Result<Vec<u8>, AllocError>
    ensures { IfOk result (λ text. text.items ≡ hashed_text challenge.now credentials.now request.now count cnonce.now) }
{
    let a1 = a1_text(alloc, credentials, challenge.realm.as_slice())?;
    let a2 = a2_text(alloc, request)?;
    let user_hash = hash_text(alloc, challenge.algorithm, &a1)?;
    let request_hash = hash_text(alloc, challenge.algorithm, &a2)?;
    let mut text = Vec::from_slice(alloc, user_hash.as_bytes())?;
    write_part(&mut text, challenge.nonce.as_slice())?;
    write_qop_part(&mut text, challenge.has_qop, count, cnonce)?;
    write_part(&mut text, request_hash.as_bytes())?;
    Ok(text)
}

/// Returns the response to a challenge, in lower-case hexadecimal digits: of MD5 32 of them, of SHA-256 64
/// (RFC 7616, 3.4.1; without `qop` RFC 2617, 3.2.2.1).
///
/// `count` is how many requests were sent with the challenge's nonce, this one too. `cnonce` is what the client draws. Neither counts
/// if the challenge offers no `qop`. The only error is out of memory.
pub fn response(
    alloc: Global,
    challenge: &DigestChallenge,
    credentials: &Credentials,
    request: &Request,
    count: u32,
    cnonce: &[u8],
) -> Result<String, AllocError>
    ensures { IfOk result (λ digits. string_bytes digits ≡ response_of challenge.now credentials.now request.now count cnonce.now) }
{
    let text = hashed_text(alloc, challenge, credentials, request, count, cnonce)?;
    hash_text(alloc, challenge.algorithm, &text)
}
