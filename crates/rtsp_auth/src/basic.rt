//! An answer of Basic (RFC 7617).
ghost use Rattle.std.specs.Prelude.{◌≡◌, ◌++◌, ◌⊎◌, length, take, Some, IfOk, IfErr, OnOk, OnErr};
ghost use Rattle.rtsp_auth.specs.declared.field_fault.FieldFault.TheVariants.{OutOfMemory};
ghost use Rattle.rtsp_auth.specs.Answers.{basic_text, user_pass};
ghost use Rattle.rtsp_auth.specs.Faults.{IsField, text_fault};

use crate::credentials::Credentials;
use crate::field_fault::FieldFault;
use crate::settling::settle;
use base64::engine::general_purpose::STANDARD;
use std::alloc::{AllocError, Global};

/// Returns the user name and the password, joined by a colon.
#[tactic(auto, unfolding(crate::specs::Answers::user_pass))]
fn user_pass(alloc: Global, credentials: &Credentials) -> Result<Vec<u8>, AllocError>
    ensures { IfOk result (λ text. text.items ≡ user_pass credentials.now) }
{
    let mut text = Vec::from_slice(alloc, credentials.user.as_slice())?;
    text.extend_from_slice(b":")?;
    text.extend_from_slice(credentials.password.as_slice())?;
    Ok(text)
}

/// Appends the answer, or a part of it if memory is refused.
#[tactic(auto, unfolding(crate::specs::Answers::basic_text))]
fn write_basic(out: &mut Vec<u8>, credentials: &Credentials) -> Result<(), AllocError>
    ensures text { OnOk result (out.new.items ≡ out.old.items ++ basic_text credentials.now) }
    ensures kept { OnErr result (take (length out.old.items) out.new.items ≡ out.old.items) }
{
    let alloc = *out.allocator();
    let text = user_pass(alloc, credentials)?;
    let encoded = STANDARD.encode(alloc, &text)?;
    out.extend_from_slice(b"Basic ")?;
    out.extend_from_slice(encoded.as_bytes())
}

/// Appends the answer. After an error `out` is as before.
#[tactic(auto, using(crate::proofs::Appended::appended))]
pub(crate) fn put_basic(out: &mut Vec<u8>, credentials: &Credentials) -> Result<(), FieldFault>
    ensures ok { OnOk result (out.new.items ≡ out.old.items ++ basic_text credentials.now) }
    ensures fits { OnOk result (IsField (basic_text credentials.now)) }
    ensures fault { IfErr result (λ fault. (fault ≡ OutOfMemory) ⊎ (text_fault (basic_text credentials.now) ≡ Some fault)) }
    ensures err { OnErr result (out.new.items ≡ out.old.items) }
{
    let before = out.len();
    let written = write_basic(out, credentials);
    settle(out, before, written)
}
