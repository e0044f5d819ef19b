//! What can be sent.
ghost use Rattle.std.specs.Prelude.{◌≡◌, ◌↔◌, ◌<◌, ◌≤◌, length, IsTrue, OnOk, IfErr};
ghost use Rattle.std.specs.Option.{option_copied};
ghost use Rattle.base_syntax.specs.Blanks.{HasBareEnds};
ghost use Rattle.rtsp_message.specs.Lines.{OneOrMore, Each};
ghost use Rattle.rtsp_message.specs.declared.byte_class.ByteClass.TheVariants.{Visible};
ghost use Rattle.rtsp_message.specs.Limits.{body_limit};
ghost use Rattle.request_text.specs.Faults.{AreValues, IsFault, IsFieldValue, IsGivenValue};
ghost use Rattle.request_text.specs.Methods.{body_of};

use crate::fault::RequestFault;
use crate::request_text::RequestText;
use rtsp_message::{ByteClass, MAX_BODY};

/// Returns true if each byte is of the class.
fn is_each(class: ByteClass, bytes: &[u8]) -> bool
    ensures { IsTrue result ↔ Each class bytes.now }
{
    class.leading(bytes) == bytes.len()
}

/// Returns true if neither end of the text is a space or a tab.
fn has_bare_ends(text: &[u8]) -> bool
    ensures { IsTrue result ↔ HasBareEnds text.now }
{
    if text.is_empty() {
        return true;
    }
    !ByteClass::Blank.contains(text[0]) && !ByteClass::Blank.contains(text[text.len() - 1])
}

/// Returns true if the text can be the URI of a request.
fn is_uri(uri: &[u8]) -> bool
    ensures { IsTrue result ↔ OneOrMore Visible uri.now }
{
    !uri.is_empty() && is_each(ByteClass::Visible, uri)
}

/// Returns true if the text can be the value of a field.
fn is_value(value: &[u8]) -> bool
    ensures { IsTrue result ↔ IsFieldValue value.now }
{
    has_bare_ends(value) && is_each(ByteClass::Value, value)
}

/// Returns true if the value, if there is one, can be that of a field.
fn is_given_value(value: Option<&[u8]>) -> bool
    ensures { IsTrue result ↔ IsGivenValue (option_copied value.entry) }
{
    match value {
        None => true,
        Some(value) => is_value(value),
    }
}

/// Returns true if each value that the request was given can be that of a field.
fn are_values(request: &RequestText<'_>) -> bool
    ensures { IsTrue result ↔ AreValues request.now }
{
    is_given_value(request.asked.transport())
        && is_given_value(request.session)
        && is_given_value(request.authorization)
}

/// Returns an error if the URI, a value or the body can't be sent.
pub(crate) fn check_parts(request: &RequestText<'_>) -> Result<(), RequestFault>
    ensures uri { OnOk result (OneOrMore Visible request.now.uri.now) }
    ensures values { OnOk result (AreValues request.now) }
    ensures body { OnOk result (length (body_of request.now.asked) ≤ body_limit) }
    ensures fault { IfErr result (λ fault. IsFault request.now fault) }
{
    if !is_uri(request.uri) {
        return Err(RequestFault::Uri);
    }
    if !are_values(request) {
        return Err(RequestFault::Value);
    }
    if request.asked.body().len() > MAX_BODY {
        return Err(RequestFault::BodyTooLong);
    }
    Ok(())
}
