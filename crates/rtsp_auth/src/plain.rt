//! Texts that can be in the line of a header field.
ghost use Rattle.std.specs.Prelude.{◌≡◌};
ghost use Rattle.rtsp_auth.specs.Plain.{has_no_colon, has_no_control};

/// Returns whether no byte of a text is a control character: below 0x20, or 0x7F.
pub(crate) fn has_no_control(text: &[u8]) -> bool
    ensures { result ≡ has_no_control text.now }
{
    text.iter().all(|byte| !byte.is_ascii_control())
}

/// Returns whether no byte of a text is a colon.
pub(crate) fn has_no_colon(text: &[u8]) -> bool
    ensures { result ≡ has_no_colon text.now }
{
    text.iter().all(|byte| *byte != b':')
}
