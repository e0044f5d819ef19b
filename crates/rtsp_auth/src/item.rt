//! What a field of challenges is made of.
ghost use Rattle.std.specs.Prelude.{◌≡◌};
ghost use Rattle.rtsp_auth.specs.Items.{scheme_of};

use base_syntax::{Bytes, is_same_name};

/// The scheme of a challenge.
#[derive(Clone, Copy, Debug, PartialEq, Eq, Drop)]
pub(crate) enum Scheme {
    Basic,
    Digest,
    /// One that this crate doesn't know.
    Other,
}

/// A parameter of a challenge.
#[derive(Drop)]
pub(crate) struct Parameter {
    /// Its name, as it is spelled.
    pub(crate) name: Bytes,
    /// Its value, without the quotes and backslashes of a quoted string.
    pub(crate) value: Bytes,
}

/// A part of a field.
#[derive(Drop)]
pub(crate) enum Item {
    /// The start of a challenge.
    Scheme(Scheme),
    /// A parameter of the challenge that started last.
    Parameter(Parameter),
    /// What is neither.
    Fault,
}

/// Returns the scheme that a name is of, in any case.
pub(crate) fn scheme_of(name: &[u8]) -> Scheme
    ensures { result ≡ scheme_of name.now }
{
    if is_same_name(name, b"Digest") {
        Scheme::Digest
    } else if is_same_name(name, b"Basic") {
        Scheme::Basic
    } else {
        Scheme::Other
    }
}
