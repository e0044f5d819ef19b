//! What is before a value of an Authorization field.
ghost use Rattle.std.specs.Prelude.{◌≡◌};
ghost use Rattle.rtsp_auth.specs.Fronts.{front_text};

/// What is before a value: the name of a parameter, with the comma before it and the equals sign after it.
#[derive(Clone, Copy, Debug, PartialEq, Eq, Drop)]
pub(crate) enum Front {
    /// The scheme, and the name of the first parameter.
    Username,
    Realm,
    Nonce,
    Uri,
    Response,
    Algorithm,
    Opaque,
    /// `qop` with its value, and the name of the parameter after it.
    Count,
    Cnonce,
}

impl Front {
    /// Returns its text.
    #[tactic(auto, unfolding(crate::specs::Fronts::front_text))]
    pub(crate) fn text(self) -> &'static [u8]
        ensures { result.now ≡ front_text self }
    {
        match self {
            Front::Username => b"Digest username=",
            Front::Realm => b", realm=",
            Front::Nonce => b", nonce=",
            Front::Uri => b", uri=",
            Front::Response => b", response=",
            Front::Algorithm => b", algorithm=",
            Front::Opaque => b", opaque=",
            Front::Count => b", qop=auth, nc=",
            Front::Cnonce => b", cnonce=",
        }
    }
}
