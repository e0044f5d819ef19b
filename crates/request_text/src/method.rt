//! Methods of requests.
ghost use Rattle.std.specs.Prelude.{◌≡◌};

/// A method that a client asks for (RFC 2326, 10).
#[derive(Clone, Copy, Debug, PartialEq, Eq)]
pub enum Method {
    Options,
    Describe,
    Announce,
    Setup,
    Record,
    Play,
    GetParameter,
    Teardown,
}

impl Method {
    ghost use Rattle.request_text.specs.Methods.{name_of};

    /// Returns its name, as a request line has it.
    pub fn name(self) -> &'static [u8]
        ensures { result.now ≡ name_of self }
    {
        match self {
            Method::Options => b"OPTIONS",
            Method::Describe => b"DESCRIBE",
            Method::Announce => b"ANNOUNCE",
            Method::Setup => b"SETUP",
            Method::Record => b"RECORD",
            Method::Play => b"PLAY",
            Method::GetParameter => b"GET_PARAMETER",
            Method::Teardown => b"TEARDOWN",
        }
    }
}
