//! What a request asks for.
ghost use Rattle.std.specs.Prelude.{◌≡◌};
ghost use Rattle.std.specs.Option.{option_copied};
ghost use Rattle.request_text.specs.Methods.{body_of, description_of, method_of, transport_of};

use crate::method::Method;

/// What a client asks a server for, with what only such a request has (RFC 2326, 10).
#[derive(Clone, Copy, Debug, PartialEq, Eq, Drop)]
pub enum Asked<'a> {
    /// The methods that the server knows.
    Options,
    /// The description of a presentation, as SDP.
    Describe,
    /// To take this description of a presentation, the text of an SDP.
    Announce(&'a [u8]),
    /// To set a track up, with this value of the field Transport (RFC 2326, 12.39).
    Setup(&'a [u8]),
    /// To record from the beginning.
    Record,
    /// To play from the beginning.
    Play,
    /// Nothing: it keeps a session alive (RFC 2326, 10.8).
    GetParameter,
    /// To end a session.
    Teardown,
}

impl<'a> Asked<'a> {
    /// Returns the method of the request.
    pub fn method(self) -> Method
        ensures { result ≡ method_of self.entry }
    {
        match self {
            Asked::Options => Method::Options,
            Asked::Describe => Method::Describe,
            Asked::Announce(_) => Method::Announce,
            Asked::Setup(_) => Method::Setup,
            Asked::Record => Method::Record,
            Asked::Play => Method::Play,
            Asked::GetParameter => Method::GetParameter,
            Asked::Teardown => Method::Teardown,
        }
    }

    /// Returns the description that the request sends, if it is an ANNOUNCE.
    pub(crate) fn description(self) -> Option<&'a [u8]>
        ensures { option_copied result ≡ description_of self.entry }
    {
        match self {
            Asked::Announce(description) => Some(description),
            _ => None,
        }
    }

    /// Returns the value of the field Transport, if the request is a SETUP.
    pub(crate) fn transport(self) -> Option<&'a [u8]>
        ensures { option_copied result ≡ transport_of self.entry }
    {
        match self {
            Asked::Setup(transport) => Some(transport),
            _ => None,
        }
    }

    /// Returns the body of the request: the description of an ANNOUNCE. All others have none.
    pub fn body(self) -> &'a [u8]
        ensures { result.now ≡ body_of self.entry }
    {
        match self {
            Asked::Announce(description) => description,
            _ => b"",
        }
    }
}
