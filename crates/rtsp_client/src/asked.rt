//! What a client asks for.
ghost use Rattle.std.specs.Prelude.{◌≡◌};
ghost use Rattle.rtsp_client.specs.Table.{lateness, side_of};

/// The server that a request goes to.
#[derive(Clone, Copy, Debug, PartialEq, Eq, Drop)]
pub enum Side {
    /// It has the stream: a camera.
    Source,
    /// It is given the stream: a relay.
    Target,
}

/// What a request is for.
#[derive(Clone, Copy, Debug, PartialEq, Eq, Drop)]
pub enum Asked {
    /// The methods that the source has (RFC 2326, 10.1).
    Options,
    /// Its description (10.2).
    Describe,
    /// A track of it (10.4).
    SetUp,
    /// That the target has a mount of this description (10.3).
    Announce,
    /// A track of that mount (10.4).
    SetUpTarget,
    /// That the target takes the frames (10.11).
    Record,
    /// That the source sends them (10.5).
    Play,
    /// That a session goes on (A.1; 12.37).
    KeepAlive(Side),
    /// That a session ends (10.7).
    TearDown(Side),
}

/// What it means that there is no reply to a request within ten seconds.
#[derive(Clone, Copy, Debug, PartialEq, Eq, Drop)]
pub enum Late {
    /// It ends the client.
    Ends,
    /// Sessions are kept alive by OPTIONS from now on.
    UsesOptions,
    /// The connection ends without it.
    Over,
}

impl Asked {
    /// Returns the server that it goes to.
    pub fn side(self) -> Side
        ensures { result ≡ side_of self }
    {
        match self {
            Asked::Options | Asked::Describe | Asked::SetUp | Asked::Play => Side::Source,
            Asked::Announce | Asked::SetUpTarget | Asked::Record => Side::Target,
            Asked::KeepAlive(side) | Asked::TearDown(side) => side,
        }
    }

    /// Returns what it means that there is no reply.
    pub fn late(self) -> Late
        ensures { result ≡ lateness self }
    {
        match self {
            Asked::KeepAlive(_) => Late::UsesOptions,
            Asked::TearDown(_) => Late::Over,
            _ => Late::Ends,
        }
    }
}
