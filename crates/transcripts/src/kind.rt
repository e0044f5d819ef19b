//! The kinds of cases.

use case_texts::Kind;

/// What a case is about.
#[derive(Clone, Copy, Debug, PartialEq, Eq, Drop)]
pub enum Topic {
    Book,
    Stream,
    ServerStream,
    Client,
    Reply,
    Sdp,
    SourceSdp,
    Header,
    Mounts,
    Networks,
    Log,
    Ring,
    Steps,
}

/// All kinds, in the order in which they are told.
pub const KINDS: [Topic; 13] = [
    Topic::Book,
    Topic::Stream,
    Topic::ServerStream,
    Topic::Client,
    Topic::Reply,
    Topic::Sdp,
    Topic::SourceSdp,
    Topic::Header,
    Topic::Mounts,
    Topic::Networks,
    Topic::Log,
    Topic::Ring,
    Topic::Steps,
];

impl Kind for Topic {
    fn name(self) -> &'static str {
        match self {
            Topic::Book => "book",
            Topic::Stream => "stream",
            Topic::ServerStream => "server-stream",
            Topic::Client => "client",
            Topic::Reply => "reply",
            Topic::Sdp => "sdp",
            Topic::SourceSdp => "source-sdp",
            Topic::Header => "header",
            Topic::Mounts => "mounts",
            Topic::Networks => "networks",
            Topic::Log => "log",
            Topic::Ring => "ring",
            Topic::Steps => "steps",
        }
    }

    fn line_end(self) -> &'static [u8] {
        match self {
            Topic::Steps => b"\n",
            _ => b"\r\n",
        }
    }

    fn has_connections(self) -> bool {
        self == Topic::Book
    }

    /// A request that nothing else is told of is replied to without an act.
    fn fact_of_input(self) -> Option<&'static [u8]> {
        match self {
            Topic::Book => Some(b"none"),
            _ => None,
        }
    }
}
