//! The kinds of cases.

use case_texts::Kind;

/// What a case is about.
#[derive(Clone, Copy, Debug, PartialEq, Eq, Drop)]
pub enum Topic {
    Url,
    Auth,
    Request,
    Pull,
}

/// All kinds, in the order in which they are counted.
pub const TOPICS: [Topic; 4] = [Topic::Url, Topic::Auth, Topic::Request, Topic::Pull];

impl Kind for Topic {
    fn name(self) -> &'static str {
        match self {
            Topic::Url => "url",
            Topic::Auth => "auth",
            Topic::Request => "request",
            Topic::Pull => "pull",
        }
    }

    fn line_end(self) -> &'static [u8] {
        b"\r\n"
    }

    /// What goes in comes from the source (1) or from the target (2).
    fn has_connections(self) -> bool {
        self == Topic::Pull
    }

    fn fact_of_input(self) -> Option<&'static [u8]> {
        None
    }
}
