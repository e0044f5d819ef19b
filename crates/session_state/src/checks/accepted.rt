//! What the checks of a request find out.

use base_syntax::Items;
use mounts::Target;
use sdp::Description;
use transport_header::Spec;

/// A request that passes all its checks, by its method, with what the checks found out for its answer.
#[derive(Drop)]
pub(crate) enum Accepted {
    Options,
    GetParameter,
    /// What its URI says, and the number of the mount that this names.
    Describe {
        target: Target,
        mount: u64,
    },
    /// What its URI says, and its body.
    Announce {
        target: Target,
        description: Description,
    },
    /// The number of the mount, the track that is set up, and the specs of the Transport field.
    Setup {
        mount: u64,
        track: usize,
        specs: Items<Spec>,
    },
    /// What its URI says, and the track that this names, if it names one.
    Play {
        target: Target,
        track: Option<usize>,
    },
    Record,
    Pause,
    Teardown,
}
