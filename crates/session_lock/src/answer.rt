//! What a request is answered.

ghost use Rattle.std.specs.Prelude.{◌≡◌};

use rtsp_message::Reply;
use session_state::Act;

/// What a request is answered.
#[derive(Drop)]
pub struct Answer<P> {
    pub reply: Reply,
    /// What the connection has to do, beside writing the reply.
    pub act: Act,
    /// The pass of the seat that the connection attaches to; it comes with `Act::Play`.
    pub pass: Option<P>,
    /// The passes that were offered, unless they were used.
    pub back: Option<Vec<P>>,
}

/// There was no memory.
#[derive(Drop)]
pub struct NoMemory<P> {
    /// The passes that were offered.
    pub back: Option<Vec<P>>,
}

/// Why a request isn't answered. Each hands back the passes that were offered.
#[derive(Drop)]
pub enum AskFault<P> {
    /// The connection isn't open.
    NotOpen { back: Option<Vec<P>> },
    /// The offer isn't one pass for each seat with ANNOUNCE, and none with another method.
    BadOffer { back: Option<Vec<P>> },
    /// There was no memory.
    NoMemory { back: Option<Vec<P>> },
}

impl<P> AskFault<P> {
    ghost use Rattle.session_lock.specs.Asks.{fault_number};

    /// 1 to 3, in the order in which they are tested.
    pub fn number(&self) -> u8
        ensures { result ≡ fault_number self.now }
    {
        match self {
            AskFault::NotOpen { .. } => 1,
            AskFault::BadOffer { .. } => 2,
            AskFault::NoMemory { .. } => 3,
        }
    }
}
