//! What a request begins or ends for others, before its reply is written.
use crate::serving::Connection;
use admission::Gate;
use interleaved::Sink;
use relay_accounts::ConnectionEnd;
use relay_fanout::Maker;
use session_state::{Act, Moments, Words};
use sockets::HangUp;
use std::sync::Wait;
use std::thread::Threads;
use std::time::Clock;

/// What a request begins or ends for others is done. Nothing else makes it, so that the reply, which takes it, comes after that: the
/// frames of a player have stopped before the reply to its PAUSE.
#[derive(Drop)]
pub(crate) struct ActDone(());

impl<R, M, V, G, W, H, N> Connection<R, M, V, G, W, H, N>
where
    R: Threads + Wait + Clock + Copy + Send + 'static,
    M: Maker + Drop,
    M::Out: 'static,
    V: Words + Drop,
    G: Gate + Drop,
    W: Sink + Drop + Send + 'static,
    H: HangUp + Drop + Send + Sync + 'static,
    N: Moments + Drop,
{
    /// Does it: a mount is recorded or ends, or the frames of a player stop.
    pub(crate) fn act(&mut self, act: Act) -> Result<ActDone, ConnectionEnd> {
        match act {
            Act::Record => self.record(),
            Act::Stop { .. } => self.stop_playing()?,
            Act::End => self.end_mount(),
            Act::None | Act::Open | Act::Play { .. } => {}
        }
        Ok(ActDone(()))
    }
}
