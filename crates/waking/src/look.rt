//! What a writer's look at a player finds, and what it leads to.
use crate::ending::Answer;
use crate::sweep::Next;

/// What became of the bytes that waited from an earlier look, once the writer had the line and tried them.
#[derive(Clone, Copy, Debug, PartialEq, Eq, Drop)]
pub enum Flushed {
    /// The socket failed.
    Failed,
    /// The socket has taken all, or none waited.
    All,
    /// Bytes wait yet.
    Rest,
}

/// What a writer does with a player once it has tried the bytes that waited.
#[derive(Clone, Copy, Debug, PartialEq, Eq, Drop)]
pub enum Course {
    /// It takes from the ring.
    Take,
    /// The player comes back into its mount's pace; then the writer takes from the ring.
    ComeBack,
    /// It takes nothing, and goes on as after this answer of the ring.
    Pass(Answer),
}

/// What a look has found once frames were taken, or none were to be.
#[derive(Clone, Copy, Debug, PartialEq, Eq, Drop)]
pub struct Found {
    pub answer: Answer,
    /// Whether bytes wait that the socket didn't take.
    pub is_left: bool,
    /// Whether the socket took some of the bytes that waited from an earlier look.
    pub moved: bool,
    /// Whether a publisher may wait for the player: it had taken all since it came, or came back, into its mount's pace.
    pub is_awaited: bool,
    /// How often the mount's players had been woken before the look.
    pub player_wakeups: u64,
}

/// What is next after a look, and what is to be carried out.
#[derive(Clone, Copy, Debug, PartialEq, Eq, Drop)]
pub struct After {
    pub next: Next,
    /// The peer is sent the end of its stream, while the writer has the line.
    pub closes_writes: bool,
    /// No publisher waits for the player any more.
    pub leaves_pace: bool,
    /// Its tap is left, so that the mount's packets are dropped.
    pub leaves_tap: bool,
    /// The player is given up.
    pub notes_stall: bool,
    /// The connection is disconnected, so that the thread that reads sees it.
    pub hangs_up: bool,
}
