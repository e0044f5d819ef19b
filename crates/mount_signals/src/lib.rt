//! What a mount's publisher and its players share beside the ring: the signal that counts packets and wakes players for them, which
//! players keep up, the figures of both, and the thread that wakes players.
#![tactic(auto)]

mod flow;
mod limits;
mod mount;
mod wake;

pub use flow::pace::{KnownLevel, Pace};
pub use flow::round_change::LeftPace;
pub use limits::TAKES;
pub use mount::attached_tap::AttachedTap;
pub use mount::marks::{close_log, publish_into};
pub use mount::mount_signal::{MountSignal, Stand};
pub use mount::player_figures::PlayerFigures;
pub use mount::recording_mounts::RecordingMounts;
pub use mount::wakeups_read::{LevelTold, WakeupsRead};
pub use wake::end_flag::EndFlag;
pub use wake::wake_signal::WakeSignal;
pub use wake::wake_word::low_half;
pub use wake::waking_thread::wake_players;
pub use wake::writers_word::{Awake, WordRead, WritersWord};
