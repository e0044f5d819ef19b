//! What decides between the tries of `relay pull`, and what its log lines say of a try. It has no socket, no thread and no clock.
#![tactic(auto)]

mod away;
mod figures;
mod frame_times;
mod limits;
mod name;
mod password_tries;
mod report_times;
mod retry;
mod settings;
mod wanted_tracks;

pub use away::Away;
pub use figures::Figures;
pub use frame_times::FrameTimes;
pub use limits::{LONGEST_RETRY, SHORTEST_RETRY};
pub use name::name_of;
pub use password_tries::PasswordTries;
pub use report_times::ReportTimes;
pub use retry::Retry;
pub use settings::PullSettings;
pub use wanted_tracks::{WantedTracks, read_tracks};
