//! How a publisher gives way to its players, within bounds: which of them it waits for, and for how long, and a publish that
//! meets one in the middle of its copy; how fast a connection is read that doesn't record; and where a player starts that is sent
//! what was published before it came. Moments, counts and pauses are handed in.
#![tactic(auto)]

mod allowance;
mod patience;
mod read_rate;
mod recent;
mod retrying;
mod round;
mod standing;

pub use allowance::Allowance;
pub use patience::Patience;
pub use read_rate::ReadRate;
pub use recent::{Back, Mark, Recent, Start};
pub use retrying::{Pause, Retrying};
pub use round::Round;
pub use standing::Standing;
