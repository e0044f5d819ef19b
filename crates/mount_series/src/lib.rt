//! What became of the packets of a server's mounts, summed by the name of the mount, for metrics whose rate is taken: a sum of a name
//! doesn't fall while the name is among those that are kept.
#![tactic(auto)]

mod named_sums;
mod series;
mod sums;

pub use named_sums::NamedSums;
pub use series::{MOST_NAMES, MountSeries, NoPlace};
pub use sums::MountSums;
