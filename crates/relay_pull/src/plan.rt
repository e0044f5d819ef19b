//! What the tries of a pull are for.
use pull_session::PullOptions;

/// What the tries of a pull are for. The URLs were read once without a fault.
#[derive(Clone, Copy, Drop)]
pub struct Plan<'a> {
    /// The URL of the source.
    pub source: &'a str,
    /// The URL of the target.
    pub target: &'a str,
    pub options: PullOptions,
    /// How many milliseconds are between two reports; `None` for no reports.
    pub report: Option<u64>,
    /// Whether there is one try alone.
    pub once: bool,
}
