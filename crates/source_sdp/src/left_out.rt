//! A media section that is left out.

use crate::reason::Reason;

/// A media section that is left out.
#[derive(Clone, Copy, Debug, PartialEq, Eq, Drop)]
pub struct LeftOut {
    /// Its place among the media sections of the description, counted from 0.
    pub place: usize,
    pub reason: Reason,
}
