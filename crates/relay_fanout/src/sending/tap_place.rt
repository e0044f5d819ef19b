//! Where a connection's tap is.
use crate::mount::leave::Leave;
use cursor::Left;
use std::mem;

/// Where a connection's tap is.
#[derive(Drop)]
pub enum TapPlace<T> {
    Nowhere,
    /// Its frames are taken from it.
    Attached(T),
    /// Its mount has ended, and it was left with this account, so that nothing is kept of the mount's packets for a
    /// player that stays.
    Left(Left),
}

impl<T: Leave + Drop> TapPlace<T> {
    /// The tap is left for good, if it is here.
    pub(crate) fn leave(&mut self) {
        let left = match mem::replace(self, TapPlace::Nowhere) {
            TapPlace::Attached(tap) => TapPlace::Left(tap.leave_for_good()),
            other => other,
        };
        *self = left;
    }
}
