//! The offers of ANNOUNCE requests that no mount has used yet, under their lock.
mod state;

use crate::limits::OFFER_WAIT;
use crate::mount::maker::Maker;
use crate::mount::offer::Offer;
pub use state::Busy;
use state::UnusedOffers;
use std::sync::{Condvar, CondvarTimeouts, Mutex, Wait};
use std::time::{Clock, Duration};

/// The unused offers of a server, at most four: one is kept for the next ANNOUNCE, whichever client sends it, and the others
/// are being made or judged. What comes back of a refused offer was never used.
///
/// The lock is held while an offer changes hands; no other is taken meanwhile, and no offer is made or dropped.
pub struct Offers<M: Maker> {
    unused: Mutex<UnusedOffers<Offer<M>>>,
    changed: Condvar,
}

impl<M: Maker> Drop for Offers<M> {
    fn drop(self) {
        let Offers {
            unused: _,
            changed: _,
        } = self;
    }
}

impl<M: Maker> Offers<M> {
    /// None is kept, and none is made.
    pub fn new() -> Offers<M> {
        Offers {
            unused: Mutex::new(UnusedOffers::new()),
            changed: Condvar::new(),
        }
    }

    /// Takes the one that is kept. `None` if none is kept: then the caller may make one. Waits while four are unused and none
    /// of them is kept, for two seconds at most.
    pub fn take<R: Wait + Clock>(&self, rt: &R) -> Result<Option<Offer<M>>, Busy> {
        let most = Duration::from_millis(OFFER_WAIT);
        let (mut unused, _) = self
            .changed
            .wait_timeout_while(rt, self.unused.lock(rt), most, |unused| {
                unused.are_all_taken()
            });
        unused.take()
    }

    /// Takes back an offer that opened no mount. It is kept if none is kept, else dropped after the lock is given back. Only then
    /// another may be made.
    pub fn put(&self, rt: &impl Wait, offer: Offer<M>) {
        let back = self.unused.lock(rt).put(offer);
        match back {
            Some(back) => {
                drop(back);
                self.leave(rt);
            }
            None => self.changed.notify_one(),
        }
    }

    /// Counts one unused offer fewer: a mount uses it now, or it couldn't be made.
    pub fn leave(&self, rt: &impl Wait) {
        self.unused.lock(rt).leave();
        self.changed.notify_one();
    }
}
