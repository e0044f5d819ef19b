//! What an ANNOUNCE offers.
use crate::mount::maker::Maker;
use crate::mount::seat::Seat;
use mount_signals::{MountSignal, WakeSignal};
use std::alloc::{AllocError, Global};
use std::sync::Arc;

/// What an ANNOUNCE offers: the feed and the signal of its mount, with a seat for each pass.
#[derive(Drop)]
pub struct Offer<M: Maker> {
    pub feed: M::In,
    pub signal: Arc<MountSignal, Global>,
    pub seats: Vec<Seat<M::Pass>>,
}

impl<M: Maker> Offer<M> {
    /// Makes a new one, which takes the memory of a mount.
    pub fn make(
        alloc: Global,
        maker: &M,
        wake_signal: &Arc<WakeSignal, Global>,
    ) -> Result<Offer<M>, AllocError> {
        let (feed, passes) = maker.make(alloc)?;
        let signal = MountSignal::new(alloc, passes.len(), Arc::try_clone(wake_signal)?)?;
        let signal = Arc::new(alloc, signal)?;
        let seats = Seat::of(alloc, passes, &signal)?;
        Ok(Offer {
            feed,
            signal,
            seats,
        })
    }
}
