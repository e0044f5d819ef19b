//! A seat of a mount.
ghost use Rattle.std.specs.Prelude.{◌≡◌, IfOk, map};

use mount_signals::MountSignal;
use std::alloc::{AllocError, Global};
use std::sync::Arc;

/// A pass together with the signal of its mount's packets: a player has both from the book.
#[derive(Drop)]
pub struct Seat<P> {
    pub pass: P,
    pub signal: Arc<MountSignal, Global>,
}

impl<P: Drop> Seat<P> {
    /// Returns a seat for each pass.
    pub fn of(
        alloc: Global,
        passes: Vec<P>,
        signal: &Arc<MountSignal, Global>,
    ) -> Result<Vec<Seat<P>>, AllocError>
        ensures passes { IfOk result (λ seats. map (λ seat. seat.pass) seats.items ≡ passes.items) }
    {
        let mut seats = Vec::with_capacity(alloc, passes.len())?;
        for pass in passes {
            seats.push(Seat {
                pass,
                signal: Arc::try_clone(signal)?,
            })?;
        }
        Ok(seats)
    }
}
