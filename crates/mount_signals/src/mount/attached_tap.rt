//! A tap whose seat's figures begin anew: what a send side takes a tap in as.
ghost use Rattle.std.specs.Prelude.{◌≡◌};

use crate::flow::pace::Pace;
use crate::mount::tallies::Tallies;
use cursor::Tap;
use std::marker::Model;

/// A tap of a seat whose figures were set anew for it. It has no `Drop`, so that it ends in `SendSide::put`.
///
/// Its model is the tap.
pub struct AttachedTap<T> {
    tap: T,
}

impl<T> Model for AttachedTap<T> {
    ghost Value = { T };

    ghost view = { λ attached. attached.tap };
}

impl<T: Tap> AttachedTap<T> {
    /// Sets the figures of the seat anew: the player is at the tap's cursor, and was sent and has lost nothing.
    pub(super) fn begin(pace: &Pace, tallies: &Tallies, seat: usize, tap: T) -> AttachedTap<T>
        ensures { result ≡ tap }
    {
        let start = tap.cursor();
        pace.stand(seat, start);
        tallies.begin_player(seat, start);
        AttachedTap { tap }
    }

    /// Returns the tap, for a send side.
    pub fn into_tap(self) -> T
        ensures { result ≡ self }
    {
        let AttachedTap { tap } = self;
        tap
    }
}
