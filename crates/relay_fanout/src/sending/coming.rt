//! How a player comes to its writer: it is put in, it gets its place in the list, and the word is raised. The law of `waking` is
//! about this order, so each call returns what the next one takes.
ghost use Rattle.std.specs.Prelude.{◌≡◌, IsErr};

use crate::sending::player_list::PlayerList;
use crate::sending::send_side::SeatTap;
use crate::sending::writer_player::WriterPlayer;
use crate::sending::writers::NoWriter;
use mount_signals::WritersWord;
use std::sync::{Mutex, Wait};

/// A player's place with a writer.
#[derive(Clone, Copy, Debug, PartialEq, Eq, Drop)]
pub(crate) struct Place {
    pub(super) writer: usize,
    /// How often the writer's list had changed before the player came, which no other player of the list has.
    pub(super) turn: u64,
}

/// A connection's player of this number was put in, and no writer has it yet. It has no `Drop`, so that it ends in `place` or
/// `refuse`.
pub(crate) struct PutIn {
    number: u64,
}

/// The player has its place, and its writer wasn't woken since: the step `joins` of the machine of `waking`. It has no `Drop`, so
/// that it ends in `raise`.
pub(super) struct Placed {
    place: Place,
}

impl PutIn {
    /// Puts a connection's player of this number in, unless it has no tap to take from.
    pub(super) fn new<T: Drop>(
        rt: &impl Wait,
        seat: &Mutex<SeatTap<T>>,
        number: u64,
        player: Option<WriterPlayer>,
    ) -> PutIn {
        if let Some(player) = player {
            seat.lock(rt).player = Some(player);
        }
        PutIn { number }
    }

    /// Returns which of its connection's players it is.
    pub(super) fn number(&self) -> u64
        ensures { result ≡ self.now.number }
    {
        self.number
    }

    /// Gives it a place in this writer's list, where the writer finds it put in.
    pub(super) fn place<P: Drop>(
        self,
        rt: &impl Wait,
        writer: usize,
        list: &Mutex<PlayerList<P>>,
        player: P,
    ) -> Result<Placed, NoWriter> {
        let PutIn { number: _ } = self;
        let Ok(turn) = list.lock(rt).add(player) else {
            return Err(NoWriter);
        };
        Ok(Placed {
            place: Place { writer, turn },
        })
    }

    /// No writer takes it, for this reason.
    pub(super) fn refuse<P>(self, why: NoWriter) -> Result<P, NoWriter>
        ensures { IsErr result }
    {
        let PutIn { number: _ } = self;
        Err(why)
    }
}

impl Placed {
    /// Wakes its writer, which finds it in the list: the step `raises_for_it`.
    pub(super) fn raise(self, writers: &WritersWord) -> Place
        ensures { result ≡ self.place }
    {
        let Placed { place } = self;
        writers.raise();
        place
    }
}
