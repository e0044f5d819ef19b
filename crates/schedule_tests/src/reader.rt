//! The thread that reads a player's connection.
use crate::world::{World, mount_of, writer_of};
use waking::{Next, PlayerState};

/// Where a reading thread is.
#[derive(Clone, Copy, PartialEq, Eq, Drop)]
enum Place {
    Rests,
    /// A PLAY: the player is put in, has its place in the list, and its writer is woken.
    PutsIn,
    Lists,
    Raises,
    Calls,
    /// A reply: the line is wanted, taken, and given back.
    WantsLine,
    HasLine,
    LooksForMark,
    /// A PAUSE: the player leaves the list, and is taken out.
    LeavesList,
    TakesOut,
}

/// The thread that reads a player's connection.
#[derive(Clone, Copy, Drop)]
pub(crate) struct Reader {
    player: usize,
    place: Place,
    turn: u64,
    /// How many requests come yet.
    requests: u64,
}

impl Reader {
    pub(crate) fn new(player: usize, requests: u64) -> Reader {
        Reader {
            player,
            place: Place::Rests,
            turn: 0,
            requests,
        }
    }

    /// Whether it rests, and a request comes.
    pub(crate) fn may_begin(&self) -> bool {
        self.place == Place::Rests && self.requests > 0
    }

    /// A request comes: the first is a PLAY.
    pub(crate) fn begin(&mut self, world: &World, draw: u64) {
        self.requests = self.requests.saturating_sub(1);
        let plays = match world.links.get(self.player) {
            Some(link) => link.state.is_some(),
            None => false,
        };
        self.place = match (plays, draw % 4) {
            (false, _) => Place::PutsIn,
            (true, 0) => Place::LeavesList,
            (true, _) => Place::WantsLine,
        };
    }

    /// Makes its next step, if it is at one.
    pub(crate) fn step(&mut self, world: &mut World, draw: u64) -> bool {
        let next = match self.place {
            Place::Rests => None,
            Place::PutsIn => self.put_in(world, draw),
            Place::Lists => self.list(world),
            Place::Raises => {
                world.raise();
                Some(Place::Calls)
            }
            Place::Calls => {
                world.call();
                Some(Place::Rests)
            }
            Place::WantsLine | Place::HasLine | Place::LooksForMark => self.reply(world),
            Place::LeavesList => {
                if let Some(list) = world.lists.get_mut(writer_of(self.player)) {
                    list.remove(self.turn);
                }
                Some(Place::TakesOut)
            }
            Place::TakesOut => self.take_out(world),
        };
        match next {
            Some(place) => {
                self.place = place;
                true
            }
            None => false,
        }
    }

    /// Puts the player in, at the end of its mount's log.
    fn put_in(&self, world: &mut World, draw: u64) -> Option<Place> {
        let cursor = world.mounts.get(mount_of(self.player))?.logged;
        let link = world.links.get_mut(self.player)?;
        if link.is_looked_at {
            return None;
        }
        let after_end = match draw % 2 {
            0 => None,
            _ => Some(draw % 50),
        };
        link.state = Some(PlayerState::new(after_end));
        link.number = link.number.wrapping_add(1);
        link.cursor = cursor;
        link.is_awaited = false;
        link.next = Next::Sleep;
        Some(Place::Lists)
    }

    /// Gives it its place in the list.
    fn list(&mut self, world: &mut World) -> Option<Place> {
        let number = world.links.get(self.player)?.number;
        let list = world.lists.get_mut(writer_of(self.player))?;
        self.turn = list.add(self.player, number);
        Some(Place::Raises)
    }

    /// Writes a reply, behind the bytes that wait: while the socket doesn't take them it waits.
    fn reply(&self, world: &mut World) -> Option<Place> {
        let now = world.now;
        let link = world.links.get_mut(self.player)?;
        match self.place {
            Place::WantsLine => {
                if link.is_taken {
                    return None;
                }
                link.is_taken = true;
                Some(Place::HasLine)
            }
            Place::HasLine => {
                link.flush(now);
                if link.waiting > 0 && !link.has_failed {
                    return None;
                }
                link.is_taken = false;
                Some(Place::LooksForMark)
            }
            _ => {
                let is_skipped = link.is_skipped;
                link.is_skipped = false;
                Some(if is_skipped {
                    Place::Raises
                } else {
                    Place::Rests
                })
            }
        }
    }

    /// Takes it out, after at most one look of its writer.
    fn take_out(&self, world: &mut World) -> Option<Place> {
        let link = world.links.get_mut(self.player)?;
        if link.is_looked_at {
            return None;
        }
        link.state = None;
        Some(Place::Rests)
    }
}
