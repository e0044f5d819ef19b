//! A publisher.
use crate::world::World;
use waking::{NO_MARKS, next_word};

/// Where a publisher is.
#[derive(Clone, Copy, PartialEq, Eq, Drop)]
enum Place {
    /// It has so many packets to publish before its mount ends.
    Rests,
    Publishes,
    Marks,
    Notifies,
    Empties,
    Counts,
    Raises,
    Calls,
    Over,
}

/// A publisher: its packets, and then the end of its mount.
#[derive(Clone, Copy, Drop)]
pub(crate) struct Publisher {
    mount: usize,
    place: Place,
    /// How many packets it publishes yet.
    packets: u64,
}

impl Publisher {
    pub(crate) fn new(mount: usize, packets: u64) -> Publisher {
        Publisher {
            mount,
            place: Place::Rests,
            packets,
        }
    }

    /// Whether it rests, and has something to publish.
    pub(crate) fn may_begin(&self) -> bool {
        self.place == Place::Rests
    }

    /// It goes on, and publishes a packet or the end.
    pub(crate) fn begin(&mut self) {
        self.place = Place::Publishes;
    }

    /// Makes its next step, if it is at one. `draw` is whether it wakes the players itself, as where one is far behind.
    pub(crate) fn step(&mut self, world: &mut World, draw: u64) -> bool {
        let Some(mount) = world.mounts.get_mut(self.mount) else {
            return false;
        };
        self.place = match self.place {
            Place::Rests | Place::Over => return false,
            Place::Publishes if self.packets == 0 => {
                mount.has_ended = true;
                Place::Empties
            }
            Place::Publishes => {
                self.packets = self.packets.saturating_sub(1);
                mount.logged = mount.logged.saturating_add(1);
                if draw % 8 == 0 {
                    Place::Empties
                } else {
                    Place::Marks
                }
            }
            Place::Marks => {
                mount.marks = next_word(mount.marks);
                Place::Notifies
            }
            Place::Notifies => {
                world.is_notified = true;
                Place::Rests
            }
            Place::Empties => {
                mount.marks = NO_MARKS;
                Place::Counts
            }
            Place::Counts => {
                mount.player_wakeups = next_word(mount.player_wakeups);
                Place::Raises
            }
            Place::Raises => {
                world.raise();
                Place::Calls
            }
            Place::Calls => {
                let has_ended = mount.has_ended;
                world.call();
                if has_ended { Place::Over } else { Place::Rests }
            }
        };
        true
    }
}
