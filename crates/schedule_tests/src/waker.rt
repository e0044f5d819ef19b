//! The waking thread.
use crate::fault::Fault;
use crate::world::{MOUNTS, World};
use waking::{NO_MARKS, are_marks, next_word};

/// Where the waking thread is.
#[derive(Clone, Copy, Drop)]
enum Place {
    Waits,
    /// It asks this mount for marks.
    Asks(usize),
    /// It has read the marks of this mount, and hasn't emptied them: a fault.
    Empties(usize, u64),
    /// It has taken marks of this mount.
    Counts(usize),
    Raises,
    Calls,
}

/// The waking thread.
#[derive(Clone, Copy, Drop)]
pub(crate) struct Waker {
    place: Place,
    /// Whether a mount was marked.
    is_any: bool,
}

impl Waker {
    pub(crate) fn new() -> Waker {
        Waker {
            place: Place::Waits,
            is_any: false,
        }
    }

    /// Makes its next step, if it is at one.
    pub(crate) fn step(&mut self, world: &mut World) -> bool {
        self.place = match self.place {
            Place::Waits if !world.is_notified => return false,
            Place::Waits => {
                world.is_notified = false;
                self.is_any = false;
                Place::Asks(0)
            }
            Place::Asks(mount) => self.ask(world, mount),
            Place::Empties(number, marks) => {
                if let Some(mount) = world.mounts.get_mut(number) {
                    mount.marks = NO_MARKS;
                }
                self.behind(number, marks)
            }
            Place::Counts(number) => {
                if let Some(mount) = world.mounts.get_mut(number) {
                    mount.player_wakeups = next_word(mount.player_wakeups);
                }
                self.is_any = true;
                Place::Asks(number.wrapping_add(1))
            }
            Place::Raises => {
                world.raise();
                Place::Calls
            }
            Place::Calls => {
                world.call();
                Place::Waits
            }
        };
        true
    }

    /// Takes the marks of a mount, or comes to the end.
    fn ask(&self, world: &mut World, number: usize) -> Place {
        if number >= MOUNTS {
            return if self.is_any {
                Place::Raises
            } else {
                Place::Waits
            };
        }
        let Some(mount) = world.mounts.get_mut(number) else {
            return Place::Waits;
        };
        let marks = mount.marks;
        if world.fault == Fault::MarkLost {
            return Place::Empties(number, marks);
        }
        mount.marks = NO_MARKS;
        self.behind(number, marks)
    }

    /// What is next once these marks of a mount were taken.
    fn behind(&self, number: usize, marks: u64) -> Place {
        if are_marks(marks) {
            Place::Counts(number)
        } else {
            Place::Asks(number.wrapping_add(1))
        }
    }
}
