//! A writer.
use crate::fault::{Fault, Finding};
use crate::world::{Entry, World, mount_of};
use waking::{Answer, Course, Failure, Flushed, Found, Next, Sweep};

/// After how many milliseconds without a byte taken a player is given up.
pub(crate) const STALL: u64 = 200;

/// For how many milliseconds the packets of a mount that has ended are kept.
const END: u64 = 90;

/// A look at a player.
#[derive(Clone, Copy, Drop)]
struct Look {
    entry: Entry,
    player_wakeups: u64,
}

/// Where a writer is.
#[derive(Clone, Copy, Drop)]
enum Place {
    Awake,
    Begins,
    /// It comes to the player in this place of its list.
    Between(usize),
    Tries(Look),
    Marks(Look),
    TriesAgain(Look),
    Flushes(Look),
    Takes(Look, Course, bool),
    Finishes(Look, Found),
    Ends,
    FallsAsleep,
    Asleep(Option<u64>),
}

/// A writer.
#[derive(Clone, Copy, Drop)]
pub(crate) struct Writer {
    number: usize,
    place: Place,
    /// How often the word had been raised when it last read it.
    word: u64,
    sweep: Sweep,
    /// The place in its list of the player that it looks at.
    at: usize,
}

impl Writer {
    pub(crate) fn new(number: usize) -> Writer {
        Writer {
            number,
            place: Place::Awake,
            word: 0,
            sweep: Sweep::new(0),
            at: 0,
        }
    }

    /// When its sleep ends by itself, if it sleeps and its sleep does.
    pub(crate) fn until(&self) -> Option<u64> {
        match self.place {
            Place::Asleep(until) => until,
            _ => None,
        }
    }

    /// Makes its next step, unless it sleeps.
    pub(crate) fn step(&mut self, world: &mut World) -> bool {
        let next = match self.place {
            Place::Awake => {
                self.word = world.writer_wakeups;
                Some(Place::Begins)
            }
            Place::Begins => self.begin(world),
            Place::Between(at) => {
                self.at = at;
                self.meet(world)
            }
            Place::Tries(look) => self.take_line(world, look, Place::Marks(look)),
            Place::Marks(look) => {
                world
                    .links
                    .get_mut(look.entry.player)
                    .map(|link| link.is_skipped = true);
                Some(Place::TriesAgain(look))
            }
            Place::TriesAgain(look) => self.try_again(world, look),
            Place::Flushes(look) => self.flush(world, look),
            Place::Takes(look, course, moved) => self.take(world, look, course, moved),
            Place::Finishes(look, found) => self.finish(world, look, found),
            Place::Ends => self.end(world),
            Place::FallsAsleep => self.fall_asleep(world),
            Place::Asleep(until) => self.wake(world, until),
        };
        match next {
            Some(place) => {
                self.place = place;
                true
            }
            None => false,
        }
    }

    /// Begins a sweep.
    fn begin(&mut self, world: &World) -> Option<Place> {
        self.sweep = Sweep::new(world.lists.get(self.number)?.changes);
        Some(Place::Between(0))
    }

    /// Comes to a player: reads how often its mount's players were woken, passes over it if it is quiet, and asks whether there is
    /// anything to do.
    fn meet(&mut self, world: &mut World) -> Option<Place> {
        let Some(entry) = world.lists.get(self.number)?.entries.get(self.at) else {
            return Some(Place::Ends);
        };
        let entry = *entry;
        let player_wakeups = world.mounts.get(mount_of(entry.player))?.player_wakeups;
        let is_quiet = match (world.fault, entry.quiet) {
            (Fault::WakeupPassedOver, quiet) => quiet.is_some(),
            (_, quiet) => quiet == Some(player_wakeups),
        };
        if is_quiet {
            return Some(Place::Between(self.at.wrapping_add(1)));
        }
        let now = world.now;
        let link = world.links.get_mut(entry.player)?;
        let look = Look {
            entry,
            player_wakeups,
        };
        let next = match &link.state {
            Some(state) if link.number == entry.number => state.before(player_wakeups, now, true),
            _ => Some(Next::Sleep),
        };
        match next {
            Some(next) => self.go_on(world, look, next),
            None => {
                link.is_looked_at = true;
                Some(Place::Tries(look))
            }
        }
    }

    /// Takes the line, or goes on so.
    fn take_line(&self, world: &mut World, look: Look, other: Place) -> Option<Place> {
        let link = world.links.get_mut(look.entry.player)?;
        if link.is_taken {
            return Some(other);
        }
        link.is_taken = true;
        Some(Place::Flushes(look))
    }

    /// Tries the line once more, after it was marked.
    fn try_again(&mut self, world: &mut World, look: Look) -> Option<Place> {
        let link = world.links.get_mut(look.entry.player)?;
        if !link.is_taken {
            link.is_taken = true;
            return Some(Place::Flushes(look));
        }
        let next = match &mut link.state {
            Some(state) => state.skipped(),
            None => Next::Sleep,
        };
        self.go_on(world, look, next)
    }

    /// Tries the bytes that wait.
    fn flush(&self, world: &mut World, look: Look) -> Option<Place> {
        let has_ended = world.mounts.get(mount_of(look.entry.player))?.has_ended;
        let now = world.now;
        let link = world.links.get_mut(look.entry.player)?;
        let moved = link.flush(now);
        let flushed = match (link.has_failed, link.waiting) {
            (true, _) => Flushed::Failed,
            (false, 0) => Flushed::All,
            (false, _) => Flushed::Rest,
        };
        let course = link.state.as_mut()?.flushed(flushed, has_ended, now, END);
        if course == Course::ComeBack {
            link.is_awaited = false;
        }
        Some(Place::Takes(look, course, moved))
    }

    /// Takes from the log, and tries what was taken.
    fn take(&self, world: &mut World, look: Look, course: Course, moved: bool) -> Option<Place> {
        let mount = world.mounts.get(mount_of(look.entry.player))?;
        let now = world.now;
        let link = world.links.get_mut(look.entry.player)?;
        let answer = match course {
            Course::Pass(answer) => answer,
            Course::Take | Course::ComeBack => {
                let taken = link.take(mount.logged);
                let answer = match (taken, mount.has_ended) {
                    (2, _) => Answer::More,
                    (_, true) => Answer::Ended,
                    (_, false) => Answer::Empty,
                };
                link.since = now;
                link.flush(now);
                if link.has_failed {
                    Answer::Failed(Failure::WriteFailed)
                } else {
                    answer
                }
            }
        };
        let found = Found {
            answer,
            is_left: link.waiting > 0,
            moved: moved && world.fault != Fault::WrongMoment,
            is_awaited: link.is_awaited,
            player_wakeups: look.player_wakeups,
        };
        if answer == Answer::Empty {
            link.is_awaited = true;
        }
        Some(Place::Finishes(look, found))
    }

    /// Ends the look: what is next is decided and carried out, and the line given back.
    fn finish(&mut self, world: &mut World, look: Look, found: Found) -> Option<Place> {
        let now = world.now;
        let player = look.entry.player;
        let link = world.links.get_mut(player)?;
        let since = link.since;
        let after = link.state.as_mut()?.looked(found, now, true, Some(STALL));
        link.is_taken = false;
        if after.hangs_up {
            link.has_failed = true;
        }
        if after.notes_stall && now.saturating_sub(since) < STALL {
            world.find(Finding::GivenUpEarly(player));
        }
        self.go_on(world, look, after.next)
    }

    /// Goes on behind a look, after which this is next.
    fn go_on(&mut self, world: &mut World, look: Look, next: Next) -> Option<Place> {
        self.sweep.add(next);
        let link = world.links.get_mut(look.entry.player)?;
        link.is_looked_at = false;
        link.next = next;
        let quiet = match &link.state {
            Some(state) if link.number == look.entry.number => state.quiet(),
            _ => None,
        };
        let is_quiet = match quiet {
            Some(quiet) => quiet.lasts(look.player_wakeups),
            None => false,
        };
        let list = world.lists.get_mut(self.number)?;
        if next != Next::Over {
            let quiet = is_quiet.then_some(look.player_wakeups);
            list.note(self.at, look.entry.turn, quiet);
            return Some(Place::Between(self.at.wrapping_add(1)));
        }
        list.remove(look.entry.turn);
        Some(Place::Between(self.at))
    }

    /// Ends the sweep.
    fn end(&mut self, world: &World) -> Option<Place> {
        let changes = if world.fault == Fault::ChangePassedOver {
            self.sweep.changes
        } else {
            world.lists.get(self.number)?.changes
        };
        if world.fault == Fault::WordReadLate {
            self.word = world.writer_wakeups;
        }
        Some(if self.sweep.is_over(changes) {
            Place::FallsAsleep
        } else {
            Place::Awake
        })
    }

    /// Sleeps, if the word is the one that was read.
    fn fall_asleep(&self, world: &mut World) -> Option<Place> {
        if world.writer_wakeups != self.word {
            return Some(Place::Awake);
        }
        *world.is_woken.get_mut(self.number)? = false;
        let now = world.now;
        let until = self.sweep.later.map(|time| now.saturating_add(time));
        Some(Place::Asleep(until))
    }

    /// Returns from the sleep, if it was woken or the time is over.
    fn wake(&self, world: &World, until: Option<u64>) -> Option<Place> {
        let is_woken = *world.is_woken.get(self.number)?;
        let is_over = until.is_some_and(|until| until <= world.now);
        (is_woken || is_over).then_some(Place::Awake)
    }
}
