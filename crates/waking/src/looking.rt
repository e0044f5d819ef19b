//! What a writer decides of a player once it has its line.
ghost use Rattle.std.specs.Prelude.{◌≡◌, ◌↔◌, ◌||◌, ◌&&◌, not, true, false, None, is_some, if◌then◌else◌};
ghost use Rattle.waking.specs.Machine.{holds};
ghost use Rattle.waking.specs.declared.ending.Answer.TheVariants.{More, Empty, Ended};
ghost use Rattle.waking.specs.declared.look.Course.TheVariants.{Take, ComeBack, Pass};
ghost use Rattle.waking.specs.declared.sweep.Next.TheVariants.{Sleep, Over};
ghost use Rattle.waking.specs.Attentions.{emptied, held};
ghost use Rattle.waking.specs.Endings.{first_seen, has_failed as has_failed_by, is_late as is_late_by, is_with_mount as is_with_mount_by};
ghost use Rattle.waking.specs.Looks.{are_left as are_left_by, attention_looked, closes as closes_by, course_of, ending_looked, is_given_up as is_given_up_by, is_in_vain as is_in_vain_by, is_over as is_over_by, is_spent as is_spent_by, leaves_tap as leaves_tap_by, next_after, next_ended as next_ended_by, patience_looked, player_flushed, rests, tried};
ghost use Rattle.waking.specs.PlayerStates.{waits};
ghost use Rattle.waking.specs.Steps.{IsStep, MayMake, step_after};

use crate::attention::Attention;
use crate::ending::{Answer, Ending, Failure, has_failed, is_with_mount};
use crate::look::{After, Course, Flushed, Found};
use crate::player_state::PlayerState;
use crate::sweep::Next;
use pacing::Patience;

impl PlayerState {
    /// The writer has the line, and has tried the bytes that waited. Frames of a mount that ended `most_end` ago aren't kept longer
    /// for a player whose socket takes them so slowly.
    pub fn flushed(&mut self, found: Flushed, has_ended: bool, now: u64, most_end: u64) -> Course
        ensures course { result ≡ course_of found self.old (is_late_by self.new.ended_at now most_end) }
        ensures holds { self.new.attention ≡ held self.old.attention }
        ensures late { result ≡ Pass Ended ↔ ((rests found self.old.ending ≡ true) × (is_late_by (first_seen self.old.ended_at has_ended now) now most_end ≡ true)) }
        ensures state { self.new ≡ player_flushed found has_ended now self.old }
    {
        self.attention.hold();
        let ended = self.ending.is_some();
        match found {
            Flushed::Failed => Course::Pass(Answer::Failed(Failure::WriteFailed)),
            Flushed::All if !ended => self.take_on(),
            Flushed::Rest if !ended => self.wait_for_end(has_ended, now, most_end),
            Flushed::All | Flushed::Rest => Course::Pass(Answer::More),
        }
    }

    /// What is next after a look that had the line.
    pub fn looked(&mut self, found: Found, now: u64, is_read: bool, stall: Option<u64>) -> After
        ensures attention { self.new.attention ≡ attention_looked found.answer (not found.is_left && not (is_some self.new.ending)) found.player_wakeups self.old.attention }
        ensures patience { self.new.patience ≡ patience_looked self.old found now result.notes_stall }
        ensures ending { self.new.ending ≡ ending_looked self.old found now result.notes_stall }
        ensures paced { self.new.is_paced ≡ self.old.is_paced && not (is_in_vain_by self.old found now || is_some self.new.ending) }
        ensures kept { (self.new.ended_at ≡ self.old.ended_at) × (self.new.after_end ≡ self.old.after_end) }
        ensures next { result.next ≡ next_after self.new now }
        ensures closes { result.closes_writes ≡ closes_by self.old found }
        ensures leaves_pace { result.leaves_pace ≡ self.old.is_paced && not self.new.is_paced }
        ensures leaves_tap { result.leaves_tap ≡ leaves_tap_by self.old found }
        ensures given_up { result.notes_stall ≡ is_given_up_by self.old found now is_read stall }
        ensures hangs_up { result.hangs_up ≡ is_over_by result.next && not (has_failed_by self.old.ending || is_with_mount_by self.new.ending) }
        ensures sleep { result.next ≡ Sleep → (found.answer ≡ Empty) × (found.is_left ≡ false) × (self.new.attention ≡ emptied found.player_wakeups) × (waits self.new ≡ false) }
        ensures step { IsStep (step_after found.answer result.next) found.player_wakeups self.old self.new result.next }
        ensures may { MayMake holds (step_after found.answer result.next) found.player_wakeups self.old }
        ensures over { has_failed_by self.new.ending ≡ true → result.next ≡ Over }
    {
        let old = *self;
        let is_given_up = old.is_given_up(found, now, is_read, stall);
        let ending = old.ending_after(found, is_given_up, now);
        let is_paced = old.is_paced && !(old.is_in_vain(found, now) || ending.is_some());
        *self = PlayerState {
            attention: found.attention(old.attention, ending.is_some()),
            patience: old.patience_after(found, is_given_up, now),
            is_paced,
            ending,
            ..old
        };
        let next = self.next(now);
        After {
            next,
            closes_writes: old.closes(found),
            leaves_pace: old.is_paced && !is_paced,
            leaves_tap: old.leaves_tap(found),
            notes_stall: is_given_up,
            hangs_up: next.is_over() && !(has_failed(old.ending) || is_with_mount(ending)),
        }
    }

    /// Its socket has taken all that waited: it takes packets again, and a publisher may wait for it once it has taken all.
    fn take_on(&mut self) -> Course
        ensures course { result ≡ if self.old.is_paced then Take else ComeBack }
        ensures state { self.new ≡ record self.old { patience = None; is_paced = true } }
    {
        self.patience = None;
        if self.is_paced {
            return Course::Take;
        }
        self.is_paced = true;
        Course::ComeBack
    }

    /// Its socket hasn't taken all. Returns the end of its frames, if its mount was seen to have ended this many milliseconds ago.
    fn wait_for_end(&mut self, has_ended: bool, now: u64, most: u64) -> Course
        ensures state { self.new ≡ record self.old { ended_at = first_seen self.old.ended_at has_ended now } }
        ensures course { result ≡ if is_late_by self.new.ended_at now most then Pass Ended else Pass More }
    {
        if self.ended_at.is_none() && has_ended {
            self.ended_at = Some(now);
        }
        match self.ended_at {
            Some(moment) if now.saturating_sub(moment) >= most => Course::Pass(Answer::Ended),
            _ => Course::Pass(Answer::More),
        }
    }

    /// Whether bytes wait after this look, and may be written yet.
    fn are_left(&self, found: Found) -> bool
        ensures { result ≡ are_left_by self.now found }
    {
        found.is_left && !has_failed(found.answer.ending(self.ending))
    }

    /// Whether its socket has taken no byte for so long that the player is given up.
    fn is_given_up(&self, found: Found, now: u64, is_read: bool, stall: Option<u64>) -> bool
        ensures { result ≡ is_given_up_by self.now found now is_read stall }
    {
        self.are_left(found) && !found.moved && is_read && self.is_spent(now, stall)
    }

    /// Whether its socket has taken no byte for as long as a stall may last.
    fn is_spent(&self, now: u64, stall: Option<u64>) -> bool
        ensures { result ≡ is_spent_by self.now.patience now stall }
    {
        match (self.patience, stall) {
            (Some(patience), Some(most)) => patience.is_spent(now, most),
            _ => false,
        }
    }

    /// Whether its socket was tried in vain, and no publisher waits for that: one that kept up stays in its mount's pace for 20
    /// milliseconds after its socket took a byte, since its network may only be slow to acknowledge.
    fn is_in_vain(&self, found: Found, now: u64) -> bool
        ensures { result ≡ is_in_vain_by self.now found now }
    {
        match self.patience {
            Some(patience) => {
                found.is_left && !found.moved && !(found.is_awaited && patience.is_recent(now))
            }
            None => false,
        }
    }

    /// Whether the peer is sent the end of its stream: all was sent, and it is to be disconnected after that.
    fn closes(&self, found: Found) -> bool
        ensures { result ≡ closes_by self.now found }
    {
        !found.is_left
            && is_with_mount(found.answer.ending(self.ending))
            && self.after_end.is_some()
    }

    /// Whether its tap is left: its frames have just ended with its mount.
    fn leaves_tap(&self, found: Found) -> bool
        ensures { result ≡ leaves_tap_by self.now found }
    {
        self.ending.is_none() && is_with_mount(found.answer.ending(self.ending))
    }

    /// How its frames have ended after a look.
    fn ending_after(&self, found: Found, is_given_up: bool, now: u64) -> Option<Ending>
        ensures { result ≡ ending_looked self.now found now is_given_up }
    {
        if is_given_up {
            return Some(Ending::Failed(Failure::WriteFailed));
        }
        if self.closes(found) {
            let moment = now.saturating_add(self.after_end.unwrap_or(0));
            return Some(Ending::Closing(moment));
        }
        found.answer.ending(self.ending)
    }

    /// The patience with its peer after a look.
    fn patience_after(&self, found: Found, is_given_up: bool, now: u64) -> Option<Patience>
        ensures { result ≡ patience_looked self.now found now is_given_up }
    {
        if self.are_left(found) && !is_given_up {
            Some(found.patience(self.patience, now))
        } else {
            None
        }
    }

    /// What is next after a look.
    fn next(&self, now: u64) -> Next
        ensures { result ≡ next_after self.now now }
    {
        if self.attention.again {
            return Next::Again;
        }
        match self.patience {
            Some(patience) => Next::Later(patience.rest(now).max(1)),
            None => self.next_ended(now),
        }
    }

    /// What is next after a look where no bytes wait.
    fn next_ended(&self, now: u64) -> Next
        ensures { result ≡ next_ended_by self.now.ending now }
    {
        match self.ending {
            None => Next::Sleep,
            Some(Ending::Closing(moment)) if now < moment => Next::Later(moment - now),
            Some(_) => Next::Over,
        }
    }
}

impl Found {
    /// What a writer knows of a player after this answer: one that may have more to take, and waits for nothing, is to be looked at
    /// again.
    fn attention(self, before: Attention, has_ended: bool) -> Attention
        ensures { result ≡ attention_looked self.answer (not self.is_left && not has_ended) self.player_wakeups before }
    {
        let mut attention = before;
        attention.hold();
        match self.answer {
            Answer::Empty => attention.found_empty(self.player_wakeups),
            Answer::More => {
                if !self.is_left && !has_ended {
                    attention.look_again();
                }
            }
            Answer::Ended | Answer::Failed(_) => {}
        }
        attention
    }

    /// The patience with a peer for which bytes wait.
    fn patience(self, before: Option<Patience>, now: u64) -> Patience
        ensures { result ≡ tried before self now }
    {
        match before {
            Some(patience) if !self.moved => {
                let mut longer = patience;
                longer.wait_on(now, self.is_awaited);
                longer
            }
            _ => Patience::new(now),
        }
    }
}

impl Next {
    /// Whether there is nothing more to do.
    fn is_over(self) -> bool
        ensures { result ≡ is_over_by self }
    {
        matches!(self, Next::Over)
    }
}
