//! What a writer knows of a player, and decides before a look at it.
ghost use Rattle.std.specs.Prelude.{◌≡◌, ◌↔◌, ℕ, true, false, Some, IfSome};
ghost use Rattle.waking.specs.Machine.{finds_nothing, knows};
ghost use Rattle.waking.specs.declared.sweep.Next.TheVariants.{Sleep, Over};
ghost use Rattle.waking.specs.Endings.{has_failed as has_failed_by};
ghost use Rattle.waking.specs.PlayerStates.{SleepsAt, comer, next_before, next_idle, next_skipped, player_skipped, waits, written_ending as written_ending_of};
ghost use Rattle.waking.specs.Steps.{IsStep, MayMake, step_before, step_skipped};

use crate::attention::Attention;
use crate::ending::{Ending, has_failed};
use crate::quiet::Quiet;
use crate::sweep::Next;
use pacing::Patience;

/// What a writer knows of one of its players. Moments are milliseconds of a clock that doesn't go back; where it couldn't be read,
/// the moment is the last one that was, and `is_read` is false.
#[derive(Clone, Copy, Debug, PartialEq, Eq, Drop)]
pub struct PlayerState {
    /// Whether it is to be looked at.
    pub attention: Attention,
    /// While bytes wait that its socket didn't take. Then it takes no packet.
    pub patience: Option<Patience>,
    /// Whether its mount's pace knows of it. It doesn't while its socket takes nothing, after 20 milliseconds if it kept up before:
    /// no publisher waits for that.
    pub is_paced: bool,
    /// When its mount was first seen to have ended while bytes waited.
    pub ended_at: Option<u64>,
    /// How its frames ended.
    pub ending: Option<Ending>,
    /// For how many milliseconds the connection may stay after its mount has ended and all was sent. `None` for ever.
    pub after_end: Option<u64>,
}

impl PlayerState {
    /// Of a player that comes. It has taken nothing yet, and its mount's pace knows of it.
    pub fn new(after_end: Option<u64>) -> PlayerState
        ensures comes { result ≡ comer after_end }
    {
        PlayerState {
            attention: Attention::new(),
            patience: None,
            is_paced: true,
            ended_at: None,
            ending: None,
            after_end,
        }
    }

    /// What is next if there is nothing to do now, where its mount's players were woken so often. `None` if there is: also if a
    /// socket is to be tried later, and the clock doesn't say when that is.
    pub fn before(&self, player_wakeups: u64, now: u64, is_read: bool) -> Option<Next>
        ensures next { result ≡ next_before self.now player_wakeups now is_read }
        ensures sleep { result ≡ Some Sleep → (self.now.attention.again ≡ false) × (player_wakeups ≡ self.now.attention.seen) × (waits self.now ≡ false) }
        ensures step { IfSome result (λ next. IsStep (step_before next) player_wakeups self.now self.now next) }
        ensures may { IfSome result (λ next. MayMake knows (step_before next) player_wakeups self.now) }
        ensures over { has_failed_by self.now.ending ≡ true → result ≡ Some Over }
    {
        if has_failed(self.ending) {
            return Some(Next::Over);
        }
        if self.attention.again {
            return None;
        }
        match self.patience {
            Some(patience) if is_read && !patience.is_due(now) => {
                Some(Next::Later(patience.rest(now)))
            }
            Some(_) => None,
            None => self.idle(player_wakeups, now),
        }
    }

    /// For how long there is nothing to do for it, whatever the time: until its mount's players are woken again, a sweep may pass over it.
    /// `None` if it is to be looked at.
    pub fn quiet(&self) -> Option<Quiet>
        ensures quiet { (seen : ℕ) → (result ≡ Some seen) ↔ SleepsAt self.now seen }
        ensures step { IfSome result (λ seen. IsStep finds_nothing seen self.now self.now Sleep) }
        ensures may { IfSome result (λ seen. MayMake knows finds_nothing seen self.now) }
    {
        match self.asleep_after() {
            Some(player_wakeups) => Some(Quiet::after(player_wakeups)),
            None => None,
        }
    }

    /// Its line was taken both times, and is marked as skipped: who gives it back wakes the writer.
    pub fn skipped(&mut self) -> Next
        ensures next { result ≡ next_skipped self.old }
        ensures marked { self.new ≡ player_skipped self.old }
        ensures step { IsStep (step_skipped result) 0 self.old self.new result }
        ensures over { has_failed_by self.old.ending ≡ true → result ≡ Over }
    {
        if has_failed(self.ending) {
            return Next::Over;
        }
        self.attention.look_again();
        Next::Sleep
    }

    /// How its frames ended for who stops them: `None` if they hadn't, or if the last of them weren't written.
    pub fn written_ending(&self) -> Option<Ending>
        ensures written { result ≡ written_ending_of self.now }
    {
        if self.patience.is_some() && !has_failed(self.ending) {
            return None;
        }
        self.ending
    }

    /// After how many wake-ups there is nothing to do for it, whatever the time.
    fn asleep_after(&self) -> Option<u64>
        ensures quiet { (seen : ℕ) → (result ≡ Some seen) ↔ SleepsAt self.now seen }
        ensures step { IfSome result (λ seen. IsStep finds_nothing seen self.now self.now Sleep) }
        ensures may { IfSome result (λ seen. MayMake knows finds_nothing seen self.now) }
    {
        match (self.attention.again, self.patience, self.ending) {
            (false, None, None) => Some(self.attention.seen),
            _ => None,
        }
    }

    /// What is next if there is nothing to do now, where no bytes wait.
    fn idle(&self, player_wakeups: u64, now: u64) -> Option<Next>
        ensures { result ≡ next_idle self.now.ending self.now.attention player_wakeups now }
    {
        match self.ending {
            None if self.attention.seen == player_wakeups => Some(Next::Sleep),
            None => None,
            Some(Ending::Closing(moment)) if now < moment => Some(Next::Later(moment - now)),
            Some(Ending::Closing(_)) => None,
            Some(Ending::WithMount | Ending::Failed(_)) => Some(Next::Over),
        }
    }
}
