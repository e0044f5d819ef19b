//! When a password that the source refused is sent again.
ghost use Rattle.std.specs.Prelude.{◌≡◌, None};
ghost use Rattle.pull_plan.specs.Refusals.{refused_at, wait_until};

use crate::limits::{FIRST_REFUSAL_WAIT, NEXT_REFUSAL_WAIT};

/// How often the source has refused a password, and when it is sent again: after its first refusal in 10 minutes, and after each further
/// one in 30. Moments are milliseconds of one clock that doesn't go back.
#[derive(Clone, Copy, Debug, PartialEq, Eq, Drop)]
pub struct PasswordTries {
    /// When it is sent again. `None` if it wasn't refused.
    pub due: Option<u64>,
}

impl PasswordTries {
    /// The password wasn't refused.
    pub fn new() -> PasswordTries
        ensures { result ≡ record { due = None } }
    {
        PasswordTries { due: None }
    }

    /// The source refuses the password at this moment.
    pub fn refused(&mut self, now: u64)
        ensures { self.new ≡ refused_at self.old now }
    {
        let wait = if self.due.is_none() {
            FIRST_REFUSAL_WAIT
        } else {
            NEXT_REFUSAL_WAIT
        };
        self.due = Some(now.saturating_add(wait));
    }

    /// There is another password, or the source has taken it: its refusals are forgotten.
    pub fn forget(&mut self)
        ensures { self.new ≡ record { due = None } }
    {
        self.due = None;
    }

    /// Returns how many milliseconds there are from this moment until a try may send the password. 0 if it may.
    pub fn wait(&self, now: u64) -> u64
        ensures { result ≡ wait_until self.now now }
    {
        match self.due {
            Some(due) => due.saturating_sub(now),
            None => 0,
        }
    }
}
