//! For how long a peer may be silent.
ghost use Rattle.std.specs.Prelude.{◌≡◌, ◌↔◌, None, Some, IsTrue};
ghost use Rattle.relay_accounts.specs.declared.ending.ConnectionEnd.TheVariants.{Idle, NotSetUp, Silent};
ghost use Rattle.relay_connection.specs.QuietTimes.{IsIdle, IsNotSetUp, IsOver, IsTooSilent};

use relay_accounts::ConnectionEnd;

/// For how long a peer may be silent.
#[derive(Clone, Copy, Debug, Drop)]
pub struct IdlePolicy {
    /// The interval of checks of a silent connection, in milliseconds.
    pub looks: u64,
    /// Without a session it is disconnected after this many milliseconds. `None` for never.
    pub idle: Option<u64>,
    /// While it records it is disconnected after this many milliseconds. `None` leaves it to the expiry of its session.
    pub silent: Option<u64>,
}

/// A connection whose session hasn't expired, at a check.
#[derive(Clone, Copy, Debug, Drop)]
pub(crate) struct QuietTime {
    /// For how many milliseconds no whole message or frame of it came.
    pub(crate) time: u64,
    /// Whether it announced a mount and has set up no track of it for as long as it may.
    pub(crate) is_unset: bool,
    /// Whether its session records.
    pub(crate) is_recording: bool,
    pub(crate) has_session: bool,
}

impl IdlePolicy {
    /// Returns how its silence ends a connection, if it does.
    pub(crate) fn end_of(&self, quiet: QuietTime) -> Option<ConnectionEnd>
        ensures not_set_up { IsNotSetUp quiet → result ≡ Some NotSetUp }
        ensures silent { IsTooSilent self.now quiet → result ≡ Some Silent }
        ensures idle { IsIdle self.now quiet → result ≡ Some Idle }
        ensures stays { (IsNotSetUp quiet → ⊥) → (IsTooSilent self.now quiet → ⊥) → (IsIdle self.now quiet → ⊥) → result ≡ None }
    {
        if quiet.is_unset {
            Some(ConnectionEnd::NotSetUp)
        } else if quiet.is_recording && is_over(self.silent, quiet.time) {
            Some(ConnectionEnd::Silent)
        } else if !quiet.has_session && is_over(self.idle, quiet.time) {
            Some(ConnectionEnd::Idle)
        } else {
            None
        }
    }
}

/// Whether a silence has lasted for as long as it may. `None` is for ever.
fn is_over(most: Option<u64>, time: u64) -> bool
    ensures { IsTrue result ↔ IsOver most time }
{
    match most {
        Some(most) => time >= most,
        None => false,
    }
}
