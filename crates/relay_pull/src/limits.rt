//! The limits of a pull's sockets and of its end. What happens at each is in `docs/LIMITS.md`.

/// How long a connection to one address may take to be made, in milliseconds.
pub(crate) const CONNECT_WAIT: u64 = 5_000;

/// How many times each side is read and written before the clock, the stop and the system's events are looked at again.
pub(crate) const MOST_ROUNDS: usize = 16;

/// How long a wait for both sides takes at most, in milliseconds: a stop is seen after it, and what is due is done.
pub(crate) const LOOK_WAIT: u64 = 100;

/// How long the program waits for its last try after a stop, in milliseconds.
pub(crate) const STOP_WAIT: u64 = 4_000;

/// How long the program waits at its end until its lines are written, in milliseconds.
pub(crate) const LAST_LINES: u64 = 500;

/// A password file with this number of bytes or more is refused.
pub(crate) const MOST_PASSWORD_BYTES: usize = 1_024;

/// How long a try waits for its password file to be read anew, in milliseconds.
pub(crate) const PASSWORD_WAIT: u64 = 2_000;

/// How long the program rests at most until it looks at the password file again, while a refused password isn't sent, in milliseconds.
pub(crate) const PASSWORD_LOOK: u64 = 5_000;
