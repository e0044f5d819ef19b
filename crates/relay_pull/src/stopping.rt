//! The stop and the end of a pull, and its password, which its threads share.
use crate::ended::Ended;
use crate::limits::{PASSWORD_WAIT, STOP_WAIT};
use crate::password_file::PasswordFault;
use base_syntax::Bytes;
use std::sync::atomic::{AtomicBool, Ordering};
use std::sync::{Condvar, CondvarTimeouts, Mutex, Wait};
use std::time::{Clock, Duration};

/// What is known of a pull's end and of its password.
#[derive(Drop)]
struct State {
    is_stopped: bool,
    has_ended: bool,
    ended: Option<Ended>,
    /// Whether the tries wait for the password.
    wants_password: bool,
    /// What was read for them last, until they take it.
    password: Option<Result<Bytes, PasswordFault>>,
}

/// The stop and the end of a pull, and its password, which its threads share.
///
/// Its lock is held for a look or a change, and no other lock is taken meanwhile.
#[derive(Drop)]
pub(crate) struct Stopping {
    is_stopped: AtomicBool,
    state: Mutex<State>,
    changed: Condvar,
}

impl Stopping {
    /// Nothing was stopped.
    pub(crate) fn new() -> Stopping {
        Stopping {
            is_stopped: AtomicBool::new(false),
            state: Mutex::new(State {
                is_stopped: false,
                has_ended: false,
                ended: None,
                wants_password: false,
                password: None,
            }),
            changed: Condvar::new(),
        }
    }

    /// Requests the end.
    pub(crate) fn stop(&self, rt: &impl Wait) {
        self.is_stopped.store(true, Ordering::SeqCst);
        self.state.lock(rt).is_stopped = true;
        self.changed.notify_all();
    }

    /// Returns whether the end was requested.
    pub(crate) fn is_stopped(&self) -> bool {
        self.is_stopped.load(Ordering::SeqCst)
    }

    /// Sleeps for this number of milliseconds, or until the end is requested.
    pub(crate) fn rest<R: Wait + Clock>(&self, rt: &R, milliseconds: u64) {
        let most = Duration::from_millis(milliseconds);
        let _ = self
            .changed
            .wait_timeout_while(rt, self.state.lock(rt), most, |state| !state.is_stopped);
    }

    /// The tries have ended.
    pub(crate) fn end(&self, rt: &impl Wait, ended: Ended) {
        let mut state = self.state.lock(rt);
        let state = &mut *state;
        state.has_ended = true;
        state.ended = Some(ended);
        self.changed.notify_all();
    }

    /// Waits until the tries have ended, and after a stop for four seconds at most. `None` if they haven't by then.
    pub(crate) fn wait_ended<R: Wait + Clock>(&self, rt: &R) -> Option<Ended> {
        let state = self.changed.wait_while(rt, self.state.lock(rt), |state| {
            !state.is_stopped && !state.has_ended
        });
        let most = Duration::from_millis(STOP_WAIT);
        let (mut state, _) = self
            .changed
            .wait_timeout_while(rt, state, most, |state| !state.has_ended);
        state.ended.take()
    }

    /// Has the password read. Waits until it is, or the end is requested. `None` if the end was.
    pub(crate) fn first_password(&self, rt: &impl Wait) -> Option<Result<Bytes, PasswordFault>> {
        self.want_password(rt);
        let mut state = self.changed.wait_while(rt, self.state.lock(rt), |state| {
            state.wants_password && !state.is_stopped
        });
        state.password.take()
    }

    /// Has the password read anew. Waits until it is, for two seconds at most. `None` if it isn't by then, or the file gives none.
    pub(crate) fn next_password<R: Wait + Clock>(&self, rt: &R) -> Option<Bytes> {
        self.want_password(rt);
        let most = Duration::from_millis(PASSWORD_WAIT);
        let (mut state, _) = self
            .changed
            .wait_timeout_while(rt, self.state.lock(rt), most, |state| {
                state.wants_password && !state.is_stopped
            });
        match state.password.take() {
            Some(Ok(password)) => Some(password),
            _ => None,
        }
    }

    /// The tries want the password.
    fn want_password(&self, rt: &impl Wait) {
        self.state.lock(rt).wants_password = true;
        self.changed.notify_all();
    }

    /// Waits until the tries want the password. Returns false if they don't any more.
    pub(crate) fn wait_wanted(&self, rt: &impl Wait) -> bool {
        let state = self.changed.wait_while(rt, self.state.lock(rt), |state| {
            !state.wants_password && !state.is_stopped && !state.has_ended
        });
        !state.is_stopped && !state.has_ended
    }

    /// Gives the tries what the password file had.
    pub(crate) fn give_password(&self, rt: &impl Wait, read: Result<Bytes, PasswordFault>) {
        let mut state = self.state.lock(rt);
        let state = &mut *state;
        state.password = Some(read);
        state.wants_password = false;
        self.changed.notify_all();
    }
}
