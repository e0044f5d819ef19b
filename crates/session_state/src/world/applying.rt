//! Carrying out what an answer changes.
ghost use Rattle.std.specs.Prelude.{◌≡◌, ◌<◌, ◌+◌, ◌-◌, ◌^◌, ℕ, None, Some, false, IfOk, OnErr};
ghost use Rattle.session_state.specs.Applied.{IsApplied};
ghost use Rattle.std.specs.Option.{option_copied, option_map};
ghost use Rattle.mounts.specs.Mounts.{IsSeat, owned_by};
ghost use Rattle.session_state.specs.declared.session.State.TheVariants.{Ready, Recording};
ghost use Rattle.session_state.specs.Checks.{state_in};
ghost use Rattle.session_state.specs.Replies.{pause_act, record_act, teardown_act};
ghost use Rattle.transport_header.specs.Tracks.{MayHave};
ghost use Rattle.session_state.specs.declared.session.Session as sessions;
ghost use Rattle.session_state.specs.Judged.{CanTake};
ghost use Rattle.session_state.specs.Stands.{ChangesSession, Stands, TakesSeat, in_state, kept_of, session_kept, with_channels, without_owned};

use crate::act::Act;
use crate::session::{Session, State};
use crate::world::{Change, World, seat_given_up};
use std::alloc::AllocError;
use transport_header::ChannelPair;

impl World {
    /// Gives an open connection a session in place of what it had.
    pub(crate) fn put_session(&mut self, conn: u64, session: Option<Session>)
        ensures { ChangesSession conn (λ _. session) self.old self.new }
    {
        if let Some(kept) = self.connections.get_mut(&conn) {
            kept.session = session;
        }
    }

    /// Puts a connection's session into a state.
    fn put_state(&mut self, conn: u64, state: State)
        ensures { ChangesSession conn (option_map (in_state state)) self.old self.new }
    {
        if let Some(kept) = self.connections.get_mut(&conn) {
            set_state(&mut kept.session, state);
        }
    }

    /// Gives a track of a connection's session channels.
    fn put_channels(&mut self, conn: u64, track: usize, pair: ChannelPair)
        requires { (track < 16) × ((session : sessions.Session) → session_kept self.old conn ≡ Some session → MayHave session.channels track pair) }
        ensures { ChangesSession conn (option_map (with_channels track pair)) self.old self.new }
    {
        if let Some(kept) = self.connections.get_mut(&conn) {
            set_channels(&mut kept.session, track, pair);
        }
    }

    /// Gives a connection its first session, which is one more.
    fn begin(&mut self, conn: u64, session: Session)
        requires { self.old.begun < 2 ^ 32 - 1 }
        ensures { ChangesSession conn (λ _. Some session) (record self.old { begun = self.old.begun + 1 }) self.new }
    {
        self.put_session(conn, Some(session));
        self.begun += 1;
    }

    /// Carries out what an answer changes, and tells what the connection has to do. The only error is out of memory, and
    /// then nothing has changed.
    pub(crate) fn apply(&mut self, conn: u64, change: Change) -> Result<Act, AllocError>
        requires { CanTake self.old conn change }
        ensures ok { IfOk result (λ act. IsApplied conn change self.old act self.new) }
        ensures err { OnErr result (self.new ≡ self.old) }
        ensures seats { self.new.mounts.seats ≡ self.old.mounts.seats }
    {
        let act = match change {
            Change::Nothing => Act::None,
            Change::Announce { name, description } => {
                self.mounts.announce(conn, name.as_slice(), description)?;
                Act::Open
            }
            Change::Begin(session) => {
                self.begin(conn, session);
                Act::None
            }
            Change::SetUp { track, pair } => {
                self.put_channels(conn, track, pair);
                Act::None
            }
            Change::Play => self.play(conn),
            Change::Record => self.record(conn),
            Change::Pause => self.pause(conn),
            Change::Teardown => self.tear_down(conn),
        };
        Ok(act)
    }

    /// A session takes a free seat of its mount, and plays from it (RFC 2326, 10.5).
    fn play(&mut self, conn: u64) -> Act
        ensures seats { self.new.mounts.seats ≡ self.old.mounts.seats }
        ensures takes { (session : sessions.Session) (seat : ℕ) → session_kept self.old conn ≡ Some session → IsSeat self.old.mounts session.mount seat false
            → TakesSeat conn session self.old result self.new }
    {
        let Some(mount) = self.mount_of(conn) else {
            return Act::None;
        };
        let Some(seat) = self.mounts.take_seat(mount) else {
            return Act::None;
        };
        self.put_state(conn, State::Playing { seat });
        Act::Play { mount, seat }
    }

    /// A session records (RFC 2326, 10.11).
    fn record(&mut self, conn: u64) -> Act
        ensures act { result ≡ record_act (state_in (session_kept self.old conn)) }
        ensures changes { ChangesSession conn (option_map (in_state Recording)) self.old self.new }
    {
        let act = recording_begun(self.session_of(conn));
        self.put_state(conn, State::Recording);
        act
    }

    /// A session neither plays nor records (RFC 2326, 10.6).
    fn pause(&mut self, conn: u64) -> Act
        ensures act { result ≡ pause_act (session_kept self.old conn) }
        ensures changes { ChangesSession conn (option_map (in_state Ready)) self.old self.new }
    {
        let act = seat_given_up(self.session_of(conn));
        self.put_state(conn, State::Ready);
        act
    }

    /// A session ends, and the mount that its connection owns (RFC 2326, 10.7).
    fn tear_down(&mut self, conn: u64) -> Act
        ensures act { result ≡ teardown_act (session_kept self.old conn) }
        ensures changes { ChangesSession conn (λ _. None) (record self.old { mounts = without_owned (owned_by conn self.old.mounts.mounts) self.old.mounts }) self.new }
    {
        let act = session_left(self.session_of(conn));
        self.put_session(conn, None);
        self.end_owned(conn);
        act
    }

    /// Ends the mount that a connection owns, if it owns one.
    pub(crate) fn end_owned(&mut self, conn: u64)
        ensures { self.new ≡ record self.old { mounts = without_owned (owned_by conn self.old.mounts.mounts) self.old.mounts } }
    {
        if let Some(mount) = self.mounts.owned_by(conn) {
            let number = mount.number;
            self.mounts.end(number);
        }
    }
}

/// What a connection has to do whose session is to record.
fn recording_begun(session: Option<&Session>) -> Act
    ensures { result ≡ record_act (state_in (option_copied session.entry)) }
{
    let Some(session) = session else {
        return Act::None;
    };
    match session.state {
        State::Ready => Act::Record,
        _ => Act::None,
    }
}

/// What a connection has to do whose session ends.
pub(crate) fn session_left(session: Option<&Session>) -> Act
    ensures { result ≡ teardown_act (option_copied session.entry) }
{
    let Some(recorded) = session else {
        return Act::None;
    };
    if recorded.recording {
        return Act::End;
    }
    seat_given_up(session)
}

/// Puts a session, if there is one, into a state.
fn set_state(kept: &mut Option<Session>, state: State)
    ensures { kept.new ≡ option_map (in_state state) kept.old }
{
    if let Some(session) = kept {
        session.state = state;
    }
}

/// Gives a track of a session, if there is one, channels.
fn set_channels(kept: &mut Option<Session>, track: usize, pair: ChannelPair)
    requires { (track < 16) × ((session : sessions.Session) → kept.old ≡ Some session → MayHave session.channels track pair) }
    ensures { kept.new ≡ option_map (with_channels track pair) kept.old }
{
    if let Some(session) = kept {
        session.channels.set(track, pair);
    }
}
