//! What a connection knows of its session.
ghost use Rattle.std.specs.Prelude.{◌≡◌, ◌↔◌, IsTrue};
ghost use Rattle.session_state.specs.declared.session.State.TheVariants.{Recording};
ghost use Rattle.relay_connection.specs.Roles.{role_of as role_in};

use server_counts::SessionRole;
use session_state::{Session, State};
use transport_header::TrackChannels;

/// What a connection knows of its session without the book.
#[derive(Drop)]
pub(crate) struct SessionSnapshot {
    pub(crate) mount: u64,
    pub(crate) is_recording: bool,
    pub(crate) role: SessionRole,
    pub(crate) channels: TrackChannels,
}

impl SessionSnapshot {
    pub(crate) fn of(session: &Session) -> SessionSnapshot
        ensures mount { result.mount ≡ session.now.mount }
        ensures recording { IsTrue result.is_recording ↔ (session.now.state ≡ Recording) }
        ensures role { result.role ≡ role_in session.now.recording session.now.state }
        ensures channels { result.channels ≡ session.now.channels }
    {
        SessionSnapshot {
            mount: session.mount,
            is_recording: session.state == State::Recording,
            role: role_of(session.recording, session.state),
            channels: session.channels.copy(),
        }
    }
}

/// Returns the role and state of a session, which is a publisher's or a player's.
fn role_of(publishes: bool, state: State) -> SessionRole
    ensures { result ≡ role_in publishes state }
{
    match state {
        State::Recording => SessionRole::PublisherRecording,
        State::Playing { .. } => SessionRole::PlayerPlaying,
        State::Ready if publishes => SessionRole::PublisherReady,
        State::Ready => SessionRole::PlayerReady,
    }
}
