//! Sessions that expire (RFC 2326, 12.37).
ghost use Rattle.std.specs.Prelude.{◌≡◌, ◌∷◌, None, MatchBool, IfSome, IfNone, if◌then◌else◌};
ghost use Rattle.mounts.specs.Mounts.{owned_by};
ghost use Rattle.session_state.specs.declared.act.Act as acting;
ghost use Rattle.session_state.specs.declared.entry.Entry.TheVariants.{Expire};
ghost use Rattle.session_state.specs.History.{History};
ghost use Rattle.session_state.specs.Legal.{IsExpiry, IsLegal};
ghost use Rattle.session_state.specs.Replies.{teardown_act};
ghost use Rattle.session_state.specs.Stands.{ChangesSession, HasExpired, IsHeard, Stands, session_kept, without_owned};
ghost use Rattle.session_state.specs.Streams.{is_end};

use crate::act::Act;
use crate::world::World;
use crate::world::applying::session_left;

/// For how long a session lives after its connection was last heard, in milliseconds.
const SESSION_LIFE: u64 = 60_000;

impl World {
    /// Ends the session of a connection that was last heard 60 seconds or more before `now`: by a request, at the greatest
    /// moment that was given with one, or otherwise, at `heard`. Moments are milliseconds. With a session for recording its mount
    /// ends, too. Tells what the connection has to do, as after a TEARDOWN. `None`, and nothing changes, where the connection
    /// isn't open, has no session or was heard later. Takes no memory.
    pub fn expire(&mut self, conn: u64, heard: u64, now: u64) -> Option<Act>
        ensures ends { IfSome result (λ act. (history : History) → IsLegal self.old.mounts.seats history → Stands history self.old
            → IsExpiry self.old.mounts.seats history conn heard now act × Stands (Expire conn heard now act ∷ history) self.new) }
        ensures none { result ≡ None → (history : History) (act : acting.Act) → Stands history self.old → IsExpiry self.old.mounts.seats history conn heard now act → ⊥ }
        ensures unchanged { IfNone result (self.new ≡ self.old) }
        ensures seats { self.new.mounts.seats ≡ self.old.mounts.seats }
    {
        if !self.has_expired(conn, heard, now) {
            return None;
        }
        Some(self.end_session(conn))
    }

    /// Whether a connection has a session, and was last heard 60 seconds or more before `now`.
    fn has_expired(&self, conn: u64, heard: u64, now: u64) -> bool
        ensures { MatchBool result (HasExpired self.now conn heard now) (HasExpired self.now conn heard now → ⊥) }
    {
        let Some(kept) = self.connections.get(&conn) else {
            return false;
        };
        kept.session.is_some() && now.saturating_sub(kept.heard.max(heard)) >= SESSION_LIFE
    }

    /// Ends a connection's session, and its mount where it was for recording.
    fn end_session(&mut self, conn: u64) -> Act
        ensures act { result ≡ teardown_act (session_kept self.old conn) }
        ensures changes { ChangesSession conn (λ _. None) (record self.old { mounts = without_owned (if is_end result then owned_by conn self.old.mounts.mounts else None) self.old.mounts }) self.new }
    {
        let act = session_left(self.session_of(conn));
        self.put_session(conn, None);
        if act == Act::End {
            self.end_owned(conn);
        }
        act
    }

    /// A connection was heard at this moment.
    pub(crate) fn hear(&mut self, conn: u64, now: u64)
        ensures { IsHeard conn now self.old self.new }
    {
        if let Some(kept) = self.connections.get_mut(&conn) {
            kept.heard = now.max(kept.heard);
        }
    }
}
