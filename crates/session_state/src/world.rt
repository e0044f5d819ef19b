//! What a server remembers to decide, and the calls that decide: `judging` finds the answer, of what `checks` and `replies`
//! say, with its `change`, and `applying` carries that out.
ghost use Rattle.std.specs.Prelude.{◌≡◌, ◌≤◌, ◌<◌, ◌+◌, ◌^◌, ◌∷◌, [], true, false, length, MatchBool, IfOk, IfSome, IfNone, OnErr, IfErr, List, None};

mod applying;
mod change;
mod connection;
mod expiring;
mod judging;

use crate::act::Act;
use crate::decision::Decision;
use crate::fault::ConnectFault;
use crate::given::Given;
use crate::session::{Session, State};
pub(crate) use change::Change;
pub(crate) use connection::Connection;
use mounts::Mounts;
use rtsp_message::{Reply, Request};
use std::alloc::{AllocError, Global};
use std::collections::BTreeMap;
use std::collections::hash_map::RandomState;
use std::marker::Model;

/// The most connections that are open at a time.
pub const MAX_CONNECTIONS: usize = 1024;

/// What a server remembers to decide: the live mounts, and the open connections with their sessions. A contract speaks of
/// every history that it stands for.
pub struct World {
    pub(crate) mounts: Mounts,
    pub(crate) connections: BTreeMap<u64, Connection>,
    pub(crate) came: u64,
    pub(crate) begun: u32,
}

impl Model for World {
    ghost use Rattle.session_state.specs.Stands.{Tables};

    ghost Value = { Tables };

    ghost view = { λ w. record { mounts = w.mounts; connections = w.connections.entries; came = w.came; begun = w.begun } };
}

impl Drop for World {
    fn drop(self) {
        let World {
            mounts: _,
            connections: _,
            came: _,
            begun: _,
        } = self;
    }
}

impl World {
    ghost use Rattle.session_state.specs.declared.act.Act.TheVariants as acts;
    ghost use Rattle.session_state.specs.declared.entry.Entry.TheVariants.{Connect, HangUp, Back};
    ghost use Rattle.session_state.specs.declared.entry.Entry.TheVariants as entries;
    ghost use Rattle.session_state.specs.Judged.{IsReplyIn};
    ghost use Rattle.std.specs.Option.{option_copied, option_map};
    ghost use Rattle.std.specs.Prelude.{IsSome};
    ghost use Rattle.session_state.specs.declared.fault.ConnectFault.TheVariants.{Full, OutOfMemory};
    ghost use Rattle.session_state.specs.History.{History, accepts, how_many};
    ghost use Rattle.session_state.specs.Legal.{Comes, IsBack, IsHangUp, IsLegal, IsReplyOf};
    ghost use Rattle.session_state.specs.Lookups.{came, is_open, open_count};
    ghost use Rattle.session_state.specs.Methods.{is_announce};
    ghost use Rattle.session_state.specs.Stands.{Stands, kept_of, session_kept};

    /// The opening world: nobody has come yet. Each mount that is announced has so many seats. Takes no memory.
    pub fn new(alloc: Global, seats: usize, hasher: RandomState) -> World
        requires { seats ≤ 1024 }
        ensures opening { Stands [] result }
        ensures seats { result.mounts.seats ≡ seats }
    {
        World {
            mounts: Mounts::new(alloc, seats, hasher),
            connections: BTreeMap::new(alloc),
            came: 0,
            begun: 0,
        }
    }

    /// A copy, or out of memory: of at most `MAX_CONNECTIONS` sessions and of the table of mounts, whose descriptions are
    /// shared.
    pub fn copy(&self, alloc: Global) -> Result<World, AllocError>
        ensures { IfOk result (λ copied. copied ≡ self.now) }
    {
        Ok(World {
            mounts: self.mounts.copy()?,
            connections: copy_connections(alloc, &self.connections)?,
            came: self.came,
            begun: self.begun,
        })
    }

    /// How many connections are open.
    pub fn count_open(&self) -> usize
        ensures { (history : History) → Stands history self.now → result ≡ open_count history }
    {
        self.connections.len()
    }

    /// Whether one more connection may come: fewer than `MAX_CONNECTIONS` are open, and a number up to 2^63 is left.
    pub fn may_come(&self) -> bool
        ensures comes { (history : History) → Stands history self.now → MatchBool result (Comes history (came history + 1)) (Comes history (came history + 1) → ⊥) }
        ensures few { result ≡ true → length self.now.connections < 1024 }
        ensures left { result ≡ true → self.now.came < 2 ^ 63 }
    {
        self.connections.len() < MAX_CONNECTIONS && self.came < 1 << 63
    }

    /// The number of the mount that is announced next.
    pub fn next_mount(&self) -> u64
        ensures { (history : History) → Stands history self.now → result ≡ how_many (accepts is_announce) history + 1 }
    {
        self.mounts.next_number()
    }

    /// Whether a connection is open. Looks it up by its number, in a B-tree.
    pub fn is_open(&self, conn: u64) -> bool
        ensures open { (history : History) → Stands history self.now → result ≡ is_open conn history }
        ensures kept { MatchBool result (IsSome (kept_of conn self.now.connections)) (kept_of conn self.now.connections ≡ None) }
    {
        self.connections.contains_key(&conn)
    }

    /// Lets a connection come, and tells its number: from 1 on, and never used again. `Full` comes exactly where
    /// `MAX_CONNECTIONS` are open or the numbers are used up, and `OutOfMemory` only where they aren't; after an error
    /// nothing has changed.
    pub fn connect(&mut self) -> Result<u64, ConnectFault>
        ensures ok { IfOk result (λ conn. (history : History) → IsLegal self.old.mounts.seats history → Stands history self.old
            → Comes history conn × Stands (Connect conn ∷ history) self.new) }
        ensures full { result ≡ Err Full → (history : History) → Stands history self.old → Comes history (came history + 1) → ⊥ }
        ensures memory { result ≡ Err OutOfMemory → (history : History) → Stands history self.old → Comes history (came history + 1) }
        ensures err { OnErr result (self.new ≡ self.old) }
        ensures seats { self.new.mounts.seats ≡ self.old.mounts.seats }
    {
        if !self.may_come() {
            return Err(ConnectFault::Full);
        }
        let number = self.came + 1;
        let connection = Connection {
            session: None,
            heard: 0,
        };
        self.connections.insert(number, connection)?;
        self.came = number;
        Ok(number)
    }

    /// Decides a request of an open connection: what it is answered, and what its connection has to do. Looks at the request and
    /// what is given beside it, at the connection's session, at the table of live mounts, which has at most `MAX_MOUNTS`, and at
    /// two counts: of the sessions that have begun and of the mounts that were announced. At nothing else that has happened, and
    /// never at another connection's session. It takes memory for what the URI names, unless that is `*`, for an identifier where
    /// there is a Session field, for the specs of a Transport field and for the reply: of a DESCRIBE with one copy of a
    /// description; and an ANNOUNCE reads its body into one. The only error is out of memory, and then nothing has changed.
    pub fn decide(
        &mut self,
        alloc: Global,
        conn: u64,
        request: &Request,
        given: &Given,
    ) -> Result<(Reply, Act), AllocError>
        requires open { IsSome (kept_of conn self.old.connections) }
        ensures ok { IfOk result (λ r. (history : History) → IsLegal self.old.mounts.seats history → Stands history self.old
            → IsReplyOf self.old.mounts.seats history conn request.now given.entry.now r.0 r.1 × Stands (entries.Request conn request.now given.entry.now r.0 r.1 ∷ history) self.new) }
        ensures reply { IfOk result (λ r. (history : History) → IsLegal self.old.mounts.seats history → Stands history self.old → IsReplyIn self.old history conn request.now given.entry.now r.0) }
        ensures err { OnErr result (self.new ≡ self.old) }
        ensures seats { self.new.mounts.seats ≡ self.old.mounts.seats }
    {
        let (reply, change) = self.judge(alloc, conn, request, given)?;
        let act = self.apply(conn, change)?;
        self.hear(conn, given.now);
        Ok((reply, act))
    }

    /// Decides as `decide` does, and copies the reply, before anything changes.
    pub fn decide_and_copy(
        &mut self,
        alloc: Global,
        conn: u64,
        request: &Request,
        given: &Given,
    ) -> Result<Decision, AllocError>
        requires open { IsSome (kept_of conn self.old.connections) }
        ensures ok { IfOk result (λ decision. (history : History) → IsLegal self.old.mounts.seats history → Stands history self.old
            → IsReplyOf self.old.mounts.seats history conn request.now given.entry.now decision.reply decision.act
            × Stands (entries.Request conn request.now given.entry.now decision.reply decision.act ∷ history) self.new) }
        ensures reply { IfOk result (λ decision. (history : History) → IsLegal self.old.mounts.seats history → Stands history self.old → IsReplyIn self.old history conn request.now given.entry.now decision.reply) }
        ensures copy { IfOk result (λ decision. decision.copy ≡ decision.reply) }
        ensures err { OnErr result (self.new ≡ self.old) }
        ensures seats { self.new.mounts.seats ≡ self.old.mounts.seats }
    {
        let (reply, change) = self.judge(alloc, conn, request, given)?;
        let copy = reply.copy(alloc)?;
        let act = self.apply(conn, change)?;
        self.hear(conn, given.now);
        Ok(Decision { reply, copy, act })
    }

    /// The reply that `decide` would give here.
    pub fn reply_of(
        &self,
        alloc: Global,
        conn: u64,
        request: &Request,
        given: &Given,
    ) -> Result<Reply, AllocError>
        requires open { IsSome (kept_of conn self.now.connections) }
        ensures { IfOk result (λ reply. (history : History) → IsLegal self.now.mounts.seats history → Stands history self.now → IsReplyIn self.now history conn request.now given.entry.now reply) }
    {
        let (reply, _) = self.judge(alloc, conn, request, given)?;
        Ok(reply)
    }

    /// The session of a connection.
    pub fn session_of(&self, conn: u64) -> Option<&Session>
        ensures { option_copied result ≡ session_kept self.now conn }
    {
        self.connections.get(&conn)?.session.as_ref()
    }

    /// The number of the mount of a connection's session.
    pub fn mount_of(&self, conn: u64) -> Option<u64>
        ensures { result ≡ option_map (λ session. session.mount) (session_kept self.now conn) }
    {
        Some(self.session_of(conn)?.mount)
    }

    /// Hangs a connection up: its session ends, and so does the mount that it owns. Tells what it has to do. Where it isn't
    /// open, nothing changes. Takes no memory.
    pub fn hangup(&mut self, conn: u64) -> Act
        ensures ok { (history : History) → IsLegal self.old.mounts.seats history → Stands history self.old → is_open conn history ≡ true
            → IsHangUp self.old.mounts.seats history conn result × Stands (HangUp conn result ∷ history) self.new }
        ensures unknown { (history : History) → Stands history self.old → is_open conn history ≡ false → (result ≡ acts.None) × (self.new ≡ self.old) }
        ensures seats { self.new.mounts.seats ≡ self.old.mounts.seats }
    {
        let Some(connection) = self.connections.remove(&conn) else {
            return Act::None;
        };
        if let Some(mount) = self.mounts.owned_by(conn) {
            let number = mount.number;
            self.mounts.end(number);
            return Act::End;
        }
        seat_given_up(connection.session.as_ref())
    }

    /// Gives back a seat of a mount. `false`, and nothing changes, where no such mount lives or the seat isn't out. Takes no
    /// memory.
    pub fn back(&mut self, mount: u64, seat: usize) -> bool
        ensures yes { (history : History) → Stands history self.old → result ≡ true → IsBack history mount seat × Stands (Back mount seat ∷ history) self.new }
        ensures no { (history : History) → IsLegal self.old.mounts.seats history → Stands history self.old → result ≡ false → (IsBack history mount seat → ⊥) × (self.new ≡ self.old) }
        ensures seats { self.new.mounts.seats ≡ self.old.mounts.seats }
    {
        self.mounts.give_back(mount, seat)
    }
}

/// A copy of the open connections with their sessions.
fn copy_connections(
    alloc: Global,
    connections: &BTreeMap<u64, Connection>,
) -> Result<BTreeMap<u64, Connection>, AllocError>
    ensures { IfOk result (λ copied. copied.entries ≡ connections.now.entries) }
{
    let mut copied = BTreeMap::new(alloc);
    for (conn, connection) in connections {
        copied.insert(*conn, connection.copy(alloc)?)?;
    }
    Ok(copied)
}

ghost use Rattle.std.specs.Option.{option_copied};
ghost use Rattle.session_state.specs.Replies.{pause_act};

/// The seat that a session plays from is given up.
pub(crate) fn seat_given_up(session: Option<&Session>) -> Act
    ensures { result ≡ pause_act (option_copied session.entry) }
{
    let Some(session) = session else {
        return Act::None;
    };
    match session.state {
        State::Playing { seat } => Act::Stop {
            mount: session.mount,
            seat,
        },
        _ => Act::None,
    }
}
