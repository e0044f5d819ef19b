//! What the definitions of this crate mean, as theorems that call nothing.
ghost use Rattle.std.specs.Prelude.{◌≡◌, ◌≢◌, ◌<◌, ◌≤◌, ℕ, ◌+◌, ◌^◌, List, ◌∷◌, ◌++◌, length, Option, Some, true, false};
ghost use Rattle.rtsp_message.specs.declared.request.Request as messages;
ghost use Rattle.rtsp_message.specs.declared.reply.Reply.{Reply};
ghost use Rattle.rtsp_message.specs.Reply.{code_of};
ghost use Rattle.transport_header.specs.Session.{identifier_text};
ghost use Rattle.mounts.specs.declared.mount.Mount.{Mount};
ghost use Rattle.mounts.specs.Mounts.{named, numbered, owned_by};
ghost use Rattle.session_state.specs.declared.act.Act.{Act};
ghost use Rattle.session_state.specs.declared.act.Act.TheVariants as acts;
ghost use Rattle.session_state.specs.declared.entry.Entry.{Entry};
ghost use Rattle.session_state.specs.declared.entry.Entry.TheVariants.{Request, Back};
ghost use Rattle.session_state.specs.declared.given.Given.{Given};
ghost use Rattle.session_state.specs.declared.checks.Check.{Check};
ghost use Rattle.session_state.specs.declared.method.Method.{Method};
ghost use Rattle.session_state.specs.declared.method.Method.TheVariants as methods;
ghost use Rattle.session_state.specs.declared.session.Session.{Session};
ghost use Rattle.session_state.specs.declared.session.State.TheVariants.{Ready};
ghost use Rattle.session_state.specs.History.{History, accepts, accepts_from, how_many};
ghost use Rattle.session_state.specs.Checks.{Asked, FailsFirst, LooksUp, PassesAll, checks_of};
ghost use Rattle.session_state.specs.Legal.{IsAnswered, IsExpiry, IsLegal, IsReplyOf, IsSameAct};
ghost use Rattle.session_state.specs.Lookups.{AreOpen, IsSession, IsSessionOf, came, has_session, is_open, open_count, sessions_begun};
ghost use Rattle.session_state.specs.Methods.{is_announce, method_of, moves};
ghost use Rattle.session_state.specs.Streams.{AreLive, IsLiveMount, ends_of, is_out};
ghost use Rattle.session_state.specs.WellAsked.{IsWellAsked, first_checks};

/// In a legal history a PLAY takes a seat below the number of seats, and a free one; in Ready each PLAY that is answered 200
/// takes one of its session's mount. A seat is given back only while it is out. So no seat is out twice.
pub fn seats_are_taken_free()
    ensures taken { (seats : ℕ) (before : History) (conn : ℕ) (request : messages.Request) (given : Given) (reply : Reply) (act : Act) (session : Session)
        → IsLegal seats (Request conn request given reply act ∷ before) → code_of reply.status ≡ 200 → method_of request.method ≡ Some methods.Play
        → IsSession seats conn before session → session.state ≡ Ready → (seat : ℕ) × (act ≡ acts.Play session.mount seat) × (seat < seats) × (is_out session.mount seat before ≡ false) }
    ensures below { (seats : ℕ) (before : History) (conn : ℕ) (request : messages.Request) (given : Given) (reply : Reply) (mount seat : ℕ)
        → IsLegal seats (Request conn request given reply (acts.Play mount seat) ∷ before) → seat < seats }
    ensures free { (seats : ℕ) (before : History) (conn : ℕ) (request : messages.Request) (given : Given) (reply : Reply) (mount seat : ℕ)
        → IsLegal seats (Request conn request given reply (acts.Play mount seat) ∷ before) → is_out mount seat before ≡ false }
    ensures given_back { (seats : ℕ) (before : History) (mount seat : ℕ) → IsLegal seats (Back mount seat ∷ before) → is_out mount seat before ≡ true }
    ensures out { (seats : ℕ) (history : History) (mount seat : ℕ) → IsLegal seats history → is_out mount seat history ≡ true → seat < seats }
{}

/// A request that isn't answered 200 asks for nothing, and leaves what lives, who is open and all that is counted: the mounts
/// and their seats, the sessions, and how many mounts, sessions and connections there have been.
pub fn refusals_change_nothing()
    ensures act { (seats : ℕ) (before : History) (conn : ℕ) (request : messages.Request) (given : Given) (reply : Reply) (act : Act)
        → IsLegal seats (Request conn request given reply act ∷ before) → code_of reply.status ≢ 200 → act ≡ acts.None }
    ensures mounts { (seats : ℕ) (before : History) (conn : ℕ) (request : messages.Request) (given : Given) (reply : Reply) (act : Act) (mounts : List Mount)
        → IsLegal seats (Request conn request given reply act ∷ before) → code_of reply.status ≢ 200 → AreLive seats before mounts → AreLive seats (Request conn request given reply act ∷ before) mounts }
    ensures sessions { (seats : ℕ) (before : History) (conn : ℕ) (request : messages.Request) (given : Given) (reply : Reply) (act : Act) (who : ℕ) (session : Option Session)
        → IsLegal seats (Request conn request given reply act ∷ before) → code_of reply.status ≢ 200 → IsSessionOf seats who before session → IsSessionOf seats who (Request conn request given reply act ∷ before) session }
    ensures seats { (seats : ℕ) (before : History) (conn : ℕ) (request : messages.Request) (given : Given) (reply : Reply) (act : Act) (mount seat : ℕ)
        → IsLegal seats (Request conn request given reply act ∷ before) → code_of reply.status ≢ 200 → is_out mount seat (Request conn request given reply act ∷ before) ≡ is_out mount seat before }
    ensures open { (before : History) (conn : ℕ) (request : messages.Request) (given : Given) (reply : Reply) (act : Act) (who : ℕ)
        → is_open who (Request conn request given reply act ∷ before) ≡ is_open who before }
    ensures came { (before : History) (conn : ℕ) (request : messages.Request) (given : Given) (reply : Reply) (act : Act) → came (Request conn request given reply act ∷ before) ≡ came before }
    ensures announced { (seats : ℕ) (before : History) (conn : ℕ) (request : messages.Request) (given : Given) (reply : Reply) (act : Act)
        → IsLegal seats (Request conn request given reply act ∷ before) → code_of reply.status ≢ 200 → how_many (accepts is_announce) (Request conn request given reply act ∷ before) ≡ how_many (accepts is_announce) before }
    ensures begun { (seats : ℕ) (before : History) (conn : ℕ) (request : messages.Request) (given : Given) (reply : Reply) (act : Act)
        → IsLegal seats (Request conn request given reply act ∷ before) → code_of reply.status ≢ 200 → sessions_begun (Request conn request given reply act ∷ before) ≡ sessions_begun before }
{}

/// A connection's session, and with it its state, changes only by its own accepted SETUP, PLAY, RECORD, PAUSE and TEARDOWN,
/// by its hang-up, and when it expires (RFC 2326, A.2 and 12.37).
pub fn sessions_change_by_their_own()
    ensures { (seats conn : ℕ) (before : History) (entry : Entry) (session : Option Session) → ends_of conn entry ≡ false → accepts_from conn moves entry ≡ false
        → IsSessionOf seats conn before session → IsSessionOf seats conn (entry ∷ before) session }
{}

/// A connection that is open has come, and one that hasn't come has no session.
pub fn connections_come_first()
    ensures stranger { (seats conn : ℕ) (history : History) → IsLegal seats history → came history < conn → has_session conn history ≡ false }
    ensures open { (seats conn : ℕ) (history : History) → IsLegal seats history → is_open conn history ≡ true → conn < came history + 1 }
{}

/// As many connections are open as are counted: in a legal history there are so many, each of which is open, and no other is.
/// They are at most 1,024.
pub fn open_connections_are_counted()
    ensures few { (seats : ℕ) (history : History) → IsLegal seats history → open_count history ≤ 1024 }
    ensures counted { (seats : ℕ) (history : History) → IsLegal seats history → (conns : List ℕ) × AreOpen history conns × (length conns ≡ open_count history) }
{}

/// In a legal history a connection owns at most one mount that lives, and no two mounts that live have one name.
pub fn mounts_differ()
    ensures owners { (seats : ℕ) (history : History) (one other : Mount) → IsLegal seats history → IsLiveMount seats history one → IsLiveMount seats history other
        → one.owner ≡ other.owner → one.number ≡ other.number }
    ensures names { (seats : ℕ) (history : History) (one other : Mount) → IsLegal seats history → IsLiveMount seats history one → IsLiveMount seats history other
        → one.name ≡ other.name → one.number ≡ other.number }
{}

/// No two sessions of a history have one number, be they another connection's or one that has ended: they began with the same
/// request. So none have one identifier (RFC 2326, 3.4), of numbers and words below 2^32.
pub fn sessions_differ()
    ensures numbers { (seats conn other : ℕ) (later history : History) (session second : Session) (one : IsSession seats conn history session) (two : IsSession seats other (later ++ history) second)
        → session.number ≡ second.number → (conn ≡ other) × (one.begin ≡ two.begin) }
    ensures identifiers { (seats conn other : ℕ) (later history : History) (session second : Session) (one : IsSession seats conn history session) (two : IsSession seats other (later ++ history) second)
        → session.number < 2 ^ 32 → session.word < 2 ^ 32 → second.number < 2 ^ 32 → second.word < 2 ^ 32
        → identifier_text session.number session.word ≡ identifier_text second.number second.word → (conn ≡ other) × (one.begin ≡ two.begin) }
{}

/// Which mounts live doesn't go by how they are listed: two lists of them find the same mount by each number, name and owner.
pub fn mounts_are_found_in_any_list()
    ensures numbers { (seats : ℕ) (history : History) (mounts others : List Mount) (number : ℕ) → IsLegal seats history → AreLive seats history mounts → AreLive seats history others
        → numbered number mounts ≡ numbered number others }
    ensures names { (seats : ℕ) (history : History) (mounts others : List Mount) (name : List ℕ) → IsLegal seats history → AreLive seats history mounts → AreLive seats history others
        → named name mounts ≡ named name others }
    ensures owners { (seats : ℕ) (history : History) (mounts others : List Mount) (owner : ℕ) → IsLegal seats history → AreLive seats history mounts → AreLive seats history others
        → owned_by owner mounts ≡ owned_by owner others }
{}

/// In a legal history a connection has one session, whatever lists of mounts it is looked up in: its number, its word, its mount
/// and that mount's name, whether it records, its state, and the channels of its tracks.
pub fn sessions_are_told_once()
    ensures number { (seats conn : ℕ) (history : History) (one other : Session) → IsLegal seats history → IsSession seats conn history one → IsSession seats conn history other → one.number ≡ other.number }
    ensures word { (seats conn : ℕ) (history : History) (one other : Session) → IsLegal seats history → IsSession seats conn history one → IsSession seats conn history other → one.word ≡ other.word }
    ensures mount { (seats conn : ℕ) (history : History) (one other : Session) → IsLegal seats history → IsSession seats conn history one → IsSession seats conn history other → one.mount ≡ other.mount }
    ensures name { (seats conn : ℕ) (history : History) (one other : Session) → IsLegal seats history → IsSession seats conn history one → IsSession seats conn history other → one.name ≡ other.name }
    ensures recording { (seats conn : ℕ) (history : History) (one other : Session) → IsLegal seats history → IsSession seats conn history one → IsSession seats conn history other → one.recording ≡ other.recording }
    ensures state { (seats conn : ℕ) (history : History) (one other : Session) → IsLegal seats history → IsSession seats conn history one → IsSession seats conn history other → one.state ≡ other.state }
    ensures channels { (seats conn : ℕ) (history : History) (one other : Session) → IsLegal seats history → IsSession seats conn history one → IsSession seats conn history other → one.channels ≡ other.channels }
{}

/// A request has one answer, whatever seat it takes: among the mounts that live and with the session that there is, no two
/// replies to it are legal.
pub fn one_reply()
    ensures { (asked : Asked) (given : Given) (one other : Reply) (act behind : Act) → LooksUp asked → IsLegal asked.seats asked.history
        → IsAnswered asked given one act → IsAnswered asked given other behind → one ≡ other }
{}

/// A legal history determines what a request is answered: two answers to it that are legal have one reply, and one act but for
/// the seat, of those that are free, that a PLAY takes. It determines the act of an expiry, too.
pub fn one_answer()
    ensures reply { (seats : ℕ) (history : History) (conn : ℕ) (request : messages.Request) (given : Given) (one other : Reply) (act behind : Act) → IsLegal seats history
        → IsReplyOf seats history conn request given one act → IsReplyOf seats history conn request given other behind → one ≡ other }
    ensures act { (seats : ℕ) (history : History) (conn : ℕ) (request : messages.Request) (given : Given) (one other : Reply) (act behind : Act) → IsLegal seats history
        → IsReplyOf seats history conn request given one act → IsReplyOf seats history conn request given other behind → IsSameAct act behind }
    ensures expiry { (seats : ℕ) (history : History) (conn heard now other later : ℕ) (act behind : Act) → IsLegal seats history → IsExpiry seats history conn heard now act → IsExpiry seats history conn other later behind → act ≡ behind }
{}

/// A request that is well asked of a method passes the first checks, whatever history comes before it, and one that is well asked
/// of none fails one of them, by which it is refused: they begin the list of checks that decides.
pub fn well_asked_requests_pass_the_first_checks()
    ensures passes { (asked : Asked) (method : Method) → IsWellAsked asked.request method → PassesAll asked (first_checks (Some method)) }
    ensures fails { (asked : Asked) → ((method : Method) → IsWellAsked asked.request method → ⊥)
        → (check : Check) × FailsFirst asked (first_checks (method_of asked.request.method)) check × FailsFirst asked (checks_of (method_of asked.request.method)) check }
    ensures first { (method : Option Method) → (others : List Check) × (checks_of method ≡ first_checks method ++ others) }
{}
