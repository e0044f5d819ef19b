//! What a client's requests and frames are to a server, as theorems that call nothing. In a law a number is any number.
//!
//! A legal history has one answer to each request (`session_state::laws::one_answer`), so the reply that stands in it is the one
//! that the server gives.
ghost use Rattle.std.specs.Prelude.{[], ◌≡◌, ◌⊎◌, ◌^◌, ◌<◌, ◌≤◌, ◌++◌, ℕ, List, Option, Some, length, ◌-◌, ◌∷◌, None, true, false, codes};
ghost use Rattle.std.specs.List.{AllByRecursion, concat, flat_map};
ghost use Rattle.rtsp_message.specs.declared.unit.Unit.{Unit as StreamUnit};
ghost use Rattle.rtsp_message.specs.declared.peer.Peer.TheVariants.{Server};
ghost use Rattle.rtsp_message.specs.Stream.{Ending, Reads, ReadsFrom, ReadsPiecesFrom, Waits};
ghost use Rattle.rtsp_message.specs.declared.reply.Reply.{Reply};
ghost use Rattle.rtsp_message.specs.Reply.{code_of};
ghost use Rattle.transport_header.specs.declared.chosen.Chosen.{Chosen};
ghost use Rattle.transport_header.specs.Chosen.{transport_text};
ghost use Rattle.sdp.specs.declared.sections.Sections.{Sections};
ghost use Rattle.sdp.specs.Readings.{Reads as ReadsAs};
ghost use Rattle.sdp.specs.Sections.{AreGood};
ghost use Rattle.sdp.specs.Written.{description_text};
ghost use Rattle.mounts.specs.declared.target.Target.{Target};
ghost use Rattle.mounts.specs.declared.uri.Uri.TheVariants.{At};
ghost use Rattle.mounts.specs.Uri.{IsUri};
ghost use Rattle.request_text.specs.Sending.{CanSend, Sent, sent_text};
ghost use Rattle.request_text.specs.declared.request_text.RequestText.{RequestText};
ghost use Rattle.request_text.specs.Texts.{request_of};
ghost use Rattle.session_state.specs.declared.act.Act.{Act};
ghost use Rattle.session_state.specs.declared.entry.Entry.{Entry};
ghost use Rattle.session_state.specs.declared.entry.Entry.TheVariants.{Request};
ghost use Rattle.session_state.specs.declared.given.Given.{Given};
ghost use Rattle.session_state.specs.declared.session.Session.{Session};
ghost use Rattle.session_state.specs.declared.session.State.{State};
ghost use Rattle.session_state.specs.History.{History};
ghost use Rattle.session_state.specs.Legal.{IsLegal};
ghost use Rattle.session_state.specs.Lookups.{IsSession, sessions_begun};
ghost use Rattle.rtsp_message.specs.Intakes.{IntakeState, fresh};
ghost use Rattle.transport_header.specs.declared.spec.ChannelPair.{ChannelPair};
ghost use Rattle.cursor.specs.Account.{cursor_of};
ghost use Rattle.packet_ring.specs.Views.{Publishing, Subscribing, keep_of, packet_bytes_of};
ghost use Rattle.relay_pass.specs.declared.report.PassReport.{PassReport};
ghost use Rattle.relay_pass.specs.declared.report.StreamEnd.TheVariants.{End as AtEnd};
ghost use Rattle.relay_pass.specs.declared.report.PassStop.TheVariants.{Stream};
ghost use Rattle.relay_pass.specs.Carried.{AreWritten};
ghost use Rattle.relay_pass.specs.Passes.{PassesOn};
ghost use Rattle.rtsp_client.specs.Clients.{State as ClientState, asked_pair};
ghost use Rattle.rtsp_client.specs.Runs.{Event};
ghost use Rattle.rtsp_client.specs.TargetCourse.{Asking, HasAsked, IsAsking};
ghost use Rattle.rtsp_client.specs.declared.ask.Method.TheVariants.{Announce as by_announce, Options as by_options, Record as by_record, SetUp as by_setup, TearDown as by_teardown};
ghost use Rattle.rtsp_client.specs.declared.asked.Asked.TheVariants.{Announce as asked_announce, KeepAlive as asked_keepalive, Record as asked_record, SetUpTarget as asked_setup, TearDown as asked_teardown};
ghost use Rattle.rtsp_client.specs.declared.asked.Side.TheVariants.{Target as TargetSide};
ghost use Rattle.client_laws.specs.Clients.{AreAskedBy, HaveIdentifier, IsMadeOf};
ghost use Rattle.client_laws.specs.Sent.{IsBeginning, ReadsBeginning, frames_sent};
ghost use Rattle.client_laws.specs.Course.{AreAnsweredOk, IsAt, Moves, Publishes, Stage, is_of};
ghost use Rattle.client_laws.specs.Phases.{IsAnnounced, IsFresh, IsInSession, IsRecording, IsSettingUp, IsToldSession};
ghost use Rattle.client_laws.specs.Publishing.{AreNumbered, AsksAnnounce, AsksOptions, AsksRecord, AsksSetup, AsksTeardown, AsksToRecord, CanBePublished, HasPlace, NamesTrack, Publication, track_count, track_transport};

use interleaved::Source;

/// Each frame that a client sends on a track's channel comes out to the player, byte for byte and in order, on the player's
/// channel of that track, and nothing else comes out: the requests between the frames don't.
///
/// It holds if the relay reads all bytes that were sent and no others, and as `relay_pass::laws::what_is_sent_comes_out` says.
pub fn what_a_client_sends_comes_out<S: Source>()
    ensures relayed { (from to : List (Option ChannelPair)) (source : S) (new : IntakeState S) (publisher publisher' : Publishing) (seat seat' : Subscribing) (before after : Option (List ℕ)) (report : PassReport) (items : List Sent)
        → PassesOn S.incoming S.failed from to (fresh source) new publisher publisher' seat seat' before after report
        → AllByRecursion CanSend items
        → S.incoming source ≡ Some (flat_map sent_text items)
        → report.stop ≡ Stream AtEnd
        → cursor_of seat.account ≡ length publisher.log
        → (report.came.published ≤ keep_of publisher.ring) ⊎ (report.went.lost ≡ 0)
        → length publisher'.log < 2 ^ 46
        → AreWritten from to (packet_bytes_of publisher.ring) (frames_sent items) before after }
{}

/// Of what a client sends a reader that has only a beginning of the bytes reads a beginning of the requests and frames; the
/// bytes after them wait, and are no fault. A write that fails leaves such a beginning.
pub fn a_beginning_is_read()
    ensures reads { (items : List Sent) (front more : List ℕ) → AllByRecursion CanSend items → front ++ more ≡ flat_map sent_text items
        → ReadsBeginning items front }
    ensures always { (items : List Sent) (front more : List ℕ) (units : List StreamUnit) (ending : Ending) → AllByRecursion CanSend items → front ++ more ≡ flat_map sent_text items
        → Reads front units ending → IsBeginning items units ending }
{}

/// What a client asks that publishes is accepted: if a connection owns no mount and has no session, and from then on its
/// entries are ANNOUNCE, SETUP of each track in order, RECORD, any number of OPTIONS and TEARDOWN, which can come once a track is
/// set up, each of these requests that is in the history is answered 200, whatever entries of other connections are between. The
/// connection neither hangs up nor has its session expire.
pub fn publishing()
    ensures accepted { (seats conn : ℕ) (publication : Publication) (later start : History) (stage : Stage)
        → CanBePublished publication → IsFresh conn start → IsLegal seats (later ++ start) → Publishes seats conn publication later start stage → AreAnsweredOk conn later }
    ensures reached { (seats conn : ℕ) (publication : Publication) (later start : History) (stage : Stage)
        → CanBePublished publication → IsFresh conn start → IsLegal seats (later ++ start) → Publishes seats conn publication later start stage
        → IsAt seats conn publication (later ++ start) stage }
{}

/// What a client of `rtsp_client` asks its target for is accepted by a relay: whatever happened to the client, if its requests are made by
/// `client_requests` of what it asks for, in the session that the first reply to SETUP gave it, and the entries of its connection are these
/// requests, each is answered 200. It holds if the publication has as many tracks as the client has set up, and the relay has room for
/// the mount at ANNOUNCE and for a session at the first SETUP.
pub fn what_a_client_asks()
    ensures accepted { (seats conn : ℕ) (publication : Publication) (events : List Event) (askings : List Asking) (client : ClientState) (id : List ℕ) (later start : History)
        → CanBePublished publication → IsFresh conn start → IsLegal seats (later ++ start)
        → HasAsked events askings client → track_count publication ≡ client.place.kept → HaveIdentifier id askings
        → AreAskedBy seats conn publication id later start askings → AreAnsweredOk conn later }
    ensures course { (seats conn : ℕ) (publication : Publication) (events : List Event) (askings : List Asking) (client : ClientState) (id : List ℕ) (later start : History)
        → CanBePublished publication → HasAsked events askings client → track_count publication ≡ client.place.kept → HaveIdentifier id askings
        → AreAskedBy seats conn publication id later start askings → (stage : Stage) × Publishes seats conn publication later start stage }
{}

/// A request that `client_requests` makes of what a client asks its target for is the one that the course has: at the publication's URI,
/// with its description, and with the Session header of the client. SETUP goes to the track's URI and asks to record.
pub fn requests()
    ensures announce { (publication : Publication) (asking : Asking) (request : RequestText) → IsMadeOf publication asking request
        → IsAsking asked_announce by_announce None asking → AsksAnnounce publication request }
    ensures set_up { (publication : Publication) (asking : Asking) (request : RequestText) (track : ℕ) (session : Option (List ℕ)) → IsMadeOf publication asking request → track < 16
        → IsAsking asked_setup (by_setup track (asked_pair track)) session asking → AsksSetup publication track session request }
    ensures record_frames { (publication : Publication) (asking : Asking) (request : RequestText) (session : Option (List ℕ)) → IsMadeOf publication asking request
        → IsAsking asked_record by_record session asking → AsksRecord publication session request }
    ensures keep_alive { (publication : Publication) (asking : Asking) (request : RequestText) (session : Option (List ℕ)) → IsMadeOf publication asking request
        → IsAsking (asked_keepalive TargetSide) by_options session asking → AsksOptions publication session request }
    ensures tear_down { (publication : Publication) (asking : Asking) (request : RequestText) (session : Option (List ℕ)) → IsMadeOf publication asking request
        → IsAsking (asked_teardown TargetSide) by_teardown session asking → AsksTeardown publication session request }
{}

/// ANNOUNCE of a connection that owns no mount and has no session is answered 200, where the server has a place for the mount.
pub fn announce()
    ensures { (seats conn : ℕ) (publication : Publication) (history : History) (request : RequestText) (given : Given) (reply : Reply) (act : Act)
        → CanBePublished publication → IsLegal seats (Request conn (request_of request) given reply act ∷ history) → IsFresh conn history
        → HasPlace seats history publication.target.path → AsksAnnounce publication request → code_of reply.status ≡ 200 }
{}

/// SETUP of a track of the mount that was announced is answered 200: the first, without a Session field, where a session's
/// number is left, and each other with the field that the client was told. The tracks' order doesn't count.
pub fn set_up()
    ensures first { (seats conn : ℕ) (publication : Publication) (history : History) (request : RequestText) (given : Given) (reply : Reply) (act : Act) (track : ℕ)
        → CanBePublished publication → IsLegal seats (Request conn (request_of request) given reply act ∷ history) → IsAnnounced conn publication history
        → track < track_count publication → sessions_begun history < 2 ^ 32 - 1 → AsksSetup publication track None request → code_of reply.status ≡ 200 }
    ensures next { (seats conn : ℕ) (publication : Publication) (history : History) (request : RequestText) (given : Given) (reply : Reply) (act : Act) (track : ℕ) (told : Option (List ℕ))
        → CanBePublished publication → IsLegal seats (Request conn (request_of request) given reply act ∷ history) → IsSettingUp seats conn publication told history
        → track < track_count publication → AsksSetup publication track told request → code_of reply.status ≡ 200 }
{}

/// RECORD is answered 200 once a track is set up.
pub fn recording()
    ensures { (seats conn : ℕ) (publication : Publication) (history : History) (request : RequestText) (given : Given) (reply : Reply) (act : Act) (told : Option (List ℕ))
        → CanBePublished publication → IsLegal seats (Request conn (request_of request) given reply act ∷ history) → IsSettingUp seats conn publication told history
        → AsksRecord publication told request → code_of reply.status ≡ 200 }
{}

/// OPTIONS is answered 200 while the session records.
pub fn keep_alive()
    ensures { (seats conn : ℕ) (publication : Publication) (history : History) (request : RequestText) (given : Given) (reply : Reply) (act : Act) (told : Option (List ℕ))
        → CanBePublished publication → IsLegal seats (Request conn (request_of request) given reply act ∷ history) → IsRecording seats conn publication told history
        → AsksOptions publication told request → code_of reply.status ≡ 200 }
{}

/// TEARDOWN is answered 200 while the session records, and once a track is set up (RFC 2326, A.2: Ready).
pub fn tear_down()
    ensures recording { (seats conn : ℕ) (publication : Publication) (history : History) (request : RequestText) (given : Given) (reply : Reply) (act : Act) (told : Option (List ℕ))
        → CanBePublished publication → IsLegal seats (Request conn (request_of request) given reply act ∷ history) → IsRecording seats conn publication told history
        → AsksTeardown publication told request → code_of reply.status ≡ 200 }
    ensures ready { (seats conn : ℕ) (publication : Publication) (history : History) (request : RequestText) (given : Given) (reply : Reply) (act : Act) (told : Option (List ℕ))
        → CanBePublished publication → IsLegal seats (Request conn (request_of request) given reply act ∷ history) → IsSettingUp seats conn publication told history
        → AsksTeardown publication told request → code_of reply.status ≡ 200 }
{}

/// A client that sets up or records has the session that it was told, of its mount and to record, and no other.
pub fn sessions()
    ensures { (seats conn : ℕ) (publication : Publication) (history : History) (told : Option (List ℕ)) (state : State) (session : Session) → (phase : IsInSession seats conn publication told state history)
        → IsSession seats conn history session → IsToldSession publication phase.owns.number told state session }
{}

/// An entry of another connection leaves a client at its stage.
pub fn others()
    ensures { (seats conn : ℕ) (publication : Publication) (history : History) (entry : Entry) (stage : Stage)
        → is_of conn entry ≡ false → IsAt seats conn publication history stage → IsAt seats conn publication (entry ∷ history) stage }
{}

/// A request of the course leads from its stage to the next.
pub fn steps()
    ensures { (seats conn : ℕ) (publication : Publication) (history : History) (request : RequestText) (given : Given) (reply : Reply) (act : Act) (from to : Stage)
        → CanBePublished publication → IsLegal seats (Request conn (request_of request) given reply act ∷ history) → IsAt seats conn publication history from
        → Moves seats conn publication history from request reply to → IsAt seats conn publication (Request conn (request_of request) given reply act ∷ history) to }
{}

/// A Transport field as `put_transport` writes it, of a session that records, asks to record.
pub fn transports()
    ensures { (chosen : Chosen) → chosen.rtp < 256 → chosen.rtcp < 256 → chosen.recording ≡ true → AsksToRecord (transport_text chosen) }
{}

/// The Transport field of each of 16 tracks, on the channels 2k and 2k + 1, asks to record.
pub fn track_transports()
    ensures { (track : ℕ) → track < 16 → AsksToRecord (track_transport track) }
{}

/// What `sdp` writes of a description is read as tracks with the controls `trackID=0`, `trackID=1` and so on.
pub fn descriptions()
    ensures { (old new : Sections) → AreGood old → 0 < length old.tracks → ReadsAs (description_text old) new → AreNumbered 0 new.tracks }
{}

/// A worked URL: `rtsp://192.0.2.7/cam` names the path `cam`, and the URIs of its tracks name them.
pub fn rows()
    ensures uri { (target : Target) × IsUri (codes "rtsp://192.0.2.7/cam") (At target) × (target.path ≡ codes "cam") × (target.query ≡ None) }
    ensures tracks { (publication : Publication) (track : ℕ) → publication.uri ≡ codes "rtsp://192.0.2.7/cam" → publication.target.path ≡ codes "cam" → track < 16 → NamesTrack publication track }
{}

/// What a server sends reads in one way: its replies, requests and frames, the bytes that wait and the fault are determined, and
/// whatever the pieces are that its bytes come in, they read as in one piece.
pub fn a_server_is_read_in_one_way()
    ensures units { (stream : List ℕ) (us vs : List StreamUnit) (d e : Ending) → ReadsFrom Server stream us d → ReadsFrom Server stream vs e → us ≡ vs }
    ensures ending { (stream : List ℕ) (us vs : List StreamUnit) (d e : Ending) → ReadsFrom Server stream us d → ReadsFrom Server stream vs e → d ≡ e }
    ensures pieces { (pieces : List (List ℕ)) (units : List StreamUnit) (e : Ending) → ReadsPiecesFrom Server (Waits []) pieces units e → ReadsFrom Server (concat pieces) units e }
{}
