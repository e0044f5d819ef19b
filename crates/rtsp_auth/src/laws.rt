//! What the definitions of this crate mean, as theorems that call nothing.
ghost use Rattle.std.specs.Prelude.{◌≡◌, ◌≢◌, ◌+◌, ◌++◌, ℕ, List, [], Some, None, true, false, codes};
ghost use Rattle.std.specs.List.{AllByRecursion, flat_map, join_with_byte};
ghost use Rattle.rtsp_auth.specs.declared.answer.Answer.TheVariants as answers;
ghost use Rattle.rtsp_auth.specs.declared.answer.DigestAnswer.{DigestAnswer};
ghost use Rattle.rtsp_auth.specs.declared.attempt.Attempt.{Attempt};
ghost use Rattle.rtsp_auth.specs.declared.challenge.Challenge.{Challenge};
ghost use Rattle.rtsp_auth.specs.declared.challenge.Challenge.TheVariants as challenges;
ghost use Rattle.rtsp_auth.specs.declared.challenge.DigestChallenge.{DigestChallenge};
ghost use Rattle.rtsp_auth.specs.declared.credentials.Credentials.{Credentials};
ghost use Rattle.rtsp_auth.specs.declared.item.Item.{Item};
ghost use Rattle.rtsp_auth.specs.declared.request.Request.{Request};
ghost use Rattle.rtsp_auth.specs.Answers.{quoted_byte};
ghost use Rattle.rtsp_auth.specs.Attempts.{answer_after, answered, begun, count_of, field_text, is_answered, is_open, next_answer, one_more, sent_once_more};
ghost use Rattle.rtsp_auth.specs.Choices.{chosen, first_digest, has_basic};
ghost use Rattle.rtsp_auth.specs.Clean.{IsClean};
ghost use Rattle.rtsp_auth.specs.Commas.{ArePieces};
ghost use Rattle.rtsp_auth.specs.Digest.{count_text};
ghost use Rattle.rtsp_auth.specs.First.{IsFirstDigest};
ghost use Rattle.rtsp_auth.specs.Items.{field_items, fields_items};
ghost use Rattle.rtsp_auth.specs.Pieces.{pieces};
ghost use Rattle.rtsp_auth.specs.Credentials.{is_home};
ghost use Rattle.rtsp_auth.specs.Trials.{Event, steps};
ghost use Rattle.rtsp_auth.specs.Values.{unquoted};
ghost use Rattle.rtsp_auth.specs.Written.{HasNoControl, IsBare, IsPart, IsToken, Part, part_items, parts_text};

/// A challenge of Digest is chosen if it is the first that can be answered, and no other is. Basic is chosen only if no challenge of
/// Digest can be answered.
pub fn choosing()
    ensures first { (all : List Item) (challenge : DigestChallenge)
        → chosen all ≡ Some (challenges.Digest challenge) → IsFirstDigest all challenge }
    ensures only { (all : List Item) (challenge : DigestChallenge)
        → IsFirstDigest all challenge → chosen all ≡ Some (challenges.Digest challenge) }
    ensures basic { (all : List Item) → chosen all ≡ Some challenges.Basic → first_digest all ≡ None }
{}

/// The pieces of a field have no comma left outside of quoted strings, each but the last closes its quoted strings, and joined by
/// commas they are the field. No other list of pieces is so.
pub fn cutting()
    ensures uncut { (text : List ℕ) → ArePieces (pieces text) }
    ensures joined { (text : List ℕ) → join_with_byte 44 (pieces text) ≡ text }
    ensures only { (others : List (List ℕ)) → ArePieces others → pieces (join_with_byte 44 others) ≡ others }
{}

/// A value that is written as a quoted string is read as it was, if it has no control character.
pub fn quoted()
    ensures { (value : List ℕ) → HasNoControl value → unquoted (flat_map quoted_byte value ++ codes "\"") ≡ Some value }
{}

/// What a server writes is read: challenges whose parameters have quoted strings or texts without quotes as their values, with commas
/// between them, and blanks at the commas. A value is read without the quotes and backslashes of its quoted string. A text without quotes is
/// read as it is, with the blanks in it; each token is such a text.
pub fn reading()
    ensures parts { (parts : List Part) → AllByRecursion IsPart parts → field_items (parts_text parts) ≡ flat_map part_items parts }
    ensures tokens { (value : List ℕ) → IsToken value → IsBare value }
{}

/// What an answer repeats of a challenge has no control character. So no server makes a client send a line of its own.
pub fn kept()
    ensures { (fields : List (List ℕ)) (challenge : DigestChallenge)
        → chosen (fields_items fields) ≡ Some (challenges.Digest challenge) → IsClean challenge }
{}

/// A request gets one answer to a 401 at most, whatever comes between: however often it is sent again, and whatever challenges other 401
/// bring for it. The next request that begins gets one again. A nonce that is refused isn't answered again, unless the server says that
/// it is stale.
pub fn trying()
    ensures once { (attempt : Attempt) (first next : Challenge) (credentials : Credentials) (request : Request) (events : List Event)
        → is_answered (steps (answered attempt first) credentials request events) next credentials request ≡ false }
    ensures again { (attempt : Attempt) (sent : DigestAnswer) (challenge : DigestChallenge) (credentials : Credentials) (request : Request)
        → attempt.answer ≡ answers.Digest sent → sent.challenge.nonce ≢ challenge.nonce
        → is_answered (begun attempt) (challenges.Digest challenge) credentials request ≡ true }
    ensures same_nonce { (sent : DigestAnswer) (challenge : DigestChallenge)
        → challenge.is_stale ≡ false → sent.challenge.nonce ≡ challenge.nonce
        → is_open (answers.Digest sent) (challenges.Digest challenge) ≡ false }
{}

/// Basic is neither answered nor written for another host than that of the credentials.
pub fn redirected()
    ensures answered { (attempt : Attempt) (credentials : Credentials) (request : Request)
        → is_home credentials request ≡ false → is_answered attempt challenges.Basic credentials request ≡ false }
    ensures written { (credentials : Credentials) (request : Request) (cnonce : List ℕ)
        → is_home credentials request ≡ false → field_text answers.Basic credentials request cnonce ≡ [] }
{}

/// The count of a request is how many were sent with its nonce, itself included: 1 for the first one with a nonce. It is written in eight
/// hexadecimal digits. The counts of the last nonce and of the one before it are kept. So nc of a nonce doesn't repeat if the server gives
/// the nonce again, and one other in between. A nonce that comes back after two others counts from 1, as a new one does.
pub fn counting()
    ensures first { (challenge : DigestChallenge)
        → sent_once_more (answer_after answers.Nothing (challenges.Digest challenge))
        ≡ answers.Digest (record { challenge = challenge; count = 1; before = None }) }
    ensures raised { (sent : DigestAnswer) → count_of (one_more sent) sent.challenge.nonce ≡ count_of sent sent.challenge.nonce + 1 }
    ensures others { (sent : DigestAnswer) (nonce : List ℕ) → sent.challenge.nonce ≢ nonce → count_of (one_more sent) nonce ≡ count_of sent nonce }
    ensures goes_on { (sent : DigestAnswer) (challenge : DigestChallenge) → (next_answer sent challenge).count ≡ count_of sent challenge.nonce }
    ensures last { (sent : DigestAnswer) (challenge : DigestChallenge) → count_of (next_answer sent challenge) sent.challenge.nonce ≡ sent.count }
    ensures back { (sent : DigestAnswer) (other again : DigestChallenge) (times : ℕ)
        → sent.challenge.nonce ≢ other.nonce → again.nonce ≡ sent.challenge.nonce
        → (next_answer (record (next_answer sent other) { count = times }) again).count ≡ sent.count }
    ensures one { count_text 1 ≡ codes "00000001" }
    ensures more { count_text 4095 ≡ codes "00000fff" }
{}
