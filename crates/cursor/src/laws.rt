//! What holds of each legal history and each attachment in it.

ghost use Rattle.std.specs.Prelude.{◌≡◌, ◌+◌, ◌<◌, ◌≤◌, ◌==◌, ◌∷◌, ◌++◌, [], ℕ, List, Some};
ghost use Rattle.std.specs.Prelude.{length, count_by, slice_get, slice_range};
ghost use Rattle.std.specs.List.Sorted.{IsStrictlyIncreasing};
ghost use Rattle.cursor.specs.declared.takes.Left.{Left};
ghost use Rattle.cursor.specs.Log.{Log, Event, LegalHistory, attached_at, detached_with, empty_log};
ghost use Rattle.cursor.specs.Account.{Attachment, StaysAttached, account_of, cursor_of, lies_in, losses};
ghost use Rattle.cursor.specs.Account.{lost, positions, received, takes_of, without};
ghost use Rattle.cursor.specs.Player.{PlayersReceive};
ghost use Rattle.cursor.specs.Plain.{Plain, PlainRun, HasAccount, empty_plain, log_of};

/// The cursor of an attached seat is its start, the packets that it took and those that it lost.
pub fn cursor_adds_up()
    ensures { (keep seats seat back start : ℕ) (before during : List Event) (log : Log)
        → Attachment keep seats seat back start before during log
        → let account = account_of start (takes_of seat during) in
        slice_get log.cursors seat ≡ Some (Some (cursor_of account)) }
{}

/// The numbers of the packets that a seat took rise.
pub fn positions_rise()
    ensures { (keep seats seat back start : ℕ) (before during : List Event) (log : Log)
        → Attachment keep seats seat back start before during log
        → IsStrictlyIncreasing (positions (takes_of seat during)) }
{}

/// Each number from the start on that is below the cursor is a position or lies in one loss, and not in
/// both, nor twice.
pub fn each_number_once()
    ensures { (keep seats seat back start : ℕ) (before during : List Event) (log : Log)
        → Attachment keep seats seat back start before during log
        → let answers = takes_of seat during in
        (n : ℕ) → start ≤ n → n < cursor_of (account_of start answers)
        → count_by (λ m. m == n) (positions answers) + count_by (lies_in n) (losses start answers) ≡ 1 }
{}

/// What a seat received is the log from its start to its cursor, in order, without the lost numbers.
pub fn received_in_order()
    ensures { (keep seats seat back start : ℕ) (before during : List Event) (log : Log)
        → Attachment keep seats seat back start before during log
        → let answers = takes_of seat during in
        let cursor = cursor_of (account_of start answers) in
        received answers ≡ without (losses start answers) start (slice_range log.packets start cursor) }
{}

/// In a legal history each attachment gives its seat, in order, the log from its start less exactly its
/// losses, and no take of a seat stands between its detachment and its next attachment, or before the
/// first one.
pub fn players_receive_the_log()
    ensures { (keep seats : ℕ) (events : List Event) (log : Log)
        → LegalHistory keep seats events log
        → PlayersReceive keep events log.packets }
{}

/// A new plain log is the empty log.
pub fn new_is_empty()
    ensures { (keep seats packet_bytes : ℕ)
        → log_of (empty_plain keep seats packet_bytes) ≡ empty_log seats }
{}

/// What a plain log keeps of an attached seat is the account of its takes since it was attached.
pub fn accounts_are_received()
    ensures { (seat back start : ℕ) (during : List Event) (old new : Plain)
        → PlainRun old (attached_at seat back start ∷ during) new
        → StaysAttached seat during
        → HasAccount new seat (account_of start (takes_of seat during)) }
{}

/// A detachment tells the packets that were taken and lost since the seat was attached.
pub fn left_is_received()
    ensures { (seat back start : ℕ) (during : List Event) (left : Left) (old new : Plain)
        → PlainRun old (attached_at seat back start ∷ during ++ detached_with seat left ∷ []) new
        → StaysAttached seat during
        → let answers = takes_of seat during in
        (left.taken ≡ length (received answers)) × (left.lost ≡ lost answers) }
{}
