//! What holds of each single step, whoever makes it.

ghost use Rattle.std.specs.Prelude.{◌≡◌, ◌↔◌, ◌<◌, ◌≤◌, ◌+◌, ℕ, false, List, Some, length, replicate};
ghost use Rattle.cursor.specs.declared.calls.Answer.TheVariants.{Refused};
ghost use Rattle.ring_steps.specs.declared.calls.Observed.{Observed};
ghost use Rattle.ring_steps.specs.declared.calls.PublisherCall.{PublisherCall};
ghost use Rattle.ring_steps.specs.declared.calls.PublisherCall.TheVariants.{Publish};
ghost use Rattle.ring_steps.specs.declared.calls.SeatCall.{SeatCall};
ghost use Rattle.ring_steps.specs.declared.calls.SeatCall.TheVariants.{Take};
ghost use Rattle.ring_steps.specs.declared.views.PublisherPhase.TheVariants as publishing;
ghost use Rattle.ring_steps.specs.declared.views.Seat.{Seat};
ghost use Rattle.ring_steps.specs.declared.views.SeatPhase.TheVariants as seating;
ghost use Rattle.ring_steps.specs.declared.words.Slot.{Slot};
ghost use Rattle.ring_steps.specs.Ring.{AreFresh, State, cursor, empty_ring, new_ring, place, slot, with_new_seat};
ghost use Rattle.ring_steps.specs.Moves.{IsCellOf, ReadsInPlace, Steps, part_seen, read_all, rest_of, write_all};
ghost use Rattle.ring_steps.specs.RingSteps.{AllSeeOn, By, Cell, ChangesAlone, HeldStay, ReadStep, RingStep, SoundStep, by_publisher, by_seat};
ghost use Rattle.ring_steps.specs.Step.{Outcome, attach, detach, first_load, second_load, pin, unpin, unpin_failed, read_length, read_byte, begin, write_length, write_byte, finish, append, close};
ghost use Rattle.ring_steps.specs.Answers.{PublisherTells, SeatTells};
ghost use Rattle.ring_steps.specs.Runs.{At, Calls, Ran, Turn, start};
ghost use Rattle.ring_steps.specs.Slots.{Grows, Invariant, IsNextFor, PublisherIs, SawPins, SeatHolds, SeatIs, SlotInvariant, Stands};

/// The empty ring has the invariant, whatever the length cells and the bytes of its slots are.
pub fn empty_ring_is_sound()
    ensures zeroed { (keep seats : ℕ) → 1 ≤ keep → Invariant (empty_ring keep seats) }
    ensures any { (keep seats : ℕ) (slots : List Slot) → 1 ≤ keep → AreFresh keep slots → Invariant (new_ring keep seats slots) }
{}

/// A ring with one seat more has the invariant too.
pub fn one_seat_more_is_sound()
    ensures { (s : State) → Invariant s → Invariant (with_new_seat s) }
{}

/// Each kind of load keeps the invariant: of an attachment, a detachment, and a take's two.
pub fn loads_keep_the_invariant()
    ensures attach { (s : State) (i : ℕ) (x : Seat) (back : ℕ) → SeatIs seating.Out s i x → Invariant (attach s i x back).state }
    ensures detach { (s : State) (i : ℕ) (x : Seat) → SeatIs seating.Between s i x → Invariant (detach s i x).state }
    ensures first { (s : State) (i : ℕ) (x : Seat) → SeatIs seating.Between s i x → Invariant (first_load s i x).state }
    ensures second { (s : State) (i : ℕ) (x : Seat) → SeatIs seating.Missed s i x → Invariant (second_load s i x).state }
{}

/// A pin keeps the invariant, whether it holds or fails.
pub fn pin_keeps_the_invariant()
    ensures { (s : State) (i : ℕ) (x : Seat) → SeatIs seating.Found s i x → Invariant (pin s i x).state }
{}

/// An unpin keeps the invariant, after a pin that held and after one that failed.
pub fn unpin_keeps_the_invariant()
    ensures held { (s : State) (i : ℕ) (x : Seat) → SeatIs seating.Reading s i x → Invariant (unpin s i x).state }
    ensures failed { (s : State) (i : ℕ) (x : Seat) → SeatIs seating.Failed s i x → Invariant (unpin_failed s i x).state }
{}

/// A read of a length cell or of one byte keeps the invariant.
pub fn reads_keep_the_invariant()
    ensures len { (s : State) (i : ℕ) (x : Seat) → SeatIs seating.Holding s i x → Invariant (read_length s i x).state }
    ensures byte { (s : State) (i : ℕ) (x : Seat) → SeatIs seating.Reading s i x → length x.read < x.length → Invariant (read_byte s i x).state }
{}

/// A begin keeps the invariant, whether the exchange is made or fails.
pub fn begin_keeps_the_invariant()
    ensures { (s : State) (p : List ℕ) → PublisherIs publishing.Between s → s.publisher.closed ≡ false → Invariant (begin s p).state }
{}

/// A write of a length cell or of one byte keeps the invariant.
pub fn writes_keep_the_invariant()
    ensures len { (s : State) → PublisherIs publishing.Begun s → Invariant (write_length s).state }
    ensures byte { (s : State) → PublisherIs publishing.Filling s → s.publisher.written < length s.publisher.packet → Invariant (write_byte s).state }
{}

/// A finish keeps the invariant, once all bytes are written.
pub fn finish_keeps_the_invariant()
    ensures { (s : State) → PublisherIs publishing.Filling s → length s.publisher.packet ≤ s.publisher.written → Invariant (finish s).state }
{}

/// An append keeps the invariant.
pub fn append_keeps_the_invariant()
    ensures { (s : State) → PublisherIs publishing.Finished s → Invariant (append s).state }
{}

/// A close keeps the invariant.
pub fn close_keeps_the_invariant()
    ensures { (s : State) → PublisherIs publishing.Between s → Invariant (close s).state }
{}

/// So each step keeps it, whoever makes it: the publisher or a seat within a call, a seat between two
/// calls by a load alone, or a seat that reads its packet in place.
pub fn steps_keep_the_invariant()
    ensures { (s : State) (by : By) (o : Outcome) → SoundStep s by o → Invariant o.state }
{}

/// Over a step the head's length and the slots' numbers never fall, the closed bit is never cleared, and
/// the log only grows at its end.
pub fn nothing_falls()
    ensures { (s : State) (by : By) (o : Outcome) → SoundStep s by o → Grows s o.state }
{}

/// A step changes its own actor's view alone: a seat's leaves other seats' views, the publisher's, the
/// head, the log, and all other slots; one of the publisher leaves the seats' views, all other slots,
/// and but for an append and a close the head and the log.
pub fn steps_change_their_own_view()
    ensures { (s : State) (by : By) (o : Outcome) → RingStep s by o → ChangesAlone by s o }
{}

/// What a seat has seen only grows: over any step, whoever makes it, the log that the seat saw begins
/// the one that it saw later, and is that one where it saw the closed bit.
pub fn seen_only_grows()
    ensures { (s : State) (by : By) (o : Outcome) → SoundStep s by o → AllSeeOn s o.state }
{}

/// Over any step, whoever makes it, a slot that a seat holds keeps its length cell and its bytes.
pub fn held_slots_stay()
    ensures { (s : State) (by : By) (o : Outcome) → SoundStep s by o → HeldStay s o.state }
{}

/// A refused publish saw as many pins as seats stand between their pin and unpin in that slot: at least
/// one, and at most all.
pub fn refused_means_pins()
    ensures { (s : State) (p : List ℕ) (o : Outcome) → SoundStep s (by_publisher (Publish p)) o → o.answer ≡ Some Refused → SawPins s o.saw }
{}

/// A seat whose pin holds finds the packet at its cursor in the slot, with its own length and bytes.
pub fn holder_finds_its_packet()
    ensures { (s : State) (i : ℕ) (x : Seat) → SeatHolds s i x → Stands s.log (cursor x) (slot s (place s (cursor x))) }
{}

/// A seat that holds its packet may read it in place: the length and the bytes, in whatever number and
/// order. Such reads change no word, no view and nothing else, and see the packet.
pub fn reads_in_place_change_nothing()
    ensures nothing { (s : State) (i : ℕ) (cells : List Cell) (seen : List Observed) (t : State) → ReadsInPlace s i cells seen t → t ≡ s }
    ensures packet { (s : State) (i : ℕ) (x : Seat) (p : List ℕ) (cell : Cell) (o : Outcome) → SeatHolds s i x → IsNextFor s x p → IsCellOf p cell
        → ReadStep s i cell o → o.saw ≡ part_seen p cell }
{}

/// A take's own reads change how far it has read, and neither a word nor anything else of a view; and of
/// that the slot invariant doesn't speak.
pub fn reads_change_their_progress_alone()
    ensures invariant { (s : State) → SlotInvariant s ↔ SlotInvariant (rest_of s) }
    ensures len { (s : State) (i : ℕ) (x : Seat) → SeatIs seating.Holding s i x → rest_of (read_length s i x).state ≡ rest_of s }
    ensures byte { (s : State) (i : ℕ) (x : Seat) → SeatIs seating.Reading s i x → rest_of (read_byte s i x).state ≡ rest_of s }
{}

/// Between begin and finish the publisher may write the length and all bytes in one move, to which its
/// single writes lead.
pub fn all_is_written_in_one_move()
    ensures kept { (s : State) → PublisherIs publishing.Begun s → Invariant (write_all s) }
    ensures steps { (s : State) → PublisherIs publishing.Begun s
        → let p = s.publisher.packet in Steps s (replicate (length p + 1) (by_publisher (Publish p))) (write_all s) }
{}

/// Between pin and unpin a seat may read the length and all bytes of its packet in one move, to which its
/// single reads lead.
pub fn all_is_read_in_one_move()
    ensures kept { (s : State) (i : ℕ) (x : Seat) (p : List ℕ) → SeatIs seating.Holding s i x → IsNextFor s x p → Invariant (read_all s i x p) }
    ensures steps { (s : State) (i : ℕ) (x : Seat) (p : List ℕ) → SeatIs seating.Holding s i x → IsNextFor s x p
        → Steps s (replicate (length p + 1) (by_seat i Take)) (read_all s i x p) }
{}

/// Each answer is an event of the broadcast log: of the publisher at this step, and of a seat as its last
/// load saw the log, which for a packet is the take's first load and for every other answer this
/// step's own. A step without an answer leaves the log and all cursors as they are.
pub fn answers_are_log_events()
    ensures seat { (s : State) (i : ℕ) (call : SeatCall) (o : Outcome) → SoundStep s (by_seat i call) o → SeatTells s i call o.answer o.state }
    ensures publisher { (s : State) (call : PublisherCall) (o : Outcome) → SoundStep s (by_publisher call) o → PublisherTells s call o.answer o.state }
{}

/// Whatever the script and the schedule, a run from the empty ring leads to a state that has the
/// invariant; and so do all states on the way, to which its beginnings lead.
pub fn runs_keep_the_invariant()
    ensures { (script : Calls) (keep seats : ℕ) (turns : List Turn) (end : At) → 1 ≤ keep → Ran script (start keep seats) turns end → Invariant end.ring }
{}

/// Once the actor and its call are named, a step has no choice: the state after it, what it sees and
/// what it answers are determined.
pub fn steps_have_no_choice()
    ensures { (s : State) (by : By) (o p : Outcome) → RingStep s by o → RingStep s by p → o ≡ p }
{}
