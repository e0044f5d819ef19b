//! The words as numbers of 64 bits, and what each atomic operation does to them.

ghost use Rattle.std.specs.Prelude.{◌≡◌, ◌↔◌, ◌<◌, ◌≤◌, ◌+◌, ◌-◌, ◌*◌, ◌/◌, ◌%◌, ◌^◌, ℕ, List, true, length};
ghost use Rattle.ring_steps.specs.declared.views.PublisherPhase.TheVariants as publishing;
ghost use Rattle.ring_steps.specs.declared.views.Seat.{Seat};
ghost use Rattle.ring_steps.specs.declared.views.SeatPhase.TheVariants as seating;
ghost use Rattle.ring_steps.specs.declared.words.Head.{Head};
ghost use Rattle.ring_steps.specs.declared.words.Word.{Word};
ghost use Rattle.ring_steps.specs.Bits.{bit, head_bits, known_word, word_bits};
ghost use Rattle.ring_steps.specs.Ring.{State, cursor, floor, place, word};
ghost use Rattle.ring_steps.specs.Slots.{Invariant, PublisherIs, SeatIs};
ghost use Rattle.ring_steps.specs.Step.{append, begin, close, finish, is_known, next_place, pin, unpin, unpin_failed};

/// A pin adds 1 to the word of its slot, and an unpin takes 1 from it.
pub fn pins_count_by_one()
    ensures pin { (s : State) (i : ℕ) (x : Seat) → SeatIs seating.Found s i x
        → let j = place s (cursor x) in word_bits (word (pin s i x).state j) ≡ word_bits (word s j) + 1 }
    ensures unpin { (s : State) (i : ℕ) (x : Seat) → SeatIs seating.Reading s i x
        → let j = place s (cursor x) in word_bits (word (unpin s i x).state j) + 1 ≡ word_bits (word s j) }
    ensures failed { (s : State) (i : ℕ) (x : Seat) → SeatIs seating.Failed s i x
        → let j = place s (cursor x) in word_bits (word (unpin_failed s i x).state j) + 1 ≡ word_bits (word s j) }
{}

/// A begin is one exchange: it is made exactly where the word's bits are those that the publisher knows,
/// and adds the writing bit.
pub fn begin_is_one_exchange()
    ensures where_ { (s : State) (w : Word) → w.pins < 2 ^ 16 → (is_known s w ≡ true) ↔ (word_bits w ≡ word_bits (known_word s)) }
    ensures new { (s : State) (p : List ℕ) → PublisherIs publishing.Between s → is_known s (word s (next_place s)) ≡ true
        → word_bits (word (begin s p).state (next_place s)) ≡ word_bits (known_word s) + 2 ^ 16 }
{}

/// A finish is one addition, which depends on the log's length alone: it clears the writing bit, raises
/// the number to that of the pending packet, and leaves the pins.
pub fn finish_is_one_addition()
    ensures { (s : State) → PublisherIs publishing.Filling s
        → let h = length s.log in
        word_bits (word (finish s).state (next_place s)) ≡ word_bits (word s (next_place s)) + (2 ^ 17 * (h + 1 - floor s h) - 2 ^ 16) }
{}

/// An append stores the next length, and a close adds the closed bit.
pub fn stores_of_the_head()
    ensures append { (s : State) → head_bits (append s).state.head ≡ 2 * (length s.log + 1) }
    ensures close { (s : State) → head_bits (close s).state.head ≡ 2 * length s.log + 1 }
{}

/// The bits of two words are equal exactly where the words are.
pub fn bits_tell_words_apart()
    ensures words { (v w : Word) → v.pins < 2 ^ 16 → w.pins < 2 ^ 16 → (word_bits v ≡ word_bits w) ↔ (v ≡ w) }
    ensures heads { (g h : Head) → (head_bits g ≡ head_bits h) ↔ (g ≡ h) }
{}

/// So bits are read in one way.
pub fn bits_are_read_in_one_way()
    ensures pins { (w : Word) → w.pins < 2 ^ 16 → word_bits w % 2 ^ 16 ≡ w.pins }
    ensures writing { (w : Word) → w.pins < 2 ^ 16 → word_bits w / 2 ^ 16 % 2 ≡ bit w.writing }
    ensures number { (w : Word) → w.pins < 2 ^ 16 → word_bits w / 2 ^ 17 ≡ w.number }
    ensures closed { (h : Head) → head_bits h % 2 ≡ bit h.closed }
    ensures len { (h : Head) → head_bits h / 2 ≡ h.length }
{}

/// All words of a ring with at most 1,024 seats and 2^46 packets are below 2^64, and no slot has more
/// pins than seats.
pub fn words_fit()
    ensures word { (s : State) (j : ℕ) → Invariant s → length s.seats ≤ 1024 → length s.log ≤ 2 ^ 46 → j ≤ s.keep → word_bits (word s j) < 2 ^ 64 }
    ensures head { (s : State) → Invariant s → length s.log ≤ 2 ^ 46 → head_bits s.head < 2 ^ 64 }
    ensures pins { (s : State) (j : ℕ) → Invariant s → j ≤ s.keep → (word s j).pins ≤ length s.seats }
{}
