//! How the words change that threads wake each other by.
ghost use Rattle.std.specs.Prelude.{◌≡◌, ◌↔◌, ◌+◌, ◌<◌, ◌^◌, IsTrue};
ghost use Rattle.waking.specs.Words.{next_of};

/// Nothing was marked since the marks were last taken.
pub const NO_MARKS: u64 = 0;

/// A word that changes once more: the marks of a mount, how often its players were woken, and what writers sleep on. A word of
/// 64 bits is never used up.
pub fn next_word(word: u64) -> u64
    ensures { word + 1 < 2 ^ 64 → result ≡ next_of word }
{
    word.wrapping_add(1)
}

/// Whether these marks, which were taken, say that packets came.
pub fn are_marks(marks: u64) -> bool
    ensures { IsTrue result ↔ 0 < marks }
{
    marks > NO_MARKS
}
