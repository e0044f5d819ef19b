//! The words in session identifiers, for tests.
ghost use Rattle.std.specs.Prelude.{◌≡◌};

use session_state::Words;

/// Returns 0000abcd each time.
#[derive(Drop)]
pub(crate) struct OneWord;

impl Words for OneWord {
    ghost gives = { λ _ word _. word ≡ 43981 };

    fn word(&mut self) -> u32 {
        0x0000_abcd
    }
}

/// Returns the words from this one on.
#[derive(Drop)]
pub(crate) struct CountedWords(pub(crate) u32);

impl Words for CountedWords {
    ghost gives = { λ old word new. word ≡ old.0 };

    fn word(&mut self) -> u32 {
        let word = self.0;
        self.0 = word.wrapping_add(1);
        word
    }
}
