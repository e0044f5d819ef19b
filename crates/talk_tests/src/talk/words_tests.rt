//! The words in session identifiers: fixed, drawn, and read.
use rand::rngs::StdRng;
use rand_core::{Rng, SeedableRng};
use session_state::Words;
use session_words::{DrawnWords, FixedWord, read_word};

#[test]
fn a_fixed_word(rt: HostRuntime) {
    assert_eq!(rt; FixedWord(7).word(), 7);
}

/// The seed of the generators that words are drawn from.
const SEED: u64 = 2326;

/// The next three words.
fn three_words<V: Words>(words: &mut V) -> [u32; 3] {
    [words.word(), words.word(), words.word()]
}

#[test]
fn words_are_drawn_in_the_order_of_the_generator(rt: HostRuntime) {
    let mut rng = StdRng::seed_from_u64(SEED);
    let want = [rng.next_u32(), rng.next_u32(), rng.next_u32()];
    let mut words = DrawnWords(StdRng::seed_from_u64(SEED));
    let mut others = DrawnWords(StdRng::seed_from_u64(SEED));
    assert_eq!(rt; three_words(&mut words), want);
    assert_eq!(rt; three_words(&mut others), want);
}

/// What comes after `--word`, and the word that it is.
const WORDS: [(&str, Option<u32>); 11] = [
    ("0000abcd", Some(0xabcd)),
    ("0000ABCD", Some(0xabcd)),
    ("fFfFfFfF", Some(0xffff_ffff)),
    ("00000000", Some(0)),
    ("12345678", Some(0x1234_5678)),
    ("", None),
    ("0000abc", None),
    ("00000abcd", None),
    ("0x00abcd", None),
    ("+000abcd", None),
    ("0000abcg", None),
];

#[test]
fn a_word_is_eight_digits_of_either_case(rt: HostRuntime) {
    for (text, want) in &WORDS {
        assert!(rt; read_word(text) == *want);
    }
}
