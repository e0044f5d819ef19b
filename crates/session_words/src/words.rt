//! The words in session identifiers.
ghost use Rattle.std.specs.Prelude.{◌≡◌, ℕ, Ok, IfOk, IfErr, IfSome, IfNone};
ghost use Rattle.rand_core.specs.Stream.{next_u32};
ghost use Rattle.session_words.specs.SessionWords.{IsNoWord, IsWord};
ghost use Rattle.session_words.specs.declared.words.NoWords.TheVariants.{BadWord};
ghost use Rattle.session_words.specs.declared.words.WordSource.TheVariants.{Drawn, Fixed};

use hex::FromHex;
use rand_core::Rng;
use session_state::Words;

/// Answers one word each time.
#[derive(Clone, Copy, Debug)]
pub struct FixedWord(pub u32);

impl Words for FixedWord {
    ghost gives = { λ old word new. (word ≡ old.0) × (new ≡ old) };

    fn word(&mut self) -> u32 {
        self.0
    }
}

/// Draws each word from a generator.
#[derive(Drop)]
pub struct DrawnWords<R>(pub R);

impl<R: Rng> Words for DrawnWords<R> {
    ghost gives = { λ old word new. (word, R.stream new.0) ≡ next_u32 (R.stream old.0) };

    fn word(&mut self) -> u32 {
        self.0.next_u32()
    }
}

/// Where the words of a talk come from.
#[derive(Clone, Copy, Debug, PartialEq, Eq, Drop)]
pub enum WordSource {
    /// Each is drawn at random.
    Drawn,
    /// Each is this one.
    Fixed(u32),
}

/// Why a talk has no words.
#[derive(Clone, Copy, Debug, PartialEq, Eq, Drop)]
pub enum NoWords {
    /// What stands after `--word` is no word.
    BadWord,
    /// The source of random numbers failed.
    NoRandomSource,
}

impl NoWords {
    ghost use Rattle.session_words.specs.SessionWords.{no_words_line, no_words_status};

    /// The exit status: 2 for a bad word, which is a fault of the command line, and 1 for a source that fails.
    pub fn status(self) -> u8
        ensures { result ≡ no_words_status self }
    {
        match self {
            NoWords::BadWord => 2,
            NoWords::NoRandomSource => 1,
        }
    }

    /// The line that stands on standard error.
    pub fn line(self) -> &'static str
        ensures { result.now ≡ no_words_line self }
    {
        match self {
            NoWords::BadWord => "relay: bad word",
            NoWords::NoRandomSource => "relay: no random source",
        }
    }
}

/// Where the words come from, by what stands after `--word`: drawn where nothing does. `BadWord` of a text that is no
/// word.
pub fn word_source(text: Option<&str>) -> Result<WordSource, NoWords>
    ensures drawn { IfNone text.entry (result ≡ Ok Drawn) }
    ensures fixed { IfSome text.entry (λ t. IfOk result (λ source. (word : ℕ) × (source ≡ Fixed word) × IsWord t.now word)) }
    ensures bad { IfSome text.entry (λ t. IfErr result (λ why. (why ≡ BadWord) × IsNoWord t.now)) }
{
    let Some(text) = text else {
        return Ok(WordSource::Drawn);
    };
    match read_word(text) {
        Some(word) => Ok(WordSource::Fixed(word)),
        None => Err(NoWords::BadWord),
    }
}

/// The word that eight hexadecimal digits of either case mean. `None` of any other text.
pub fn read_word(text: &str) -> Option<u32>
    ensures word { IfSome result (IsWord text.now) }
    ensures none { IfNone result (IsNoWord text.now) }
{
    let bytes = <[u8; 4] as FromHex>::from_hex(text).ok()?;
    Some(u32::from_be_bytes(bytes))
}
