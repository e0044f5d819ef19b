//! What the definitions of this crate mean, as theorems that call nothing.
ghost use Rattle.std.specs.Prelude.{◌≡◌, ◌==◌, ℕ, List, Option, Some};
ghost use Rattle.std.specs.List.{before_first, join_with_byte};
ghost use Rattle.base_syntax.specs.Blanks.{IsTrimOf, trimmed};
ghost use Rattle.base_syntax.specs.Cuts.{IsCut, behind_first};
ghost use Rattle.base_syntax.specs.Numbers.{IsNumberUpTo, number_up_to};
ghost use Rattle.base_syntax.specs.Quotes.{AreParts, parts};

/// Dropping the blanks at a text's ends: what is left has none at its ends, and stands between nothing but blanks.
/// Nothing else does.
pub fn trimming()
    ensures core { (text : List ℕ) → IsTrimOf text (trimmed text) }
    ensures only { (text other : List ℕ) → IsTrimOf text other → other ≡ trimmed text }
{}

/// Cutting a text at the first of a byte: what stands before it and after it, and nothing else does.
pub fn cutting()
    ensures cut { (byte : ℕ) (text : List ℕ) → IsCut byte text (before_first (λ b. b == byte) text) (behind_first byte text) }
    ensures front { (byte : ℕ) (text front : List ℕ) (behind : Option (List ℕ)) → IsCut byte text front behind → front ≡ before_first (λ b. b == byte) text }
    ensures behind { (byte : ℕ) (text front : List ℕ) (behind : Option (List ℕ)) → IsCut byte text front behind → behind ≡ behind_first byte text }
{}

/// Cutting a text outside of double quotes: its parts have no separator left to cut at, each but the last closes its
/// quotes, and joined by the separator they give the text back. No other list does.
pub fn cutting_unquoted()
    ensures uncut { (separator : ℕ) (text : List ℕ) → AreParts separator (parts separator text) }
    ensures joined { (separator : ℕ) (text : List ℕ) → join_with_byte separator (parts separator text) ≡ text }
    ensures only { (separator : ℕ) (others : List (List ℕ)) → AreParts separator others → parts separator (join_with_byte separator others) ≡ others }
{}

/// A decimal number is read where digits write it and it is at most the limit, and nowhere else.
pub fn numbers()
    ensures reads { (limit : ℕ) (text : List ℕ) (number : ℕ) → IsNumberUpTo limit text number → number_up_to limit text ≡ Some number }
    ensures only { (limit : ℕ) (text : List ℕ) (number : ℕ) → number_up_to limit text ≡ Some number → IsNumberUpTo limit text number }
{}
