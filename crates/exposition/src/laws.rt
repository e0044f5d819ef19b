//! What the definitions of this crate mean, as theorems that call nothing.
ghost use Rattle.std.specs.Prelude.{◌≡◌, ◌<◌, ◌^◌, ◌++◌, ◌∷◌, [], ℕ, List, All, Some, codes, decimal, IsUtf8};
ghost use Rattle.std.specs.Str.Lossy.{utf8_lossy};
ghost use Rattle.exposition.specs.declared.kind.MetricKind.{MetricKind};
ghost use Rattle.exposition.specs.declared.kind.MetricKind.TheVariants.{Counter};
ghost use Rattle.exposition.specs.Exposition.{LabelPair, double_quote, family_head, help_line, help_text, label_text, line_feed, sample_text, seconds_text, type_line};
ghost use Rattle.exposition.specs.Reading.{IsInLine, IsLine, IsSeconds, names_of, read_until, values_of};

/// A label's value is read up to its closing double quote, and a help text up to the end of its line, as the text that
/// was given. Neither has a line feed, and a label's value is UTF-8. Two values of UTF-8 are never written as one text.
pub fn escapes()
    ensures value { (value rest : List ℕ)
        → read_until double_quote (label_text value ++ double_quote ∷ rest) ≡ Some (record { text = utf8_lossy value; rest = rest }) }
    ensures help { (help rest : List ℕ)
        → read_until line_feed (help_text help ++ line_feed ∷ rest) ≡ Some (record { text = help; rest = rest }) }
    ensures value_line { (value : List ℕ) → IsInLine (label_text value) }
    ensures help_line { (help : List ℕ) → IsInLine (help_text help) }
    ensures utf8 { (value : List ℕ) → IsUtf8 (label_text value) }
    ensures same_text { (a b : List ℕ) → label_text a ≡ label_text b → utf8_lossy a ≡ utf8_lossy b }
    ensures same_value { (a b : List ℕ) → IsUtf8 a → IsUtf8 b → label_text a ≡ label_text b → a ≡ b }
{}

/// A sample is one line, and so is each of the two lines of a family's head, whatever the values of labels are.
pub fn lines()
    ensures sample { (name : List ℕ) (labels : List LabelPair) (value : ℕ)
        → IsInLine name → All (λ label. IsInLine label.name) labels → value < 2 ^ 64
        → IsLine (sample_text name labels (decimal value)) }
    ensures seconds { (name : List ℕ) (labels : List LabelPair) (milliseconds : ℕ)
        → IsInLine name → All (λ label. IsInLine label.name) labels → milliseconds < 2 ^ 64
        → IsLine (sample_text name labels (seconds_text milliseconds)) }
    ensures help { (name help : List ℕ) → IsInLine name → IsLine (help_line name help) }
    ensures kind { (name : List ℕ) (kind : MetricKind) → IsInLine name → IsLine (type_line name kind) }
{}

/// Two samples of one name, with labels of the same names, are one text only if all that is read of them is the same:
/// each value of a label, and the sample's value.
pub fn samples()
    ensures labels { (name : List ℕ) (labels others : List LabelPair) (value other : List ℕ)
        → names_of labels ≡ names_of others → sample_text name labels value ≡ sample_text name others other
        → values_of labels ≡ values_of others }
    ensures value { (name : List ℕ) (labels others : List LabelPair) (value other : List ℕ)
        → names_of labels ≡ names_of others → sample_text name labels value ≡ sample_text name others other
        → value ≡ other }
{}

/// The text of a time has a point and three decimals, and without the point its digits write the milliseconds.
pub fn times()
    ensures { (milliseconds : ℕ) → milliseconds < 2 ^ 64 → IsSeconds (seconds_text milliseconds) milliseconds }
{}

/// Worked texts.
pub fn rows()
    ensures backslash { label_text (codes "a\\b") ≡ codes "a\\\\b" }
    ensures quote { label_text (codes "cam\"1") ≡ codes "cam\\\"1" }
    ensures line_feed { label_text (codes "a\nb") ≡ codes "a\\nb" }
    ensures not_utf8 { label_text (0xFF ∷ []) ≡ 0xEF ∷ 0xBF ∷ 0xBD ∷ [] }
    ensures cut_short { label_text (0xE2 ∷ 0x98 ∷ []) ≡ 0xEF ∷ 0xBF ∷ 0xBD ∷ [] }
    ensures zero { sample_text (codes "up") [] (decimal 0) ≡ codes "up 0\n" }
    ensures most { sample_text (codes "up") [] (decimal 18446744073709551615) ≡ codes "up 18446744073709551615\n" }
    ensures seconds { seconds_text 12345 ≡ codes "12.345" }
    ensures whole { seconds_text 60000 ≡ codes "60.000" }
    ensures labels { let mount : LabelPair = record { name = codes "mount"; value = codes "cam\"1" } in
        let kind : LabelPair = record { name = codes "kind"; value = codes "a\\b" } in
        sample_text (codes "packets") (mount ∷ kind ∷ []) (decimal 750) ≡ codes "packets{mount=\"cam\\\"1\",kind=\"a\\\\b\"} 750\n" }
    ensures head { family_head (codes "up") Counter (codes "a\\b\nc") ≡ codes "# HELP up a\\\\b\\nc\n# TYPE up counter\n" }
{}
