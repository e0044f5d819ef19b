//! What the definitions of this crate mean, as theorems that call nothing.
ghost use Rattle.std.specs.Prelude.{◌≡◌, ◌<◌, ◌^◌, ℕ, List, [], ◌∷◌, Option, None, Some};
ghost use Rattle.transport_header.specs.Answered.{answered};
ghost use Rattle.transport_header.specs.Session.{identifier_text, identifier_in};
ghost use Rattle.transport_header.specs.Interleaved.{AsksFor};
ghost use Rattle.transport_header.specs.Parameter.{IsFirstNamed, NoneHasName};
ghost use Rattle.transport_header.specs.Recording.{AsksRecord};
ghost use Rattle.transport_header.specs.SpecForm.{IsSpec};
ghost use Rattle.transport_header.specs.Transport.{value_named, mode_of, channels_of, spec_of, specs_of};
ghost use Rattle.transport_header.specs.declared.spec.Mode.TheVariants.{Record};
ghost use Rattle.transport_header.specs.declared.spec.ChannelPair.{ChannelPair};
ghost use Rattle.transport_header.specs.Chosen.{IsChosen, transport_text};
ghost use Rattle.transport_header.specs.declared.spec.Spec.{Spec};
ghost use Rattle.transport_header.specs.declared.chosen.Chosen.{Chosen};

/// The first parameter of a name: its value is found where a part has the name and no earlier one does, and
/// nowhere else; nothing is found where no part has it, and nowhere else.
pub fn parameters()
    ensures first { (parts : List (List ℕ)) (name value : List ℕ) → IsFirstNamed parts name value → value_named name parts ≡ Some value }
    ensures only { (parts : List (List ℕ)) (name value : List ℕ) → value_named name parts ≡ Some value → IsFirstNamed parts name value }
    ensures absent { (parts : List (List ℕ)) (name : List ℕ) → NoneHasName name parts → value_named name parts ≡ None }
    ensures none { (parts : List (List ℕ)) (name : List ℕ) → value_named name parts ≡ None → NoneHasName name parts }
{}

/// The value of `mode`: it is read as RECORD where one of its parts is `record` or `receive`, and nowhere else.
pub fn modes()
    ensures reads { (value : List ℕ) → AsksRecord value → mode_of value ≡ Record }
    ensures only { (value : List ℕ) → mode_of value ≡ Record → AsksRecord value }
{}

/// A spec: it is read as its parts say, the first naming the transport and the others being its parameters, and as
/// nothing else.
pub fn specs()
    ensures reads { (text : List ℕ) → IsSpec text (spec_of text) }
    ensures only { (text : List ℕ) (spec : Spec) → IsSpec text spec → spec ≡ spec_of text }
{}

/// The value of `interleaved`: it is read as a pair of channels where the grammar has it, and nowhere
/// else.
pub fn interleaving()
    ensures reads { (value : List ℕ) (pair : ChannelPair) → AsksFor value pair → channels_of value ≡ Some pair }
    ensures only { (value : List ℕ) (pair : ChannelPair) → channels_of value ≡ Some pair → AsksFor value pair }
{}

/// The identifiers of sessions: what `put_session` writes `read_session` reads as it is, and two
/// sessions whose numbers or words differ have different identifiers.
pub fn identifiers()
    ensures read { (number word : ℕ) → identifier_in (identifier_text number word) ≡ identifier_text number word }
    ensures apart { (number word other another : ℕ) → number < 2 ^ 32 → word < 2 ^ 32 → other < 2 ^ 32 → another < 2 ^ 32 → identifier_text number word ≡ identifier_text other another → (number ≡ other) × (word ≡ another) }
{}

/// The choice among specs: the definition that `choose` meets leaves one answer.
pub fn choice()
    ensures { (specs : List Spec) (used : List ℕ) (a b : Option Chosen) → IsChosen specs used a → IsChosen specs used b → a ≡ b }
{}

/// The Transport header of a reply: what `put_transport` writes is read as one spec, over TCP, with the
/// channels and the mode that were chosen.
pub fn answering()
    ensures { (chosen : Chosen) → chosen.rtp < 256 → chosen.rtcp < 256 → specs_of (transport_text chosen) ≡ answered chosen ∷ [] }
{}
