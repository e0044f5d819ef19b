//! What the definitions of this crate mean, as theorems that call nothing.
ghost use Rattle.std.specs.Prelude.{◌≡◌, ◌≢◌, ◌++◌, ℕ, List, Ok, Some, None, true, false, codes};
ghost use Rattle.base_syntax.specs.Cuts.{HasNone};
ghost use Rattle.base_syntax.specs.Names.{same_name};
ghost use Rattle.source_urls.specs.Control.{IsBehind, IsRelative, control_fault, controlled};
ghost use Rattle.source_urls.specs.Grammar.{HasPathAlone, IsName, IsWritten, Written, with_password, written};
ghost use Rattle.source_urls.specs.Scheme.{is_scheme};
ghost use Rattle.source_urls.specs.Source.{accepted_port, request_uri};
ghost use Rattle.source_urls.specs.Target.{target_port};

/// The URI of a relative control begins with the base and ends with the control, with one slash between them. Two controls of one base
/// have two URIs. An absolute control of another scheme than `rtsp`, in any case, gives no URI.
pub fn controls()
    ensures behind { (base control : List ℕ) → IsRelative control → IsBehind base control (controlled base control) }
    ensures apart { (base one other : List ℕ) → IsRelative one → IsRelative other → controlled base one ≡ controlled base other → one ≡ other }
    ensures other_scheme { (base scheme behind : List ℕ) → is_scheme scheme ≡ true → same_name scheme (codes "rtsp") ≡ false
        → control_fault base (Some (scheme ++ (codes "://" ++ behind))) ≢ None }
{}

/// A text is accepted as a source exactly if it has parts in the order and of the form of the grammar, and these are its parts. The URI of
/// its requests has them all but the user and the fragment. No text with a user, a colon, a password and an `@` is accepted, whatever
/// bytes the password has, as `rtsp://admin:12/34@host/x`: so no part of a password is taken for a host or sent in a URI.
pub fn sources()
    ensures parts { (text : List ℕ) (number : ℕ) → accepted_port text ≡ Ok number → IsWritten text (written text) number }
    ensures accepted { (text : List ℕ) (parts : Written) (number : ℕ) → IsWritten text parts number → accepted_port text ≡ Ok number }
    ensures only { (text : List ℕ) (parts : Written) (number : ℕ) → IsWritten text parts number → written text ≡ parts }
    ensures no_password { (scheme user password behind : List ℕ) (number : ℕ) → same_name scheme (codes "rtsp://") ≡ true
        → IsName user → HasNone 91 user → accepted_port (with_password scheme user password behind) ≢ Ok number }
    ensures uri { (text : List ℕ) → request_uri text ≡ (written text).scheme ++ (written text).host ++ (written text).port ++ (written text).rest }
{}

/// A text is accepted as a target exactly if it has the parts of a source, with a path alone behind the host.
pub fn targets()
    ensures alone { (text : List ℕ) (number : ℕ) → target_port text ≡ Ok number → HasPathAlone (written text) }
    ensures accepted { (text : List ℕ) (parts : Written) (number : ℕ) → IsWritten text parts number → HasPathAlone parts → target_port text ≡ Ok number }
{}
