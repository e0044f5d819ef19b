//! What holds of each text that is read, and of each description that is written.

ghost use Rattle.std.specs.Prelude.{◌≡◌, ◌≢◌, ◌<◌, length, drop, List, ℕ, Some};
ghost use Rattle.sdp.specs.declared.fault.SdpFault.{SdpFault};
ghost use Rattle.sdp.specs.declared.fault.SdpFault.TheVariants.{OutOfMemory};
ghost use Rattle.sdp.specs.declared.sections.Sections.{Sections};
ghost use Rattle.sdp.specs.Media.{MediaLine, media_of};
ghost use Rattle.sdp.specs.MediaForm.{IsMedia};
ghost use Rattle.sdp.specs.Sections.{AreGood};
ghost use Rattle.sdp.specs.Written.{description_text, AreSameTracks};
ghost use Rattle.sdp.specs.Faults.{IsFaultAfter};
ghost use Rattle.sdp.specs.Readings.{Reads, IsRefused};

/// An `m=` line is found to name exactly what its form names (RFC 4566, 5.14).
pub fn one_media()
    ensures names { (line : List ℕ) (named : MediaLine) → media_of line ≡ Some named → IsMedia (drop 2 line) named }
    ensures named { (line : List ℕ) (named : MediaLine) → IsMedia (drop 2 line) named → media_of line ≡ Some named }
{}

/// A text reads in one way: as one list of sections, or it is refused for one fault, and never both. Running out of
/// memory stands apart, since it may refuse any text. A line after others has one fault at most.
pub fn one_reading()
    ensures sections { (text : List ℕ) (a b : Sections) → Reads text a → Reads text b → a ≡ b }
    ensures fault { (text : List ℕ) (f g : SdpFault) → f ≢ OutOfMemory → g ≢ OutOfMemory → IsRefused text f → IsRefused text g → f ≡ g }
    ensures line { (before : Sections) (line : List ℕ) (f g : SdpFault) → IsFaultAfter before line f → IsFaultAfter before line g → f ≡ g }
    ensures apart { (text : List ℕ) (sections : Sections) (fault : SdpFault) → fault ≢ OutOfMemory → Reads text sections → IsRefused text fault → ⊥ }
{}

/// What is written of a description reads as a description again, whatever it reads as has the same media and
/// formats, and the control `trackID=k` for the track of number k (RFC 2326, C.1.1), and it isn't refused.
pub fn written_reads()
    ensures reads { (old : Sections) → AreGood old → 0 < length old.tracks → (new : Sections) × Reads (description_text old) new }
    ensures same { (old new : Sections) → AreGood old → 0 < length old.tracks → Reads (description_text old) new → AreSameTracks 0 old.tracks new.tracks }
    ensures taken { (old : Sections) (fault : SdpFault) → AreGood old → 0 < length old.tracks → fault ≢ OutOfMemory → IsRefused (description_text old) fault → ⊥ }
{}
