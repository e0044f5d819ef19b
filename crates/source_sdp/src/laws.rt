//! What holds of each description that is read and of each that is announced.

ghost use Rattle.std.specs.Prelude.{◌≡◌, ◌≢◌, ◌<◌, ◌≤◌, ◌++◌, ◌∷◌, ◌+◌, [], true, false, length, slice_get, Bool, List, Some, Err, ℕ};
ghost use Rattle.sdp.specs.declared.fault.SdpFault.{SdpFault};
ghost use Rattle.sdp.specs.declared.fault.SdpFault.TheVariants.{OutOfMemory};
ghost use Rattle.sdp.specs.declared.sections.Sections.{Sections};
ghost use Rattle.sdp.specs.Readings.{Reads, IsRefused};
ghost use Rattle.source_sdp.specs.declared.track.SourceTrack.{SourceTrack};
ghost use Rattle.source_sdp.specs.Usable.{AreUsable};
ghost use Rattle.source_sdp.specs.Announced.{announced_sections, announced_text};
ghost use Rattle.std.specs.List.{AllByRecursion, flat_map, list_all};
ghost use Rattle.source_sdp.specs.Kept.{kept_among, kept_count, number_of};
ghost use Rattle.base_syntax.specs.Lines.{HasNoLf};
ghost use Rattle.sdp.specs.Fields.{is_field, is_media};
ghost use Rattle.sdp.specs.Sections.{HasNoMedia};
ghost use Rattle.source_sdp.specs.declared.reason.Reason.TheVariants.{Unreadable};
ghost use Rattle.source_sdp.specs.Heading.{heading_of};
ghost use Rattle.source_sdp.specs.Lines.{is_padding, without_padding, kept_lines, lines_in};
ghost use Rattle.source_sdp.specs.Section.{Section, before_media, sections_of, whole_section, IsCut};
ghost use Rattle.source_sdp.specs.Sorting.{with_section, sorted_out};
ghost use Rattle.source_sdp.specs.Sizes.{size_of};
ghost use Rattle.source_sdp.specs.Tracks.{tracks_among};
ghost use Rattle.source_sdp.specs.declared.description.SourceDescription.{SourceDescription};
ghost use Rattle.source_sdp.specs.Readings.{IsReading, sorted_in};

/// What is announced for usable tracks, of which there is one or more, reads as exactly these tracks: with their media, formats, format
/// attributes and the control `trackID=k` for the track of number k, and as nothing else. `sdp::read` doesn't refuse it, unless memory
/// runs out.
pub fn announced_reads()
    ensures reads { (tracks : List SourceTrack) → AreUsable tracks → 0 < length tracks → Reads (announced_text tracks) (announced_sections tracks) }
    ensures only { (tracks : List SourceTrack) (sections : Sections) → AreUsable tracks → 0 < length tracks → Reads (announced_text tracks) sections → sections ≡ announced_sections tracks }
    ensures taken { (tracks : List SourceTrack) (fault : SdpFault) → AreUsable tracks → 0 < length tracks → fault ≢ OutOfMemory → IsRefused (announced_text tracks) fault → ⊥ }
{}

/// With a flag for each track, as many tracks go on as flags are true, and a track whose flag is true has the number of those before it
/// that go on. So they are in their order, and all go on if each flag is true. They can be announced if all can.
pub fn keeping()
    ensures count { (tracks : List SourceTrack) (kept : List Bool) → length kept ≡ length tracks → length (kept_among tracks kept) ≡ kept_count kept }
    ensures place { (tracks : List SourceTrack) (kept : List Bool) (place : ℕ) (track : SourceTrack) → slice_get kept place ≡ Some true → slice_get tracks place ≡ Some track → slice_get (kept_among tracks kept) (number_of place kept) ≡ Some track }
    ensures all { (tracks : List SourceTrack) (kept : List Bool) → length kept ≡ length tracks → list_all (λ goes_on. goes_on) kept ≡ true → kept_among tracks kept ≡ tracks }
    ensures usable { (tracks : List SourceTrack) (kept : List Bool) → AreUsable tracks → AreUsable (kept_among tracks kept) }
{}

/// The media sections of lines are all lines from the first `m=` line on, in order. Each begins with an `m=` line and has no other.
pub fn cutting()
    ensures whole { (lines : List (List ℕ)) → lines ≡ before_media lines ++ flat_map whole_section (sections_of lines) }
    ensures front { (lines : List (List ℕ)) → HasNoMedia (before_media lines) }
    ensures sections { (lines : List (List ℕ)) → AllByRecursion IsCut (sections_of lines) }
{}

/// Lines are read one by one. A line is a text without LF. NUL, spaces, tabs and CR at its end don't count, and any other last byte does.
/// One that begins `m=` is kept whatever follows, so it opens a section. If it isn't of the form `<type>=<value>`, its section is
/// unreadable.
pub fn lines()
    ensures joined { (front rest : List ℕ) → lines_in (front ++ 10 ∷ rest) ≡ lines_in front ++ lines_in rest }
    ensures alone { (line : List ℕ) → HasNoLf line → lines_in line ≡ kept_lines (line ∷ []) }
    ensures padded { (line : List ℕ) (b : ℕ) → is_padding b ≡ true → without_padding (line ++ b ∷ []) ≡ without_padding line }
    ensures kept { (line : List ℕ) (b : ℕ) → is_padding b ≡ false → without_padding (line ++ b ∷ []) ≡ line ++ b ∷ [] }
    ensures media { (line : List ℕ) → is_media (without_padding line) ≡ true → kept_lines (line ∷ []) ≡ without_padding line ∷ [] }
    ensures broken { (line : List ℕ) → is_field line ≡ false → heading_of line ≡ Err Unreadable }
{}

/// A description that is read holds no more bytes and entries than its text has bytes.
pub fn memory()
    ensures { (text : List ℕ) (description : SourceDescription) → IsReading text description → size_of description ≤ length text }
{}

/// The tracks of sections are the first 16 of those that are offered and can be told apart by their controls. Each section is a track or
/// left out, as the tracks before it decide. The tracks of each text can be announced.
pub fn taking()
    ensures each { (sections : List Section) → length (sorted_out sections).tracks + length (sorted_out sections).left_out ≡ length sections }
    ensures next { (before : List Section) (section : Section) → sorted_out (before ++ section ∷ []) ≡ with_section (sorted_out before) (length before) section }
    ensures tracks { (sections : List Section) → (sorted_out sections).tracks ≡ tracks_among sections }
    ensures usable { (text : List ℕ) → AreUsable (sorted_in text).tracks }
{}
