//! What the definitions of this crate mean, as theorems that call nothing.
ghost use Rattle.std.specs.Prelude.{◌≡◌, ◌≢◌, ◌<◌, ◌≤◌, ℕ, Bool, List, ◌∷◌, [], ◌++◌, Option, Some, None, length, ◌==◌, if◌then◌else◌};
ghost use Rattle.std.specs.Option.{option_map};
ghost use Rattle.sdp.specs.declared.sections.Sections.{Sections};
ghost use Rattle.std.specs.List.{AllByRecursion};
ghost use Rattle.mounts.specs.declared.mount.Mount.{Mount};
ghost use Rattle.mounts.specs.declared.target.Target.{Target};
ghost use Rattle.mounts.specs.declared.uri.Uri.{Uri};
ghost use Rattle.mounts.specs.Find.{IsFoundIn, IsNowhereIn};
ghost use Rattle.mounts.specs.Mounts.{Table, IsOnlyOne, IsSound, announced, ended, named, new_mount, no_mounts, numbered, owned_by, with_seat, with_seat_of};
ghost use Rattle.mounts.specs.Runs.{Change, GiveBack, LeadsTo, Take};
ghost use Rattle.mounts.specs.Names.{GoesOn};
ghost use Rattle.mounts.specs.Tracks.{NamesTrack};
ghost use Rattle.mounts.specs.Uri.{IsUri};

/// A text is at most one URI.
pub fn one_uri()
    ensures { (text : List ℕ) (uri other : Uri) → IsUri text uri → IsUri text other → uri ≡ other }
{}

/// A path finds at most one mount, with one rest, and never both a mount and none.
pub fn one_mount()
    ensures number { (mounts : List Mount) (path : List ℕ) (number other : ℕ) (rest behind : Option (List ℕ)) → IsFoundIn mounts path number rest → IsFoundIn mounts path other behind → number ≡ other }
    ensures rest { (mounts : List Mount) (path : List ℕ) (number other : ℕ) (rest behind : Option (List ℕ)) → IsFoundIn mounts path number rest → IsFoundIn mounts path other behind → rest ≡ behind }
    ensures found { (mounts : List Mount) (path : List ℕ) (number : ℕ) (rest : Option (List ℕ)) → IsFoundIn mounts path number rest → IsNowhereIn mounts path → ⊥ }
{}

/// A request names at most one track of a mount with up to 16, whoever asks: only one rest stands after the mount's name,
/// and that names one track.
pub fn one_track()
    ensures rest { (path name rest other : List ℕ) → GoesOn path name (Some rest) → GoesOn path name (Some other) → rest ≡ other }
    ensures track { (mount : Mount) (connection : ℕ) (target : Target) (number other : ℕ) → length mount.description.tracks ≤ 16
        → NamesTrack mount connection target number → NamesTrack mount connection target other → number ≡ other }
{}

/// In a sound table each live mount is found by its number, by its name and by its owner, and what is found by one of them
/// is live and the only mount that has it. What a path finds is live under its number, and the path goes on after its name.
pub fn look_ups_agree()
    ensures each { (table : Table) → IsSound table → AllByRecursion (λ mount.
        (numbered mount.number table.mounts ≡ Some mount) × (named mount.name table.mounts ≡ Some mount) × (owned_by mount.owner table.mounts ≡ Some mount)) table.mounts }
    ensures only { (table : Table) (number : ℕ) (mount : Mount) → IsSound table → numbered number table.mounts ≡ Some mount
        → IsOnlyOne (λ m. m.number) table.mounts number mount }
    ensures only_name { (table : Table) (name : List ℕ) (mount : Mount) → IsSound table → named name table.mounts ≡ Some mount
        → IsOnlyOne (λ m. m.name) table.mounts name mount }
    ensures only_owner { (table : Table) (owner : ℕ) (mount : Mount) → IsSound table → owned_by owner table.mounts ≡ Some mount
        → IsOnlyOne (λ m. m.owner) table.mounts owner mount }
    ensures found { (table : Table) (path : List ℕ) (number : ℕ) (rest : Option (List ℕ)) → IsSound table → IsFoundIn table.mounts path number rest
        → (mount : Mount) × (numbered number table.mounts ≡ Some mount) × GoesOn path mount.name rest }
{}

/// The mount of a number after each change: after an announcement the new one has the next number; after an end there is
/// none of that number; after a seat changed only that mount has changed.
pub fn numbers_after_changes()
    ensures announced { (table : Table) (owner : ℕ) (name : List ℕ) (description : Sections) (number : ℕ) → IsSound table
        → numbered number (announced table owner name description).mounts ≡ (if number == table.next then Some (new_mount table owner name description) else numbered number table.mounts) }
    ensures ended { (table : Table) (gone number : ℕ) → numbered number (ended gone table).mounts ≡ (if number == gone then None else numbered number table.mounts) }
    ensures seat { (table : Table) (of seat number : ℕ) (out : Bool) → numbered number (with_seat_of of seat out table).mounts
        ≡ option_map (λ mount. if mount.number == of then with_seat seat out mount else mount) (numbered number table.mounts) }
{}

/// Numbers are never used again: the next one never falls, and the number of a mount that has ended stays without one.
pub fn numbers_are_used_once()
    ensures next { (old new : Table) (changes : List Change) → LeadsTo old changes new → old.next ≤ new.next }
    ensures ended { (old new : Table) (changes : List Change) (number : ℕ) → LeadsTo old changes new → number < old.next
        → numbered number old.mounts ≡ None → numbered number new.mounts ≡ None }
{}

/// In each table that the changes lead to, no two mounts share a number, a name or an owner, each number is below the next
/// one, and no name is one that a track of another mount could have.
pub fn tables_are_sound()
    ensures { (seats : ℕ) (changes : List Change) (table : Table) → LeadsTo (no_mounts seats) changes table → IsSound table }
{}

/// No seat is handed out twice: between two times that a seat of a mount is taken, it is given back. Numbers aren't used
/// again, so the mount of a number is one mount.
pub fn seats_are_taken_once()
    ensures { (seats number seat : ℕ) (before between : List Change) (table : Table)
        → LeadsTo (no_mounts seats) (before ++ Take number seat ∷ (between ++ Take number seat ∷ [])) table
        → AllByRecursion (λ change. change ≢ GiveBack number seat) between → ⊥ }
{}
