//! What the rule of counting means, as theorems that call nothing.
ghost use Rattle.std.specs.Prelude.{◌≡◌, ◌≤◌, ◌+◌, ◌-◌, ◌∷◌, ◌++◌, [], ℕ, List, length};
ghost use Rattle.sequence_counts.specs.Counts.{Counts};
ghost use Rattle.sequence_counts.specs.Counting.{Counted, Event, Gives, Packet, Recorded, packets};
ghost use Rattle.sequence_counts.specs.Ordered.{RisesFrom, last_of, recording};

/// After any events there are counts, and no others: exactly one case of the rule holds for each event. All counts are those after
/// some events.
pub fn counting()
    ensures always { (events : List Event) → (counts : Counts) × Counted events counts }
    ensures once { (events : List Event) (one other : Counts) → Counted events one → Counted events other → one ≡ other }
    ensures reached { (counts : Counts) → (events : List Event) × Counted events counts }
{}

/// No count falls as events are added.
pub fn rising()
    ensures missing { (events more : List Event) (old new : Counts) → Counted events old → Counted (events ++ more) new → old.missing ≤ new.missing }
    ensures late { (events more : List Event) (old new : Counts) → Counted events old → Counted (events ++ more) new → old.late ≤ new.late }
    ensures restarts { (events more : List Event) (old new : Counts) → Counted events old → Counted (events ++ more) new → old.restarts ≤ new.restarts }
{}

/// The packets of one source come in order after a RECORD, each 1 to 2,999 numbers ahead of the one before. The packets that came and
/// those that are missing add up to all numbers from the first to the last (RFC 3550, A.3), and nothing is late or begins anew.
pub fn in_order()
    ensures missing { (ssrc number : ℕ) (more : List ℕ) (counts : Counts) → RisesFrom number more → Counted (recording ssrc (number ∷ more)) counts
        → counts.missing + length (number ∷ more) ≡ last_of number more - number + 1 }
    ensures late { (ssrc number : ℕ) (more : List ℕ) (counts : Counts) → RisesFrom number more → Counted (recording ssrc (number ∷ more)) counts → counts.late ≡ 0 }
    ensures restarts { (ssrc number : ℕ) (more : List ℕ) (counts : Counts) → RisesFrom number more → Counted (recording ssrc (number ∷ more)) counts → counts.restarts ≡ 0 }
{}

/// Some numberings after a RECORD, with the missing and late packets and the restarts that they count. The source is 7 unless
/// another is written.
pub fn rows()
    ensures over_the_end { Gives (Recorded ∷ packets 7 (65534 ∷ 65535 ∷ 1 ∷ [])) 1 0 0 }
    ensures out_of_order { Gives (Recorded ∷ packets 7 (1 ∷ 2 ∷ 4 ∷ 3 ∷ 5 ∷ [])) 1 1 0 }
    ensures repeat { Gives (Recorded ∷ packets 7 (7 ∷ 7 ∷ [])) 0 0 0 }
    ensures most_ahead { Gives (Recorded ∷ packets 7 (1 ∷ 3000 ∷ [])) 2998 0 0 }
    ensures too_far_ahead { Gives (Recorded ∷ packets 7 (1 ∷ 3001 ∷ [])) 0 0 1 }
    ensures most_behind { Gives (Recorded ∷ packets 7 (200 ∷ 101 ∷ [])) 0 1 0 }
    ensures too_far_behind { Gives (Recorded ∷ packets 7 (200 ∷ 100 ∷ [])) 0 0 1 }
    ensures after_a_pause { Gives (Recorded ∷ packets 7 (5 ∷ []) ++ Recorded ∷ packets 7 (9 ∷ [])) 0 0 0 }
    ensures another_source { Gives (Recorded ∷ Packet 5 7 ∷ Packet 6 8 ∷ []) 0 0 1 }
{}
