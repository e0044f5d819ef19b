//! The families with samples for each track of a mount.
ghost use Rattle.std.specs.Prelude.{◌≡◌};
ghost use Rattle.status_texts.specs.Tracks.{count_of, track_head};

use crate::family::FamilyHead;
use sequence_counts::SequenceCounts;

/// A family with samples for each track of the mounts of a name.
#[derive(Clone, Copy, Debug, PartialEq, Eq)]
pub(crate) enum TrackFamily {
    Missing,
    Late,
    Restarts,
}

impl TrackFamily {
    pub(crate) fn head(self) -> FamilyHead
        ensures { result ≡ track_head self }
    {
        match self {
            TrackFamily::Missing => FamilyHead::counter(
                "vasklun_mount_missing_packets_total",
                "Packets of the name's mounts that were lost before the relay, by their sequence numbers.",
            ),
            TrackFamily::Late => FamilyHead::counter(
                "vasklun_mount_late_packets_total",
                "Packets of the name's mounts that came late or again, by their sequence numbers.",
            ),
            TrackFamily::Restarts => FamilyHead::counter(
                "vasklun_mount_sequence_restarts_total",
                "How often the sequence numbers of the name's mounts began anew.",
            ),
        }
    }

    /// Returns the count of a track that the family shows.
    pub(crate) fn count_of(self, counts: &SequenceCounts) -> u64
        ensures { result ≡ count_of self counts.now }
    {
        match self {
            TrackFamily::Missing => counts.missing(),
            TrackFamily::Late => counts.late(),
            TrackFamily::Restarts => counts.restarts(),
        }
    }
}
