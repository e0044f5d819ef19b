//! The samples of each track.
ghost use Rattle.std.specs.Prelude.{◌≡◌, ◌++◌, decimal, length, take, OnOk, OnErr};
ghost use Rattle.std.specs.List.{flat_map};
ghost use Rattle.status_texts.specs.Families.{head_text};
ghost use Rattle.status_texts.specs.Tracks.{labelled_sample, track_families, track_family, track_sample, track_samples};

use crate::family::FamilyHead;
use crate::figures::NameFigures;
use crate::track_family::TrackFamily;
use crate::track_figures::TrackFigures;
use exposition::{Label, put_sample};
use itoa::Buffer;
use std::alloc::AllocError;

/// Appends a sample of a track, whose number is this text.
fn put_labelled<'a>(
    out: &mut Vec<u8>,
    metric: &'static str,
    mount: &'a [u8],
    track: &'a [u8],
    value: u64,
) -> Result<(), AllocError>
    ensures text { OnOk result (out.new.items ≡ out.old.items ++ labelled_sample metric.now mount.now track.now (decimal value)) }
    ensures kept { OnErr result (out.new.items ≡ out.old.items) }
{
    let labels = [Label::new("mount", mount), Label::new("track", track)];
    put_sample(out, metric, &labels, value)
}

/// Appends a sample of a track.
fn put_track(
    out: &mut Vec<u8>,
    metric: &'static str,
    mount: &[u8],
    family: TrackFamily,
    track: &TrackFigures,
) -> Result<(), AllocError>
    ensures text { OnOk result (out.new.items ≡ out.old.items ++ track_sample metric.now mount.now family track.now) }
    ensures kept { OnErr result (out.new.items ≡ out.old.items) }
{
    let mut digits = Buffer::new();
    let number = digits.format(track.track);
    let value = family.count_of(&track.counts);
    put_labelled(out, metric, mount, number.as_bytes(), value)
}

/// Appends the samples of a family for a name, or a part of them if memory is refused.
fn write_samples(
    out: &mut Vec<u8>,
    metric: &'static str,
    mount: &[u8],
    family: TrackFamily,
    tracks: &[TrackFigures],
) -> Result<(), AllocError>
    ensures text { OnOk result (out.new.items ≡ out.old.items ++ flat_map (track_sample metric.now mount.now family) tracks.now) }
    ensures kept { OnErr result (take (length out.old.items) out.new.items ≡ out.old.items) }
{
    for track in tracks {
        put_track(out, metric, mount, family, track)?;
    }
    Ok(())
}

/// Appends the samples of a family for each name, or a part of them if memory is refused.
fn write_all_samples(
    out: &mut Vec<u8>,
    metric: &'static str,
    family: TrackFamily,
    figures: &[NameFigures],
) -> Result<(), AllocError>
    ensures text { OnOk result (out.new.items ≡ out.old.items ++ flat_map (track_samples metric.now family) figures.now) }
    ensures kept { OnErr result (take (length out.old.items) out.new.items ≡ out.old.items) }
{
    for figure in figures {
        write_samples(out, metric, figure.name(), family, figure.tracks())?;
    }
    Ok(())
}

/// Appends the head of a family and its samples for each name, or a part of them if memory is refused.
fn write_headed(
    out: &mut Vec<u8>,
    head: &FamilyHead,
    family: TrackFamily,
    figures: &[NameFigures],
) -> Result<(), AllocError>
    ensures text { OnOk result (out.new.items ≡ out.old.items ++ (head_text head.now ++ flat_map (track_samples head.now.name family) figures.now)) }
    ensures kept { OnErr result (take (length out.old.items) out.new.items ≡ out.old.items) }
{
    head.put(out)?;
    write_all_samples(out, head.name(), family, figures)
}

/// Appends a family, or a part of its text if memory is refused.
#[tactic(auto, unfolding(crate::specs::Tracks::track_family))]
fn write_family(
    out: &mut Vec<u8>,
    family: TrackFamily,
    figures: &[NameFigures],
) -> Result<(), AllocError>
    ensures text { OnOk result (out.new.items ≡ out.old.items ++ track_family figures.now family) }
    ensures kept { OnErr result (take (length out.old.items) out.new.items ≡ out.old.items) }
{
    write_headed(out, &family.head(), family, figures)
}

/// Appends the families with samples for each track, or a part of their text if memory is refused.
#[tactic(auto, unfolding(crate::specs::Tracks::track_families))]
pub(crate) fn write_track_families(
    out: &mut Vec<u8>,
    figures: &[NameFigures],
) -> Result<(), AllocError>
    ensures text { OnOk result (out.new.items ≡ out.old.items ++ track_families figures.now) }
    ensures kept { OnErr result (take (length out.old.items) out.new.items ≡ out.old.items) }
{
    write_family(out, TrackFamily::Missing, figures)?;
    write_family(out, TrackFamily::Late, figures)?;
    write_family(out, TrackFamily::Restarts, figures)
}
