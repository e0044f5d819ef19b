//! The families with samples for each name of a mount.
ghost use Rattle.std.specs.Prelude.{◌≡◌, ◌++◌, decimal, length, take, OnOk, OnErr};
ghost use Rattle.std.specs.List.{flat_map};
ghost use Rattle.status_texts.specs.Families.{head_text};
ghost use Rattle.status_texts.specs.Metrics.{mount_count, mount_counters, mount_families, mount_family, mount_gauges, mount_sample, mount_samples};

use crate::family::{FamilyHead, MountFamily};
use crate::figures::NameFigures;
use crate::last_packets::write_last_packets;
use crate::number::{Number, packet_counts, player_counts};
use crate::track_metrics::write_track_families;
use exposition::{Label, put_sample, put_seconds};
use std::alloc::AllocError;

/// Appends a sample of a mount.
fn put_number(
    out: &mut Vec<u8>,
    metric: &'static str,
    mount: &[u8],
    value: u64,
) -> Result<(), AllocError>
    ensures text { OnOk result (out.new.items ≡ out.old.items ++ mount_sample metric.now mount.now (decimal value)) }
    ensures kept { OnErr result (out.new.items ≡ out.old.items) }
{
    put_sample(out, metric, &[Label::new("mount", mount)], value)
}

/// Appends a sample of a mount for a result.
fn put_count(
    out: &mut Vec<u8>,
    metric: &'static str,
    mount: &[u8],
    count: &Number,
) -> Result<(), AllocError>
    ensures text { OnOk result (out.new.items ≡ out.old.items ++ mount_count metric.now mount.now count.now) }
    ensures kept { OnErr result (out.new.items ≡ out.old.items) }
{
    let labels = [
        Label::new("mount", mount),
        Label::new("result", count.name().as_bytes()),
    ];
    put_sample(out, metric, &labels, count.value())
}

/// Appends a sample of a mount for each result, or a part of them if memory is refused.
fn write_counts(
    out: &mut Vec<u8>,
    metric: &'static str,
    mount: &[u8],
    counts: &[Number],
) -> Result<(), AllocError>
    ensures text { OnOk result (out.new.items ≡ out.old.items ++ flat_map (mount_count metric.now mount.now) counts.now) }
    ensures kept { OnErr result (take (length out.old.items) out.new.items ≡ out.old.items) }
{
    for count in counts {
        put_count(out, metric, mount, count)?;
    }
    Ok(())
}

/// Appends the samples of a family for a name, or a part of them if memory is refused.
fn write_samples(
    out: &mut Vec<u8>,
    metric: &'static str,
    family: MountFamily,
    figures: &NameFigures,
) -> Result<(), AllocError>
    ensures text { OnOk result (out.new.items ≡ out.old.items ++ mount_samples metric.now family figures.now) }
    ensures kept { OnErr result (take (length out.old.items) out.new.items ≡ out.old.items) }
{
    let mount = figures.name();
    match family {
        MountFamily::Packets => write_counts(out, metric, mount, &packet_counts(figures.came())),
        MountFamily::BytesIn => put_number(out, metric, mount, figures.came().bytes),
        MountFamily::PlayerPackets => {
            write_counts(out, metric, mount, &player_counts(figures.player_packets()))
        }
        MountFamily::PlayerBytes => {
            put_number(out, metric, mount, figures.player_packets().bytes)
        }
        MountFamily::Slowed => {
            put_seconds(
                out,
                metric,
                &[Label::new("mount", mount)],
                figures.came().slowed,
            )
        }
        MountFamily::Live => put_number(out, metric, mount, u64::from(figures.is_live())),
        MountFamily::Players => put_number(out, metric, mount, figures.players()),
        MountFamily::BehindMax => put_number(out, metric, mount, figures.behind()),
    }
}

/// Appends the samples of a family for each name, or a part of them if memory is refused.
fn write_all_samples(
    out: &mut Vec<u8>,
    metric: &'static str,
    family: MountFamily,
    figures: &[NameFigures],
) -> Result<(), AllocError>
    ensures text { OnOk result (out.new.items ≡ out.old.items ++ flat_map (mount_samples metric.now family) figures.now) }
    ensures kept { OnErr result (take (length out.old.items) out.new.items ≡ out.old.items) }
{
    for figure in figures {
        write_samples(out, metric, family, figure)?;
    }
    Ok(())
}

/// Appends the head of a family and its samples for each name, or a part of them if memory is refused.
fn write_headed(
    out: &mut Vec<u8>,
    head: &FamilyHead,
    family: MountFamily,
    figures: &[NameFigures],
) -> Result<(), AllocError>
    ensures text { OnOk result (out.new.items ≡ out.old.items ++ (head_text head.now ++ flat_map (mount_samples head.now.name family) figures.now)) }
    ensures kept { OnErr result (take (length out.old.items) out.new.items ≡ out.old.items) }
{
    head.put(out)?;
    write_all_samples(out, head.name(), family, figures)
}

/// Appends a family, or a part of its text if memory is refused.
#[tactic(auto, unfolding(crate::specs::Metrics::mount_family))]
fn write_family(
    out: &mut Vec<u8>,
    family: MountFamily,
    figures: &[NameFigures],
) -> Result<(), AllocError>
    ensures text { OnOk result (out.new.items ≡ out.old.items ++ mount_family figures.now family) }
    ensures kept { OnErr result (take (length out.old.items) out.new.items ≡ out.old.items) }
{
    write_headed(out, &family.head(), family, figures)
}

/// Appends the counters of each name, or a part of their text if memory is refused.
#[tactic(auto, unfolding(crate::specs::Metrics::mount_counters))]
fn write_counters(out: &mut Vec<u8>, figures: &[NameFigures]) -> Result<(), AllocError>
    ensures text { OnOk result (out.new.items ≡ out.old.items ++ mount_counters figures.now) }
    ensures kept { OnErr result (take (length out.old.items) out.new.items ≡ out.old.items) }
{
    write_family(out, MountFamily::Packets, figures)?;
    write_family(out, MountFamily::BytesIn, figures)?;
    write_family(out, MountFamily::PlayerPackets, figures)?;
    write_family(out, MountFamily::PlayerBytes, figures)?;
    write_family(out, MountFamily::Slowed, figures)
}

/// Appends the gauges of each name, or a part of their text if memory is refused.
#[tactic(auto, unfolding(crate::specs::Metrics::mount_gauges))]
fn write_gauges(out: &mut Vec<u8>, figures: &[NameFigures]) -> Result<(), AllocError>
    ensures text { OnOk result (out.new.items ≡ out.old.items ++ mount_gauges figures.now) }
    ensures kept { OnErr result (take (length out.old.items) out.new.items ≡ out.old.items) }
{
    write_family(out, MountFamily::Live, figures)?;
    write_family(out, MountFamily::Players, figures)?;
    write_family(out, MountFamily::BehindMax, figures)
}

/// Appends the families with samples for each name, or a part of their text if memory is refused.
#[tactic(auto, unfolding(crate::specs::Metrics::mount_families))]
pub(crate) fn write_mount_families(
    out: &mut Vec<u8>,
    wall: Option<u64>,
    figures: &[NameFigures],
) -> Result<(), AllocError>
    ensures text { OnOk result (out.new.items ≡ out.old.items ++ mount_families wall figures.now) }
    ensures kept { OnErr result (take (length out.old.items) out.new.items ≡ out.old.items) }
{
    write_counters(out, figures)?;
    write_track_families(out, figures)?;
    write_gauges(out, figures)?;
    write_last_packets(out, wall, figures)
}
