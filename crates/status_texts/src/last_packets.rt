//! When the last packet of each name came.
ghost use Rattle.std.specs.Prelude.{◌≡◌, ◌++◌, length, take, OnOk, OnErr};
ghost use Rattle.std.specs.List.{flat_map};
ghost use Rattle.status_texts.specs.LastPackets.{last_family, last_head, last_sample, last_text};

use crate::family::FamilyHead;
use crate::figures::NameFigures;
use exposition::{Label, put_seconds};
use std::alloc::AllocError;

/// The head of the family.
fn last_head() -> FamilyHead
    ensures { result ≡ last_head }
{
    FamilyHead::gauge(
        "vasklun_mount_last_packet_timestamp_seconds",
        "When the last packet of the name's mounts came, since the Unix epoch in seconds.",
    )
}

/// Appends the sample of a name, of figures that were made `wall` milliseconds after the beginning of 1970.
fn put_last(
    out: &mut Vec<u8>,
    metric: &'static str,
    wall: u64,
    figures: &NameFigures,
) -> Result<(), AllocError>
    ensures text { OnOk result (out.new.items ≡ out.old.items ++ last_sample metric.now wall figures.now) }
    ensures kept { OnErr result (out.new.items ≡ out.old.items) }
{
    let labels = [Label::new("mount", figures.name())];
    put_seconds(out, metric, &labels, wall.saturating_sub(figures.silence()))
}

/// Appends the sample of each name, or a part of them if memory is refused.
fn write_samples(
    out: &mut Vec<u8>,
    metric: &'static str,
    wall: u64,
    figures: &[NameFigures],
) -> Result<(), AllocError>
    ensures text { OnOk result (out.new.items ≡ out.old.items ++ flat_map (last_sample metric.now wall) figures.now) }
    ensures kept { OnErr result (take (length out.old.items) out.new.items ≡ out.old.items) }
{
    for figure in figures {
        put_last(out, metric, wall, figure)?;
    }
    Ok(())
}

/// Appends the head of the family and the sample of each name, or a part of them if memory is refused.
#[tactic(auto, unfolding(crate::specs::LastPackets::last_text))]
fn write_headed(
    out: &mut Vec<u8>,
    head: &FamilyHead,
    wall: u64,
    figures: &[NameFigures],
) -> Result<(), AllocError>
    ensures text { OnOk result (out.new.items ≡ out.old.items ++ last_text head.now wall figures.now) }
    ensures kept { OnErr result (take (length out.old.items) out.new.items ≡ out.old.items) }
{
    head.put(out)?;
    write_samples(out, head.name(), wall, figures)
}

/// Appends the family if the moment of the figures is known, or a part of its text if memory is refused.
pub(crate) fn write_last_packets(
    out: &mut Vec<u8>,
    wall: Option<u64>,
    figures: &[NameFigures],
) -> Result<(), AllocError>
    ensures text { OnOk result (out.new.items ≡ out.old.items ++ last_family wall figures.now) }
    ensures kept { OnErr result (take (length out.old.items) out.new.items ≡ out.old.items) }
{
    match wall {
        Some(wall) => write_headed(out, &last_head(), wall, figures),
        None => Ok(()),
    }
}
