//! The families with samples for the whole server.
ghost use Rattle.std.specs.Prelude.{◌≡◌, ◌++◌, length, take, OnOk, OnErr};
ghost use Rattle.std.specs.List.{flat_map};
ghost use Rattle.status_texts.specs.Families.{head_text};
ghost use Rattle.status_texts.specs.Labels.{named_count};
ghost use Rattle.status_texts.specs.Metrics.{server_counters, server_families, server_family, server_limits, server_samples};

use crate::family::{FamilyHead, ServerFamily};
use crate::number::{Number, packet_counts, player_counts};
use exposition::{Label, put_sample};
use mount_series::MountSums;
use std::alloc::AllocError;

/// The limits of a server, and its version.
#[derive(Debug, PartialEq, Eq, Drop)]
pub struct ServerFacts {
    /// How many connections there may be.
    pub connections: u64,
    /// How many mounts there may be.
    pub mounts: u64,
    /// How many players a mount may have.
    pub seats: u64,
    /// The version of the program.
    pub version: String,
}

/// Appends a sample of the server for a name, which is the value of this label.
fn put_count(
    out: &mut Vec<u8>,
    metric: &'static str,
    label: &'static str,
    count: &Number,
) -> Result<(), AllocError>
    ensures text { OnOk result (out.new.items ≡ out.old.items ++ named_count metric.now label.now count.now) }
    ensures kept { OnErr result (out.new.items ≡ out.old.items) }
{
    put_sample(
        out,
        metric,
        &[Label::new(label, count.name().as_bytes())],
        count.value(),
    )
}

/// Appends a sample of the server for each name, or a part of them if memory is refused.
pub(crate) fn write_counts(
    out: &mut Vec<u8>,
    metric: &'static str,
    label: &'static str,
    counts: &[Number],
) -> Result<(), AllocError>
    ensures text { OnOk result (out.new.items ≡ out.old.items ++ flat_map (named_count metric.now label.now) counts.now) }
    ensures kept { OnErr result (take (length out.old.items) out.new.items ≡ out.old.items) }
{
    for count in counts {
        put_count(out, metric, label, count)?;
    }
    Ok(())
}

/// Appends the samples of a family, or a part of them if memory is refused.
fn write_samples(
    out: &mut Vec<u8>,
    metric: &'static str,
    family: ServerFamily,
    sums: &MountSums,
    server: &ServerFacts,
) -> Result<(), AllocError>
    ensures text { OnOk result (out.new.items ≡ out.old.items ++ server_samples metric.now family sums.now server.now) }
    ensures kept { OnErr result (take (length out.old.items) out.new.items ≡ out.old.items) }
{
    match family {
        ServerFamily::AllPackets => {
            write_counts(out, metric, "result", &packet_counts(&sums.came))
        }
        ServerFamily::AllBytesIn => put_sample(out, metric, &[], sums.came.bytes),
        ServerFamily::AllPlayerPackets => {
            write_counts(out, metric, "result", &player_counts(&sums.players))
        }
        ServerFamily::AllPlayerBytes => put_sample(out, metric, &[], sums.players.bytes),
        ServerFamily::ConnectionsMax => put_sample(out, metric, &[], server.connections),
        ServerFamily::MountsMax => put_sample(out, metric, &[], server.mounts),
        ServerFamily::SeatsMax => put_sample(out, metric, &[], server.seats),
        ServerFamily::BuildInfo => {
            let version = server.version.as_bytes();
            put_sample(out, metric, &[Label::new("version", version)], 1)
        }
    }
}

/// Appends the head of a family and its samples, or a part of them if memory is refused.
fn write_headed(
    out: &mut Vec<u8>,
    head: &FamilyHead,
    family: ServerFamily,
    sums: &MountSums,
    server: &ServerFacts,
) -> Result<(), AllocError>
    ensures text { OnOk result (out.new.items ≡ out.old.items ++ (head_text head.now ++ server_samples head.now.name family sums.now server.now)) }
    ensures kept { OnErr result (take (length out.old.items) out.new.items ≡ out.old.items) }
{
    head.put(out)?;
    write_samples(out, head.name(), family, sums, server)
}

/// Appends a family, or a part of its text if memory is refused.
#[tactic(auto, unfolding(crate::specs::Metrics::server_family))]
fn write_family(
    out: &mut Vec<u8>,
    family: ServerFamily,
    sums: &MountSums,
    server: &ServerFacts,
) -> Result<(), AllocError>
    ensures text { OnOk result (out.new.items ≡ out.old.items ++ server_family sums.now server.now family) }
    ensures kept { OnErr result (take (length out.old.items) out.new.items ≡ out.old.items) }
{
    write_headed(out, &family.head(), family, sums, server)
}

/// Appends the sums of all mounts and players, or a part of their text if memory is refused.
#[tactic(auto, unfolding(crate::specs::Metrics::server_counters))]
fn write_counters(
    out: &mut Vec<u8>,
    sums: &MountSums,
    server: &ServerFacts,
) -> Result<(), AllocError>
    ensures text { OnOk result (out.new.items ≡ out.old.items ++ server_counters sums.now server.now) }
    ensures kept { OnErr result (take (length out.old.items) out.new.items ≡ out.old.items) }
{
    write_family(out, ServerFamily::AllPackets, sums, server)?;
    write_family(out, ServerFamily::AllBytesIn, sums, server)?;
    write_family(out, ServerFamily::AllPlayerPackets, sums, server)?;
    write_family(out, ServerFamily::AllPlayerBytes, sums, server)
}

/// Appends the limits of the server and its version, or a part of their text if memory is refused.
#[tactic(auto, unfolding(crate::specs::Metrics::server_limits))]
fn write_limits(out: &mut Vec<u8>, sums: &MountSums, server: &ServerFacts) -> Result<(), AllocError>
    ensures text { OnOk result (out.new.items ≡ out.old.items ++ server_limits sums.now server.now) }
    ensures kept { OnErr result (take (length out.old.items) out.new.items ≡ out.old.items) }
{
    write_family(out, ServerFamily::ConnectionsMax, sums, server)?;
    write_family(out, ServerFamily::MountsMax, sums, server)?;
    write_family(out, ServerFamily::SeatsMax, sums, server)?;
    write_family(out, ServerFamily::BuildInfo, sums, server)
}

/// Appends the families of the server, or a part of their text if memory is refused.
pub(crate) fn write_server_families(
    out: &mut Vec<u8>,
    sums: &MountSums,
    server: &ServerFacts,
) -> Result<(), AllocError>
    ensures text { OnOk result (out.new.items ≡ out.old.items ++ server_families sums.now server.now) }
    ensures kept { OnErr result (take (length out.old.items) out.new.items ≡ out.old.items) }
{
    write_counters(out, sums, server)?;
    write_limits(out, sums, server)
}
