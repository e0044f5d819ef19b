//! The text of `/metrics`.
ghost use Rattle.std.specs.Prelude.{◌≡◌, ◌++◌, length, take, OnOk, OnErr};
ghost use Rattle.status_texts.specs.Metrics.{facts_text, metrics_text};

use crate::figures::figures_of;
use crate::mount_metrics::write_mount_families;
use crate::process_metrics::write_process_families;
use crate::server_metrics::{ServerFacts, write_server_families};
use crate::serving_metrics::write_serving_families;
use mount_series::MountSums;
use process_figures::ProcessFigures;
use server_counts::ServerFigures;
use status::Snapshot;
use std::alloc::AllocError;

/// Appends the metrics of the server and of its process, or a part of them if memory is refused.
#[tactic(auto, unfolding(crate::specs::Metrics::facts_text))]
fn write_facts(
    out: &mut Vec<u8>,
    sums: &MountSums,
    figures: &ServerFigures,
    server: &ServerFacts,
    process: &ProcessFigures,
) -> Result<(), AllocError>
    ensures text { OnOk result (out.new.items ≡ out.old.items ++ facts_text sums.now figures.now server.now process.now) }
    ensures kept { OnErr result (take (length out.old.items) out.new.items ≡ out.old.items) }
{
    write_server_families(out, sums, server)?;
    write_serving_families(out, figures)?;
    write_process_families(out, process)
}

/// Appends the text of `/metrics`, or a part of it if memory is refused.
fn write_metrics(
    out: &mut Vec<u8>,
    snapshot: &Snapshot,
    wall: Option<u64>,
    server: &ServerFacts,
    process: &ProcessFigures,
) -> Result<(), AllocError>
    ensures text { OnOk result (out.new.items ≡ out.old.items ++ metrics_text snapshot.now wall server.now process.now) }
    ensures kept { OnErr result (take (length out.old.items) out.new.items ≡ out.old.items) }
{
    let figures = figures_of(*out.allocator(), snapshot)?;
    write_mount_families(out, wall, figures.as_slice())?;
    write_facts(out, &snapshot.sums(), &snapshot.server, server, process)
}

/// Appends the metrics of a server in the text format of Prometheus: those of each name of a mount, those of all mounts and
/// players since the server started, its limits, its version, what it serves and refuses, and the figures of its process that were
/// read. The snapshot was made `wall` milliseconds after the beginning of 1970. If that isn't known, the family of the last packets is
/// left out.
///
/// The only error is out of memory. After it, `out` is as before.
pub fn put_metrics(
    out: &mut Vec<u8>,
    snapshot: &Snapshot,
    wall: Option<u64>,
    server: &ServerFacts,
    process: &ProcessFigures,
) -> Result<(), AllocError>
    ensures ok { OnOk result (out.new.items ≡ out.old.items ++ metrics_text snapshot.now wall server.now process.now) }
    ensures err { OnErr result (out.new.items ≡ out.old.items) }
{
    let before = out.len();
    let written = write_metrics(out, snapshot, wall, server, process);
    if written.is_err() {
        out.truncate(before);
    }
    written
}
