//! The samples of what the server serves and refuses.
ghost use Rattle.std.specs.Prelude.{◌≡◌, ◌++◌, length, take, OnOk, OnErr};
ghost use Rattle.std.specs.List.{flat_map};
ghost use Rattle.status_texts.specs.Families.{head_text};
ghost use Rattle.status_texts.specs.Serving.{request_sample, serving_counters, serving_families, serving_family, serving_gauges, serving_samples, session_counts, session_sample};

use crate::family::FamilyHead;
use crate::number::refusal_counts;
use crate::server_metrics::write_counts;
use crate::serving_family::ServingFamily;
use exposition::{Label, put_sample};
use itoa::Buffer;
use server_counts::{RequestCount, ServerFigures, SessionFigures};
use std::alloc::AllocError;
use std::marker::Model;

/// How many sessions have a role and a state. A contract sees these as lists of bytes.
#[derive(Drop)]
struct SessionCount {
    role: &'static str,
    state: &'static str,
    count: u64,
}

impl Model for SessionCount {
    ghost use Rattle.status_texts.specs.Roles.{RoleCount};

    ghost Value = { RoleCount };

    ghost view = { λ s. record { role = s.role.now; state = s.state.now; count = s.count } };
}

impl SessionCount {
    fn new(role: &'static str, state: &'static str, count: u64) -> SessionCount
        ensures { result ≡ record { role = role.now; state = state.now; count = count } }
    {
        SessionCount { role, state, count }
    }
}

/// Returns how many sessions have each role and state.
fn session_counts(sessions: &SessionFigures) -> [SessionCount; 4]
    ensures { result ≡ session_counts sessions.now }
{
    [
        SessionCount::new("publisher", "ready", sessions.publisher_ready),
        SessionCount::new("publisher", "recording", sessions.publisher_recording),
        SessionCount::new("player", "ready", sessions.player_ready),
        SessionCount::new("player", "playing", sessions.player_playing),
    ]
}

/// Appends the sample of a role and a state.
fn put_sessions(
    out: &mut Vec<u8>,
    metric: &'static str,
    sessions: &SessionCount,
) -> Result<(), AllocError>
    ensures text { OnOk result (out.new.items ≡ out.old.items ++ session_sample metric.now sessions.now) }
    ensures kept { OnErr result (out.new.items ≡ out.old.items) }
{
    let labels = [
        Label::new("role", sessions.role.as_bytes()),
        Label::new("state", sessions.state.as_bytes()),
    ];
    put_sample(out, metric, &labels, sessions.count)
}

/// Appends the sample of each role and state, or a part of them if memory is refused.
fn write_sessions(
    out: &mut Vec<u8>,
    metric: &'static str,
    sessions: &[SessionCount],
) -> Result<(), AllocError>
    ensures text { OnOk result (out.new.items ≡ out.old.items ++ flat_map (session_sample metric.now) sessions.now) }
    ensures kept { OnErr result (take (length out.old.items) out.new.items ≡ out.old.items) }
{
    for session in sessions {
        put_sessions(out, metric, session)?;
    }
    Ok(())
}

/// Appends the sample of a status.
fn put_request(
    out: &mut Vec<u8>,
    metric: &'static str,
    request: &RequestCount,
) -> Result<(), AllocError>
    ensures text { OnOk result (out.new.items ≡ out.old.items ++ request_sample metric.now request.now) }
    ensures kept { OnErr result (out.new.items ≡ out.old.items) }
{
    let mut digits = Buffer::new();
    let code = digits.format(request.status.code());
    let labels = [Label::new("status", code.as_bytes())];
    put_sample(out, metric, &labels, request.count)
}

/// Appends the sample of each status, or a part of them if memory is refused.
fn write_requests(
    out: &mut Vec<u8>,
    metric: &'static str,
    requests: &[RequestCount],
) -> Result<(), AllocError>
    ensures text { OnOk result (out.new.items ≡ out.old.items ++ flat_map (request_sample metric.now) requests.now) }
    ensures kept { OnErr result (take (length out.old.items) out.new.items ≡ out.old.items) }
{
    for request in requests {
        put_request(out, metric, request)?;
    }
    Ok(())
}

/// Appends the samples of a family, or a part of them if memory is refused.
fn write_samples(
    out: &mut Vec<u8>,
    metric: &'static str,
    family: ServingFamily,
    figures: &ServerFigures,
) -> Result<(), AllocError>
    ensures text { OnOk result (out.new.items ≡ out.old.items ++ serving_samples metric.now family figures.now) }
    ensures kept { OnErr result (take (length out.old.items) out.new.items ≡ out.old.items) }
{
    match family {
        ServingFamily::Connections => put_sample(out, metric, &[], figures.connections),
        ServingFamily::Sessions => {
            write_sessions(out, metric, &session_counts(&figures.sessions))
        }
        ServingFamily::ConnectionsRefused => {
            write_counts(out, metric, "reason", &refusal_counts(&figures.refused))
        }
        ServingFamily::RequestsRefused => write_requests(out, metric, &figures.requests),
        ServingFamily::LinesDropped => put_sample(out, metric, &[], figures.lines_dropped),
    }
}

/// Appends the head of a family and its samples, or a part of them if memory is refused.
fn write_headed(
    out: &mut Vec<u8>,
    head: &FamilyHead,
    family: ServingFamily,
    figures: &ServerFigures,
) -> Result<(), AllocError>
    ensures text { OnOk result (out.new.items ≡ out.old.items ++ (head_text head.now ++ serving_samples head.now.name family figures.now)) }
    ensures kept { OnErr result (take (length out.old.items) out.new.items ≡ out.old.items) }
{
    head.put(out)?;
    write_samples(out, head.name(), family, figures)
}

/// Appends a family, or a part of its text if memory is refused.
#[tactic(auto, unfolding(crate::specs::Serving::serving_family))]
fn write_family(
    out: &mut Vec<u8>,
    family: ServingFamily,
    figures: &ServerFigures,
) -> Result<(), AllocError>
    ensures text { OnOk result (out.new.items ≡ out.old.items ++ serving_family figures.now family) }
    ensures kept { OnErr result (take (length out.old.items) out.new.items ≡ out.old.items) }
{
    write_headed(out, &family.head(), family, figures)
}

/// Appends the gauges, or a part of their text if memory is refused.
#[tactic(auto, unfolding(crate::specs::Serving::serving_gauges))]
fn write_gauges(out: &mut Vec<u8>, figures: &ServerFigures) -> Result<(), AllocError>
    ensures text { OnOk result (out.new.items ≡ out.old.items ++ serving_gauges figures.now) }
    ensures kept { OnErr result (take (length out.old.items) out.new.items ≡ out.old.items) }
{
    write_family(out, ServingFamily::Connections, figures)?;
    write_family(out, ServingFamily::Sessions, figures)
}

/// Appends the counters, or a part of their text if memory is refused.
#[tactic(auto, unfolding(crate::specs::Serving::serving_counters))]
fn write_counters(out: &mut Vec<u8>, figures: &ServerFigures) -> Result<(), AllocError>
    ensures text { OnOk result (out.new.items ≡ out.old.items ++ serving_counters figures.now) }
    ensures kept { OnErr result (take (length out.old.items) out.new.items ≡ out.old.items) }
{
    write_family(out, ServingFamily::ConnectionsRefused, figures)?;
    write_family(out, ServingFamily::RequestsRefused, figures)?;
    write_family(out, ServingFamily::LinesDropped, figures)
}

/// Appends the families of what the server serves and refuses, or a part of their text if memory is refused.
pub(crate) fn write_serving_families(
    out: &mut Vec<u8>,
    figures: &ServerFigures,
) -> Result<(), AllocError>
    ensures text { OnOk result (out.new.items ≡ out.old.items ++ serving_families figures.now) }
    ensures kept { OnErr result (take (length out.old.items) out.new.items ≡ out.old.items) }
{
    write_gauges(out, figures)?;
    write_counters(out, figures)
}
