//! The families of the process.
ghost use Rattle.std.specs.Prelude.{◌≡◌, [], ◌++◌, length, take, OnOk, OnErr};
ghost use Rattle.exposition.specs.Exposition.{sample_text};
ghost use Rattle.status_texts.specs.Process.{process_families, process_family, process_value, value_text, valued_text};

use crate::family::{FamilyHead, ProcessFamily};
use exposition::{put_sample, put_seconds};
use process_figures::ProcessFigures;
use std::alloc::AllocError;

/// The value of a sample.
#[derive(Clone, Copy, Debug, PartialEq, Eq)]
enum Value {
    Number(u64),
    /// A time, which is written in seconds.
    Milliseconds(u64),
}

/// Returns the value of a family, if it was read.
fn process_value(process: &ProcessFigures, family: ProcessFamily) -> Option<Value>
    ensures { result ≡ process_value process.now family }
{
    match family {
        ProcessFamily::StartTime => Some(Value::Milliseconds(process.started?)),
        ProcessFamily::CpuSeconds => Some(Value::Milliseconds(process.ran?)),
        ProcessFamily::ResidentMemory => Some(Value::Number(process.resident?)),
        ProcessFamily::OpenFds => Some(Value::Number(process.open_files?)),
        ProcessFamily::MaxFds => Some(Value::Number(process.max_open_files?)),
    }
}

/// Appends a sample of the process.
fn put_value(out: &mut Vec<u8>, metric: &'static str, value: Value) -> Result<(), AllocError>
    ensures text { OnOk result (out.new.items ≡ out.old.items ++ sample_text metric.now [] (value_text value)) }
    ensures kept { OnErr result (out.new.items ≡ out.old.items) }
{
    match value {
        Value::Number(number) => put_sample(out, metric, &[], number),
        Value::Milliseconds(milliseconds) => put_seconds(out, metric, &[], milliseconds),
    }
}

/// Appends the head of a family and its sample, or a part of them if memory is refused.
#[tactic(auto, unfolding(crate::specs::Process::valued_text))]
fn write_headed(out: &mut Vec<u8>, head: &FamilyHead, value: Value) -> Result<(), AllocError>
    ensures text { OnOk result (out.new.items ≡ out.old.items ++ valued_text head.now value) }
    ensures kept { OnErr result (take (length out.old.items) out.new.items ≡ out.old.items) }
{
    head.put(out)?;
    put_value(out, head.name(), value)
}

/// Appends a family if its figure was read, or a part of its text if memory is refused.
#[tactic(auto, unfolding(crate::specs::Process::process_family))]
fn write_family(
    out: &mut Vec<u8>,
    process: &ProcessFigures,
    family: ProcessFamily,
) -> Result<(), AllocError>
    ensures text { OnOk result (out.new.items ≡ out.old.items ++ process_family process.now family) }
    ensures kept { OnErr result (take (length out.old.items) out.new.items ≡ out.old.items) }
{
    match process_value(process, family) {
        Some(value) => write_headed(out, &family.head(), value),
        None => Ok(()),
    }
}

/// Appends the families of the process whose figures were read, or a part of their text if memory is refused.
pub(crate) fn write_process_families(
    out: &mut Vec<u8>,
    process: &ProcessFigures,
) -> Result<(), AllocError>
    ensures text { OnOk result (out.new.items ≡ out.old.items ++ process_families process.now) }
    ensures kept { OnErr result (take (length out.old.items) out.new.items ≡ out.old.items) }
{
    write_family(out, process, ProcessFamily::StartTime)?;
    write_family(out, process, ProcessFamily::CpuSeconds)?;
    write_family(out, process, ProcessFamily::ResidentMemory)?;
    write_family(out, process, ProcessFamily::OpenFds)?;
    write_family(out, process, ProcessFamily::MaxFds)
}
