//! The head of a metric family, and samples.
ghost use Rattle.std.specs.Prelude.{◌≡◌, ◌++◌, codes, decimal, length, take, OnOk, OnErr};
ghost use Rattle.std.specs.List.{flat_map};
ghost use Rattle.exposition.specs.Exposition.{family_head, help_line, labels_text, next_text, pair_text, sample_text, seconds_text, type_line};

use crate::escapes::{write_help, write_value};
use crate::kind::MetricKind;
use crate::label::Label;
use crate::seconds::write_seconds;
use itoa::Buffer;
use std::alloc::AllocError;

/// Appends a label, or a part of its text if memory is refused.
fn write_label(out: &mut Vec<u8>, label: &Label) -> Result<(), AllocError>
    ensures text { OnOk result (out.new.items ≡ out.old.items ++ pair_text label.now) }
    ensures kept { OnErr result (take (length out.old.items) out.new.items ≡ out.old.items) }
{
    out.extend_from_slice(label.name().as_bytes())?;
    out.extend_from_slice(b"=\"")?;
    write_value(out, label.value())?;
    out.extend_from_slice(b"\"")
}

/// Appends a label after a comma, or a part of its text if memory is refused.
fn write_next(out: &mut Vec<u8>, label: &Label) -> Result<(), AllocError>
    ensures text { OnOk result (out.new.items ≡ out.old.items ++ next_text label.now) }
    ensures kept { OnErr result (take (length out.old.items) out.new.items ≡ out.old.items) }
{
    out.extend_from_slice(b",")?;
    write_label(out, label)
}

/// Appends labels, each after a comma, or a part of their text if memory is refused.
fn write_others(out: &mut Vec<u8>, labels: &[Label]) -> Result<(), AllocError>
    ensures text { OnOk result (out.new.items ≡ out.old.items ++ flat_map next_text labels.now) }
    ensures kept { OnErr result (take (length out.old.items) out.new.items ≡ out.old.items) }
{
    for label in labels {
        write_next(out, label)?;
    }
    Ok(())
}

/// Appends the labels of a sample, or a part of their text if memory is refused.
fn write_labels(out: &mut Vec<u8>, labels: &[Label]) -> Result<(), AllocError>
    ensures text { OnOk result (out.new.items ≡ out.old.items ++ labels_text labels.now) }
    ensures kept { OnErr result (take (length out.old.items) out.new.items ≡ out.old.items) }
{
    match labels {
        [] => Ok(()),
        [label, others @ ..] => {
            out.extend_from_slice(b"{")?;
            write_label(out, label)?;
            write_others(out, others)?;
            out.extend_from_slice(b"}")
        }
    }
}

/// Appends a sample up to the space before its value, or a part of that if memory is refused.
fn write_front(out: &mut Vec<u8>, name: &str, labels: &[Label]) -> Result<(), AllocError>
    ensures text { OnOk result (out.new.items ≡ out.old.items ++ (name.now ++ labels_text labels.now ++ codes " ")) }
    ensures kept { OnErr result (take (length out.old.items) out.new.items ≡ out.old.items) }
{
    out.extend_from_slice(name.as_bytes())?;
    write_labels(out, labels)?;
    out.extend_from_slice(b" ")
}

/// Appends the sample of a number, or a part of its text if memory is refused.
fn write_sample(
    out: &mut Vec<u8>,
    name: &str,
    labels: &[Label],
    value: u64,
) -> Result<(), AllocError>
    ensures text { OnOk result (out.new.items ≡ out.old.items ++ sample_text name.now labels.now (decimal value)) }
    ensures kept { OnErr result (take (length out.old.items) out.new.items ≡ out.old.items) }
{
    let mut digits = Buffer::new();
    write_front(out, name, labels)?;
    out.extend_from_slice(digits.format(value).as_bytes())?;
    out.extend_from_slice(b"\n")
}

/// Appends the sample of a time, or a part of its text if memory is refused.
fn write_time(
    out: &mut Vec<u8>,
    name: &str,
    labels: &[Label],
    milliseconds: u64,
) -> Result<(), AllocError>
    ensures text { OnOk result (out.new.items ≡ out.old.items ++ sample_text name.now labels.now (seconds_text milliseconds)) }
    ensures kept { OnErr result (take (length out.old.items) out.new.items ≡ out.old.items) }
{
    write_front(out, name, labels)?;
    write_seconds(out, milliseconds)?;
    out.extend_from_slice(b"\n")
}

/// Appends the `# HELP` line of a family, or a part of it if memory is refused.
fn write_help_line(out: &mut Vec<u8>, name: &str, help: &str) -> Result<(), AllocError>
    ensures text { OnOk result (out.new.items ≡ out.old.items ++ help_line name.now help.now) }
    ensures kept { OnErr result (take (length out.old.items) out.new.items ≡ out.old.items) }
{
    out.extend_from_slice(b"# HELP ")?;
    out.extend_from_slice(name.as_bytes())?;
    out.extend_from_slice(b" ")?;
    write_help(out, help.as_bytes())?;
    out.extend_from_slice(b"\n")
}

/// Appends the `# TYPE` line of a family, or a part of it if memory is refused.
fn write_type_line(out: &mut Vec<u8>, name: &str, kind: MetricKind) -> Result<(), AllocError>
    ensures text { OnOk result (out.new.items ≡ out.old.items ++ type_line name.now kind) }
    ensures kept { OnErr result (take (length out.old.items) out.new.items ≡ out.old.items) }
{
    out.extend_from_slice(b"# TYPE ")?;
    out.extend_from_slice(name.as_bytes())?;
    out.extend_from_slice(b" ")?;
    out.extend_from_slice(kind.text())?;
    out.extend_from_slice(b"\n")
}

/// Appends the head of a family, or a part of its text if memory is refused.
fn write_head(out: &mut Vec<u8>, name: &str, kind: MetricKind, help: &str) -> Result<(), AllocError>
    ensures text { OnOk result (out.new.items ≡ out.old.items ++ family_head name.now kind help.now) }
    ensures kept { OnErr result (take (length out.old.items) out.new.items ≡ out.old.items) }
{
    write_help_line(out, name, help)?;
    write_type_line(out, name, kind)
}

/// Appends the head of a metric family: its `# HELP` line and its `# TYPE` line. The name is one of the format,
/// `[a-zA-Z_:][a-zA-Z0-9_:]*`, and is not checked. In the help text a backslash and a line feed are escaped.
///
/// The only error is out of memory. After it, `out` is as before.
pub fn put_head(
    out: &mut Vec<u8>,
    name: &'static str,
    kind: MetricKind,
    help: &'static str,
) -> Result<(), AllocError>
    ensures ok { OnOk result (out.new.items ≡ out.old.items ++ family_head name.now kind help.now) }
    ensures err { OnErr result (out.new.items ≡ out.old.items) }
{
    let before = out.len();
    let written = write_head(out, name, kind, help);
    if written.is_err() {
        out.truncate(before);
    }
    written
}

/// Appends a sample of a family: its name, its labels, and its value as a decimal number. The name is the family's,
/// `[a-zA-Z_:][a-zA-Z0-9_:]*`, and is not checked.
///
/// The only error is out of memory. After it, `out` is as before.
pub fn put_sample(
    out: &mut Vec<u8>,
    name: &'static str,
    labels: &[Label],
    value: u64,
) -> Result<(), AllocError>
    ensures ok { OnOk result (out.new.items ≡ out.old.items ++ sample_text name.now labels.now (decimal value)) }
    ensures err { OnErr result (out.new.items ≡ out.old.items) }
{
    let before = out.len();
    let written = write_sample(out, name, labels, value);
    if written.is_err() {
        out.truncate(before);
    }
    written
}

/// Appends a sample of a family whose value is a time. It is given in milliseconds, and written in seconds with three
/// decimals. The name is the family's, `[a-zA-Z_:][a-zA-Z0-9_:]*`, and is not checked.
///
/// The only error is out of memory. After it, `out` is as before.
pub fn put_seconds(
    out: &mut Vec<u8>,
    name: &'static str,
    labels: &[Label],
    milliseconds: u64,
) -> Result<(), AllocError>
    ensures ok { OnOk result (out.new.items ≡ out.old.items ++ sample_text name.now labels.now (seconds_text milliseconds)) }
    ensures err { OnErr result (out.new.items ≡ out.old.items) }
{
    let before = out.len();
    let written = write_time(out, name, labels, milliseconds);
    if written.is_err() {
        out.truncate(before);
    }
    written
}
