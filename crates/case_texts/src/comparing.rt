//! Telling what differs.

use crate::told::Told;
use std::alloc::AllocError;

/// Tells what came out of the step of a line, and what had to.
pub(crate) fn tell_difference(
    report: &mut Vec<u8>,
    title: &[u8],
    line: usize,
    came: &Told,
    expected: &Told,
) -> Result<(), AllocError> {
    put_escaped(report, title)?;
    let place = format!(in *report.allocator(); ", line {line}: came\n")?;
    report.extend_from_slice(place.as_bytes())?;
    put_told(report, came)?;
    report.extend_from_slice(b"expected\n")?;
    put_told(report, expected)
}

fn put_told(report: &mut Vec<u8>, told: &Told) -> Result<(), AllocError> {
    put_lines(report, b"< ", &told.text)?;
    put_lines(report, b"= ", &told.facts)
}

/// Writes lines, each after a sign.
fn put_lines(report: &mut Vec<u8>, sign: &[u8], text: &[u8]) -> Result<(), AllocError> {
    let lines = text.strip_suffix(b"\n").unwrap_or(text);
    if text.is_empty() {
        return Ok(());
    }
    for line in lines.split(|byte| *byte == b'\n') {
        report.extend_from_slice(sign)?;
        put_escaped(report, line)?;
        report.push(b'\n')?;
    }
    Ok(())
}

/// Writes a text with its unprintable bytes escaped.
fn put_escaped(report: &mut Vec<u8>, text: &[u8]) -> Result<(), AllocError> {
    for byte in text {
        put_byte(report, *byte)?;
    }
    Ok(())
}

fn put_byte(report: &mut Vec<u8>, byte: u8) -> Result<(), AllocError> {
    match byte {
        b'\t' => report.extend_from_slice(b"\\t"),
        b'\r' => report.extend_from_slice(b"\\r"),
        b'\\' => report.extend_from_slice(b"\\\\"),
        0x20..=0x7e => report.extend_from_slice(&[byte]),
        _ => {
            let escape = format!(in *report.allocator(); "\\x{byte:02x}")?;
            report.extend_from_slice(escape.as_bytes())
        }
    }
}
