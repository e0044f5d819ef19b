//! The lines of a head, judged as they come: without memory, and without the lines before.
ghost use Rattle.rtsp_message.specs.Knowns.{IsJudged};

use crate::MAX_BODY;
use crate::fault::Fault;
use crate::head::length_fault;
use crate::lines::read_header_line;
use base_syntax::{is_same_name, read_number};

/// What a line is that stands where a header line is due.
#[derive(Clone, Copy)]
pub enum Judged {
    /// A good header line. The header fields up to it announce this length.
    Header(Option<u32>),
    /// The empty line that ends a head.
    Empty,
    Bad(Fault),
}

/// Judges a line after header fields that announce this length.
pub fn judge_line(told: Option<u32>, line: &[u8]) -> Judged
    ensures { IsJudged told line.now result }
{
    if line.is_empty() {
        return Judged::Empty;
    }
    let Some(parts) = read_header_line(line) else {
        return Judged::Bad(Fault::BadHeader);
    };
    if !is_same_name(parts.name, b"Content-Length") {
        return Judged::Header(told);
    }
    match length_fault(told, parts.value) {
        Some(fault) => Judged::Bad(fault),
        None => Judged::Header(read_number(parts.value, MAX_BODY as u32)),
    }
}
