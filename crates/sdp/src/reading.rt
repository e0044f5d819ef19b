//! Reading a description (RFC 4566, 5).
ghost use Rattle.std.specs.Prelude.{◌≡◌, ◌⊎◌, MatchResult};
ghost use Rattle.sdp.specs.Readings.{Reads, HasBadLine, IsRefused};
ghost use Rattle.sdp.specs.Lines.{AreLines};
ghost use Rattle.sdp.specs.Sections.{announced, AreGood};
ghost use Rattle.sdp.specs.declared.fault.SdpFault.TheVariants.{OutOfMemory};

use crate::description::Description;
use crate::fault::SdpFault;
use crate::sections::Sections;
use base_syntax::first_line;
use std::alloc::Global;

/// The sections of a text, or its first bad line.
#[tactic(auto, using(crate::proofs::SoFar::nothing_read, crate::proofs::SoFar::line_more, crate::proofs::SoFar::lines_end, crate::proofs::SoFar::shorter))]
fn read_lines(alloc: Global, bytes: &[u8]) -> Result<Sections, SdpFault>
    ensures { MatchResult result (λ sections. AreLines bytes.now (announced sections) × AreGood sections) (λ fault. (fault ≡ OutOfMemory) ⊎ HasBadLine bytes.now fault) }
{
    let mut sections = Sections::new(alloc);
    let mut rest = bytes;
    while let Some((line, after)) = first_line(rest) {
        sections.add(alloc, line)?;
        rest = after;
    }
    sections.add(alloc, rest)?;
    Ok(sections)
}

/// Reads a description: lines that LF or CRLF ends, `v=0` first, then session lines, then tracks, each
/// opened by an `m=` line (RFC 4566, 5). Empty lines are skipped. The first bad line decides how it is
/// refused; `NoMedia` comes last.
pub fn read(alloc: Global, bytes: &[u8]) -> Result<Description, SdpFault>
    ensures { MatchResult result (Reads bytes.now) (IsRefused bytes.now) }
{
    let sections = read_lines(alloc, bytes)?;
    if sections.is_empty() {
        return Err(SdpFault::NoVersion);
    }
    if sections.tracks.as_slice().is_empty() {
        return Err(SdpFault::NoMedia);
    }
    Ok(Description::new(alloc, sections)?)
}
