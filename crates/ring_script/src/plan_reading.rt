//! Reading an input.
ghost use Rattle.std.specs.Prelude.{MatchResult};
ghost use Rattle.ring_script.specs.Plans.{Reads, IsRefused};

use crate::draft::Draft;
use crate::first_line::first_line;
use crate::plan::{Plan, PlanFault};
use std::alloc::Global;

/// Reads an input: `keep N`, `seats N`, any number of call lines, and one `go` line. An LF ends a
/// line, and a last line without one counts; empty lines are skipped. The first bad line decides.
#[tactic(auto, using(crate::proofs::Reading::nothing_read, crate::proofs::Reading::line_read))]
pub(crate) fn read_plan(alloc: Global, text: &[u8]) -> Result<Plan, PlanFault>
    ensures { MatchResult result (Reads text.now) (IsRefused text.now) }
{
    let mut draft = Draft::Empty;
    let mut count = 0;
    let mut rest = text;
    while !rest.is_empty() {
        let (line, after) = first_line(rest);
        let Some(next) = draft.read(alloc, line)? else {
            return Err(PlanFault::BadLine(count + 1));
        };
        draft = next;
        count += 1;
        rest = after;
    }
    match draft {
        Draft::Whole(plan) => Ok(plan),
        _ => Err(PlanFault::BadLine(count + 1)),
    }
}
