//! The script that call lines make.
ghost use Rattle.std.specs.Prelude.{◌≡◌, ◌≤◌, IfOk};
ghost use Rattle.ring_steps.specs.Scripts.{calls_of};
ghost use Rattle.ring_script.specs.Scripts.{publisher_calls, all_seats};

use crate::call_line::CallLine;
use crate::seat_table::{put_call, table_of};
use base_syntax::Items;
use ring_steps::Script;
use std::alloc::{AllocError, Global};

/// The script of so many seats, at most as many as a ring may have: each actor's calls in the order of its lines. The
/// only error is out of memory.
pub(crate) fn script_of(
    alloc: Global,
    seats: usize,
    lines: Items<CallLine>,
) -> Result<Script, AllocError>
    requires { seats ≤ 1024 }
    ensures { IfOk result (λ script. calls_of script ≡ record { publisher = publisher_calls lines; seats = all_seats seats lines }) }
{
    let mut publisher = Vec::new(alloc);
    let mut seats = table_of(alloc, seats)?;
    for line in lines.into_vec() {
        match line {
            CallLine::ByPublisher(call) => publisher.push(call)?,
            CallLine::BySeat(seat, call) => put_call(&mut seats, seat, call)?,
        }
    }
    Ok(Script { publisher, seats })
}
