//! The calls of all seats, while call lines are sorted by seat.
ghost use Rattle.std.specs.Prelude.{◌≡◌, [], replicate, IfOk, OnOk};
ghost use Rattle.ring_script.specs.Scripts.{put_call as with_call};

use base_syntax::Items;
use ring_steps::SeatCall;
use std::alloc::{AllocError, Global};

/// A table of so many seats without calls.
pub(crate) fn table_of(alloc: Global, seats: usize) -> Result<Vec<Items<SeatCall>>, AllocError>
    ensures { IfOk result (λ table. table.items ≡ replicate seats []) }
{
    let mut table = Vec::with_capacity(alloc, seats)?;
    for _ in 0..seats {
        table.push(Items::empty(alloc))?;
    }
    Ok(table)
}

/// Adds a call of a seat. A seat that isn't there has none.
pub(crate) fn put_call(
    table: &mut Vec<Items<SeatCall>>,
    seat: u64,
    call: SeatCall,
) -> Result<(), AllocError>
    ensures { OnOk result (table.new.items ≡ with_call table.old.items seat call) }
{
    let seat = seat as usize;
    if seat < table.len() {
        table[seat].push(call)?;
    }
    Ok(())
}
