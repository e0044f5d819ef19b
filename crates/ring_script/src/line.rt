use crate::call_line::CallLine;
use base_syntax::Items;
use ring_steps::Actor;

/// What one line of an input says.
#[derive(Debug, Drop)]
pub enum Line {
    Keep(u64),
    Seats(u64),
    Call(CallLine),
    Go(Items<Actor>),
}
