use crate::calls::{PublisherCall, SeatCall};
use base_syntax::Items;

/// The calls of one seat, in order.
pub type SeatCalls = Items<SeatCall>;

/// The calls of the publisher and of each seat.
#[derive(Debug, Drop)]
pub struct Script {
    pub publisher: Vec<PublisherCall>,
    pub seats: Vec<SeatCalls>,
}
