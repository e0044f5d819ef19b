use ring_steps::{PublisherCall, SeatCall};

/// What one call line asks for.
#[derive(Debug, Drop)]
pub enum CallLine {
    ByPublisher(PublisherCall),
    /// The seat stands as it was read: 0 to 999,999,999.
    BySeat(u64, SeatCall),
}
