use crate::packets::Packet;
use crate::takes::{Delivery, Left};

/// A call to a broadcast log, by its publisher or by one of its seats.
#[derive(Debug, Drop)]
pub enum Call {
    /// The publisher appends a packet.
    Publish(Packet),
    /// The publisher ends the log.
    Close,
    /// This seat begins to read, up to so many packets back from the log's end.
    Attach { seat: u16, back: u64 },
    /// This seat asks for its next packet.
    Take(u16),
    /// This seat stops to read.
    Detach(u16),
}

/// What a call was answered.
#[derive(Debug, Drop)]
pub enum Answer {
    /// The packet stands in the log under this number.
    Appended(u64),
    /// The packet was refused, and the log is as it was.
    Refused,
    /// The log has ended.
    Closed,
    /// The seat reads from this number on.
    Attached(u64),
    /// The seat's next packet, or why there is none now.
    Taken(Delivery),
    /// The seat reads no more, and took, lost and left so many packets.
    Detached(Left),
}
