//! What a connection has to do with a stream.

/// What a connection has to do, beside writing the reply.
#[derive(Clone, Copy, Debug, PartialEq, Eq, Drop)]
pub enum Act {
    /// Nothing.
    None,
    /// A mount was made: its packets are taken from this connection.
    Open,
    /// It attaches to this seat of the mount of this number, and sends what it takes there.
    Play { mount: u64, seat: usize },
    /// It detaches from this seat of the mount of this number, and gives the seat back.
    Stop { mount: u64, seat: usize },
    /// It publishes what comes in.
    Record,
    /// Its mount has ended: it publishes nothing more.
    End,
}
