/// How large a ring is.
#[derive(Clone, Copy, Debug, PartialEq, Eq)]
pub struct Config {
    /// How many packets the ring keeps: 1 to 4,095.
    pub keep: u64,
    /// How many seats it has: at most 1,024.
    pub seats: u64,
}
