use base_syntax::Bytes;

/// A slot's word, which every atomic operation on the slot reads or changes whole.
#[derive(Clone, Copy, Debug, PartialEq, Eq)]
pub struct Word {
    /// How many seats have the slot pinned.
    pub pins: u64,
    /// Whether the publisher is writing the slot.
    pub writing: bool,
    /// The number of the slot's packet plus one, or 0 where no packet came yet.
    pub number: u64,
}

/// The head word: how many packets the log has, and whether it is closed.
#[derive(Clone, Copy, Debug, PartialEq, Eq)]
pub struct Head {
    pub length: u64,
    pub closed: bool,
}

/// A slot: its word, and beside it the length cell and the bytes.
#[derive(Debug, Drop)]
pub struct Slot {
    pub word: Word,
    pub len: usize,
    pub bytes: Bytes,
}
