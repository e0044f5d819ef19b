//! What a random exchange came to.

/// What is wrong in an exchange.
#[derive(Clone, Copy, Debug, PartialEq, Eq, Drop)]
pub(crate) enum Finding {
    /// A number that isn't the next one of its connection, or a request beside one that waits.
    BadNumber,
    /// A track of the source before the description, PLAY before RECORD was accepted, or a request after the end.
    BadOrder,
    /// A reply that didn't mean what the table says.
    BadTurn,
    /// A frame before RECORD that went on, or one on no track's channel.
    BadFrame,
    /// An account that doesn't close.
    BadAccount,
}

/// What an exchange came to.
#[derive(Clone, Copy, Debug, PartialEq, Eq, Drop)]
pub(crate) struct Outcome {
    pub finding: Option<Finding>,
    /// How many frames went on.
    pub gone_on: u64,
}

/// Nothing if it holds, or else this.
pub(crate) fn unless(holds: bool, finding: Finding) -> Option<Finding> {
    if holds { None } else { Some(finding) }
}
