//! What is wrong in a simulation.

/// What is wrong in a simulation, if anything is.
#[derive(Clone, Copy, Debug, PartialEq, Eq, Drop)]
pub(crate) enum Fault {
    Nothing,
    /// The waking thread reads the marks of a mount and empties them in two steps: one that is made in between is lost.
    MarkLost,
    /// A writer reads the word that it sleeps on after it has looked at its players.
    WordReadLate,
    /// A player's patience counts from the first byte that waited, though its socket took some since.
    WrongMoment,
    /// A writer doesn't read again how often its list has changed.
    ChangePassedOver,
    /// A player is passed over for which there was nothing to do, though its mount's players were woken since.
    WakeupPassedOver,
}

/// What a simulation has found.
#[derive(Clone, Copy, Debug, PartialEq, Eq, Drop)]
pub(crate) enum Finding {
    /// Nothing happens any more, and a player in this place is to be looked at.
    Forgotten(usize),
    /// The player in this place was given up before its socket had taken no byte for as long as it may.
    GivenUpEarly(usize),
    /// The player in this place was neither left nor over at the end.
    NeverOver(usize),
    /// The schedule didn't end.
    Endless,
}
