//! The phases of a connection.
ghost use Rattle.std.specs.Prelude.{◌≡◌};
ghost use Rattle.status_listener.specs.Phase.{is_asking, is_closing};

/// The phase of a connection.
#[derive(Clone, Copy, Debug, PartialEq, Eq, Drop)]
pub(crate) enum Phase {
    /// Its whole request isn't there yet.
    Asking,
    /// Its answer isn't written yet.
    Answering,
    /// Its answer is written, and what still comes is discarded.
    Closing,
}

impl Phase {
    /// Returns whether the whole request isn't there yet.
    pub(crate) fn is_asking(self) -> bool
        ensures { result ≡ is_asking self }
    {
        match self {
            Phase::Asking => true,
            Phase::Answering | Phase::Closing => false,
        }
    }

    /// Returns whether the answer is written.
    pub(crate) fn is_closing(self) -> bool
        ensures { result ≡ is_closing self }
    {
        match self {
            Phase::Closing => true,
            Phase::Asking | Phase::Answering => false,
        }
    }
}
