//! What a program offers to cases.

use crate::fault::Fault;
use crate::step::Input;
use crate::told::Told;

/// A kind of cases.
pub trait Kind: Copy + Drop {
    /// Returns the word by which a text names the kind.
    fn name(self) -> &'static str;

    /// Returns what is after a line that goes in or comes out.
    fn line_end(self) -> &'static [u8];

    /// Returns whether what goes in comes from a connection.
    fn has_connections(self) -> bool;

    /// Returns the fact that is expected of an input for which the text has none.
    fn fact_of_input(self) -> Option<&'static [u8]>;
}

/// The kinds of cases that a program runs, and what it runs them over.
pub trait Suite {
    type Kind: Kind;

    /// What a case is run over.
    type Subject: Drop;

    /// Returns all kinds, in the order in which they are counted.
    fn kinds(&self) -> &[Self::Kind];

    /// Begins a case.
    fn begin(&self, kind: Self::Kind) -> Result<Self::Subject, Fault>;

    /// Runs a step of a case, and adds what comes out.
    fn run(&self, subject: &mut Self::Subject, input: &Input, told: &mut Told) -> Result<(), Fault>;
}
