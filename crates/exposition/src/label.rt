//! Labels of samples.
ghost use Rattle.std.specs.Prelude.{◌≡◌};

use std::marker::Model;

/// A label of a sample. A contract sees its name and its value as lists of bytes.
#[derive(Drop)]
pub struct Label<'a> {
    name: &'static str,
    value: &'a [u8],
}

impl<'a> Model for Label<'a> {
    ghost use Rattle.exposition.specs.Exposition.{LabelPair};

    ghost Value = { LabelPair };

    ghost view = { λ l. record { name = l.name.now; value = l.value.now } };
}

impl<'a> Label<'a> {
    /// Returns the label of this name and value. The name is one of the format, `[a-zA-Z_][a-zA-Z0-9_]*`, and is not
    /// checked. The value can be any bytes.
    pub fn new(name: &'static str, value: &'a [u8]) -> Label<'a>
        ensures { result ≡ record { name = name.now; value = value.now } }
    {
        Label { name, value }
    }

    pub(crate) fn name(&self) -> &'static str
        ensures { result.now ≡ self.now.name }
    {
        self.name
    }

    pub(crate) fn value(&self) -> &'a [u8]
        ensures { result.now ≡ self.now.value }
    {
        self.value
    }
}
