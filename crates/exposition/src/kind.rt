//! Kinds of metrics.
ghost use Rattle.std.specs.Prelude.{◌≡◌};
ghost use Rattle.exposition.specs.Exposition.{kind_text};

/// The kind of a metric family.
#[derive(Clone, Copy, Debug, PartialEq, Eq)]
pub enum MetricKind {
    /// A value that only grows, and begins again at 0 when the program starts.
    Counter,
    /// A value that can grow and shrink.
    Gauge,
}

impl MetricKind {
    /// Returns the word of the format's `# TYPE` line.
    pub(crate) fn text(self) -> &'static [u8]
        ensures { result.now ≡ kind_text self }
    {
        match self {
            MetricKind::Counter => b"counter",
            MetricKind::Gauge => b"gauge",
        }
    }
}
