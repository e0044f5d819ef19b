//! What the steps of the cases came to.

use crate::comparing::tell_difference;
use crate::step::Step;
use crate::suite::Kind;
use crate::told::Told;
use std::alloc::{AllocError, Global};

/// What the steps of the cases came to so far.
#[derive(Drop)]
pub(crate) struct Tally {
    pub alloc: Global,
    /// The number of the line that is read, or of the step that is run.
    pub line: usize,
    /// How many cases there were, by the places of their kinds.
    counts: Vec<u64>,
    /// What is to be printed.
    pub report: Vec<u8>,
    /// Whether a step gave something else than it had to.
    pub differs: bool,
}

impl Tally {
    /// Nothing is read.
    pub fn new(alloc: Global) -> Tally {
        Tally {
            alloc,
            line: 0,
            counts: Vec::new(alloc),
            report: Vec::new(alloc),
            differs: false,
        }
    }

    /// Adds what came out of a step to the report, if that isn't what had to.
    pub fn compare(&mut self, title: &[u8], step: &Step, came: &Told) -> Result<(), AllocError> {
        if step.holds(came) {
            return Ok(());
        }
        self.differs = true;
        let report = &mut self.report;
        tell_difference(report, title, step.line, came, step.expected())
    }

    /// Counts a case of the kind at this place.
    pub fn count(&mut self, place: usize) -> Result<(), AllocError> {
        if self.counts.len() <= place {
            self.counts.resize(place.saturating_add(1), 0)?;
        }
        if let Some(count) = self.counts.get_mut(place) {
            *count = count.saturating_add(1);
        }
        Ok(())
    }

    /// Adds the number of cases of each kind to the report.
    pub fn tell_counts<K: Kind>(&mut self, kinds: &[K]) -> Result<(), AllocError> {
        for (place, kind) in kinds.iter().enumerate() {
            let name = kind.name();
            let count = self.counts.get(place).copied().unwrap_or(0);
            let line = format!(in self.alloc; "{name} {count} cases\n")?;
            self.report.extend_from_slice(line.as_bytes())?;
        }
        Ok(())
    }
}
