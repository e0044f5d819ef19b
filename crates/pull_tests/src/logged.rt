//! What the lines of a station say.

use pull_plan::Figures;
use relay_pull::{Line, TryEnd};
use std::alloc::{AllocError, Global};

/// A line, with its moment.
pub(crate) type Logged = (u64, Line);

/// Returns for how many minutes a refused password isn't sent, in the order of the lines that say so.
pub(crate) fn minutes_of(alloc: Global, lines: &[Logged]) -> Result<Vec<u64>, AllocError> {
    let mut all = Vec::new(alloc);
    for (_, line) in lines {
        if let Line::Locked { minutes } = *line {
            all.push(minutes)?;
        }
    }
    Ok(all)
}

/// Returns when each try of which frames were asked for began.
pub(crate) fn beginnings_of(alloc: Global, lines: &[Logged]) -> Result<Vec<u64>, AllocError> {
    let mut all = Vec::new(alloc);
    for (now, line) in lines {
        if let Line::Begins(_) = *line {
            all.push(*now)?;
        }
    }
    Ok(all)
}

/// Returns when each line was that says how long no frames went on, and for how many milliseconds that was.
pub(crate) fn aways_of(alloc: Global, lines: &[Logged]) -> Result<Vec<(u64, u64)>, AllocError> {
    let mut all = Vec::new(alloc);
    for (now, line) in lines {
        if let Line::Away(away) = *line {
            all.push((*now, away.milliseconds))?;
        }
    }
    Ok(all)
}

/// Returns how many reports there are, and how many frames were sent and numbers missing by all of them.
pub(crate) fn reports_of(lines: &[Logged]) -> (u64, u64, u64) {
    let (mut count, mut sent, mut missing) = (0u64, 0u64, 0u64);
    for (_, line) in lines {
        if let Line::Report(figures) = *line {
            count = count.saturating_add(1);
            sent = sent.saturating_add(figures.sent);
            missing = missing.saturating_add(figures.missing);
        }
    }
    (count, sent, missing)
}

/// Returns when a try ended, and its last line, if that is the last line of all.
pub(crate) fn end_of(lines: &[Logged]) -> Option<(u64, Figures, TryEnd)> {
    match lines.last() {
        Some((now, Line::Ends { figures, end })) => Some((*now, *figures, *end)),
        _ => None,
    }
}
