//! Running the cases of a text.

use crate::cases::Case;
use crate::fault::Fault;
use crate::lines::{Line, read_line};
use crate::parts::Parts;
use crate::step::{Input, Step};
use crate::suite::{Kind, Suite};
use crate::tally::Tally;
use crate::told::Told;
use std::alloc::Global;

/// What a run of the cases of a text came to.
#[derive(Drop)]
pub struct Outcome {
    /// What is to be printed.
    pub report: Vec<u8>,
    /// Whether each step gave what it had to.
    pub holds: bool,
    /// Why the text can't be run on, and the number of the line.
    pub fault: Option<(usize, Fault)>,
}

/// Runs all cases of a text, and counts them.
pub fn outcome_of<W: Suite>(alloc: Global, suite: &W, text: &[u8]) -> Outcome {
    let mut tally = Tally::new(alloc);
    let fault = match run(&mut tally, suite, text) {
        Ok(()) => None,
        Err(fault) => Some((tally.line, fault)),
    };
    Outcome {
        holds: fault.is_none() && !tally.differs,
        fault,
        report: tally.report,
    }
}

fn run<W: Suite>(tally: &mut Tally, suite: &W, text: &[u8]) -> Result<(), Fault> {
    let mut parts = Parts::new(tally.alloc);
    let mut open = None;
    for (index, line) in text.split(|byte| *byte == b'\n').enumerate() {
        tally.line = index.saturating_add(1);
        read(suite, tally, &mut parts, &mut open, line)?;
    }
    if open.is_some() || parts.is_open() {
        return Err(Fault::NoEnd);
    }
    tally.tell_counts(suite.kinds())?;
    Ok(())
}

/// The case that is read, if there is one.
type Open<W> = Option<Case<<W as Suite>::Kind, <W as Suite>::Subject>>;

/// Reads the next line of a text.
fn read<'a, W: Suite>(
    suite: &W,
    tally: &mut Tally,
    parts: &mut Parts<'a>,
    open: &mut Open<W>,
    line: &'a [u8],
) -> Result<(), Fault> {
    if parts.is_open() {
        return parts.add(line);
    }
    match read_line(line)? {
        Line::Nothing => Ok(()),
        Line::Part(name) => parts.begin(name, tally.line.saturating_add(1)),
        Line::Use(name) => use_part(suite, tally, parts, open, name),
        Line::Case { kind, title } => begin(suite, tally.alloc, open, kind, title),
        line => go_on(suite, tally, open, line),
    }
}

/// Reads the lines of a part.
fn use_part<W: Suite>(
    suite: &W,
    tally: &mut Tally,
    parts: &Parts<'_>,
    open: &mut Open<W>,
    name: &[u8],
) -> Result<(), Fault> {
    let part = parts.named(name)?;
    for (index, line) in part.lines.iter().enumerate() {
        tally.line = part.line.saturating_add(index);
        let line = read_line(line)?;
        go_on(suite, tally, open, line)?;
    }
    Ok(())
}

fn begin<W: Suite>(
    suite: &W,
    alloc: Global,
    open: &mut Open<W>,
    name: &[u8],
    title: &[u8],
) -> Result<(), Fault> {
    if open.is_some() {
        return Err(Fault::CaseInCase);
    }
    for (place, kind) in suite.kinds().iter().enumerate() {
        if kind.name().as_bytes() == name {
            let subject = suite.begin(*kind)?;
            *open = Some(Case::new(alloc, *kind, place, title, subject)?);
            return Ok(());
        }
    }
    Err(Fault::UnknownKind)
}

/// Reads the next line of the open case.
fn go_on<W: Suite>(
    suite: &W,
    tally: &mut Tally,
    open: &mut Open<W>,
    line: Line<'_>,
) -> Result<(), Fault> {
    let Some(case) = open else {
        return Err(Fault::NoCase);
    };
    match line {
        Line::Nothing => Ok(()),
        Line::Input { from, text } => add_input(suite, tally, case, from, text),
        Line::Output { to, text } => case.expect_output(to, text),
        Line::Fact(text) => case.expect_fact(text),
        Line::Call(line) => {
            let call = Vec::from_slice(tally.alloc, line)?;
            begin_step(suite, tally, case, Input::Call(call))
        }
        Line::End => {
            begin_step(suite, tally, case, Input::End)?;
            finish_step(suite, tally, case)?;
            tally.count(case.place)?;
            *open = None;
            Ok(())
        }
        Line::Case { .. } | Line::Part(_) | Line::Use(_) => Err(Fault::UnknownWord),
    }
}

/// A line goes in.
fn add_input<W: Suite>(
    suite: &W,
    tally: &mut Tally,
    case: &mut Case<W::Kind, W::Subject>,
    from: Option<u32>,
    text: &[u8],
) -> Result<(), Fault> {
    if from.is_some() != case.kind.has_connections() {
        return Err(Fault::BadConnection);
    }
    if !case.is_continued(from) {
        let bytes = Vec::new(tally.alloc);
        begin_step(suite, tally, case, Input::Block { from, bytes })?;
    }
    case.add_input(text)
}

/// Runs the step before, and begins the next.
fn begin_step<W: Suite>(
    suite: &W,
    tally: &mut Tally,
    case: &mut Case<W::Kind, W::Subject>,
    input: Input,
) -> Result<(), Fault> {
    finish_step(suite, tally, case)?;
    case.begin(tally.alloc, tally.line, input);
    Ok(())
}

/// Runs the step that is not run yet, and adds to the report if it differs.
fn finish_step<W: Suite>(
    suite: &W,
    tally: &mut Tally,
    case: &mut Case<W::Kind, W::Subject>,
) -> Result<(), Fault> {
    let Some(mut step) = case.take_step() else {
        return Ok(());
    };
    let line = tally.line;
    tally.line = step.line;
    run_step(suite, tally, case, &mut step)?;
    tally.line = line;
    Ok(())
}

fn run_step<W: Suite>(
    suite: &W,
    tally: &mut Tally,
    case: &mut Case<W::Kind, W::Subject>,
    step: &mut Step,
) -> Result<(), Fault> {
    step.expect_usual(case.kind.fact_of_input())?;
    let mut came = Told::nothing(tally.alloc);
    suite.run(&mut case.subject, &step.input, &mut came)?;
    Ok(tally.compare(&case.title, step, &came)?)
}
