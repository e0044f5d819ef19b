//! An input while it is read.
ghost use Rattle.std.specs.Prelude.{◌≡◌, ◌++◌, ◌∷◌, [], true, false, map, Some, IfOk, IfSome, IfNone};
ghost use Rattle.std.specs.List.{AllByRecursion};
ghost use Rattle.ring_script.specs.Plans.{IsBelow};
ghost use Rattle.ring_script.specs.Drafts.{told, heard, IsSound, IsStuck, NoPlanBegins};
ghost use Rattle.ring_script.specs.declared.draft.Draft.TheVariants.{Listing};
ghost use Rattle.ring_script.specs.declared.line.Line.TheVariants.{Call};

use crate::call_line::CallLine;
use crate::line::Line;
use crate::plan::Plan;
use crate::read_line::read_line;
use base_syntax::Items;
use ring_steps::Config;
use std::alloc::{AllocError, Global};

/// What the lines of an input said so far.
#[derive(Drop)]
pub(crate) enum Draft {
    Empty,
    /// `keep` was read.
    Kept(u64),
    /// `keep` and `seats` were read, and these calls.
    Listing {
        config: Config,
        calls: Items<CallLine>,
    },
    /// All was read.
    Whole(Plan),
}

impl Draft {
    /// The draft with one more line. `None` where no input has that line there.
    pub(crate) fn read(self, alloc: Global, line: &[u8]) -> Result<Option<Draft>, AllocError>
        requires { IsSound self }
        ensures told { IfOk result (λ r. IfSome r (λ new. map Some (told new) ≡ map Some (told self) ++ heard line.now)) }
        ensures sound { IfOk result (λ r. IfSome r (λ new. IsSound new)) }
        ensures stuck { IfOk result (λ r. IfNone r (IsStuck self line.now)) }
    {
        if line.is_empty() {
            return Ok(Some(self));
        }
        match read_line(alloc, line)? {
            Some(said) => self.add(alloc, said),
            None => Ok(None),
        }
    }

    /// The draft with what one more line says.
    fn add(self, alloc: Global, line: Line) -> Result<Option<Draft>, AllocError>
        requires { IsSound self }
        ensures told { IfOk result (λ r. IfSome r (λ new. told new ≡ told self ++ line ∷ [])) }
        ensures sound { IfOk result (λ r. IfSome r (λ new. IsSound new)) }
        ensures none { IfOk result (λ r. IfNone r (NoPlanBegins (map Some (told self) ++ Some line ∷ []))) }
    {
        match self {
            Draft::Empty => match line {
                Line::Keep(keep) => Ok(Some(Draft::Kept(keep))),
                _ => Ok(None),
            },
            Draft::Kept(keep) => match line {
                Line::Seats(seats) => Ok(Some(Draft::Listing {
                    config: Config { keep, seats },
                    calls: Items::empty(alloc),
                })),
                _ => Ok(None),
            },
            Draft::Listing { config, calls } => match line {
                Line::Call(call) => list_call(config, calls, call),
                Line::Go(schedule) => Ok(Some(Draft::Whole(Plan {
                    config,
                    calls,
                    schedule,
                }))),
                _ => Ok(None),
            },
            Draft::Whole(_) => Ok(None),
        }
    }
}

/// Whether a call is the publisher's, or that of one of so many seats.
fn is_below(seats: u64, call: &CallLine) -> bool
    ensures yes { result ≡ true → IsBelow seats call.now }
    ensures no { result ≡ false → ¬ IsBelow seats call.now }
{
    match call {
        CallLine::ByPublisher(_) => true,
        CallLine::BySeat(seat, _) => *seat < seats,
    }
}

/// The draft with one more call.
fn list_call(
    config: Config,
    mut calls: Items<CallLine>,
    call: CallLine,
) -> Result<Option<Draft>, AllocError>
    requires { AllByRecursion (IsBelow config.seats) calls }
    ensures told { IfOk result (λ r. IfSome r (λ new. told new ≡ told (Listing config calls) ++ Call call ∷ [])) }
    ensures sound { IfOk result (λ r. IfSome r (λ new. IsSound new)) }
    ensures none { IfOk result (λ r. IfNone r (¬ IsBelow config.seats call)) }
{
    if !is_below(config.seats, &call) {
        return Ok(None);
    }
    calls.push(call)?;
    Ok(Some(Draft::Listing { config, calls }))
}
