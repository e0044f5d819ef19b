//! What a line of an input says.
ghost use Rattle.std.specs.Prelude.{◌≡◌, IfOk};
ghost use Rattle.base_syntax.specs.Cuts.{behind_first};
ghost use Rattle.ring_script.specs.LineForms.{line_of, publisher_call_of, seat_call_of, seat_line_of, is_space};
ghost use Rattle.std.specs.List.{before_first};

use crate::call_line::CallLine;
use crate::item::schedule;
use crate::line::Line;
use crate::parts::{behind, number};
use base_syntax::cut;
use hex::FromHexError;
use ring_steps::{Bytes, PublisherCall, SeatCall};
use std::alloc::{AllocError, Global};

/// A publish has at most so many bytes.
const MOST_BYTES: usize = 65535;

/// The call that stands after `p `.
#[tactic(auto, unfolding(crate::specs::LineForms::publisher_call_of))]
fn publisher_call(alloc: Global, text: &[u8]) -> Result<Option<CallLine>, AllocError>
    ensures { IfOk result (λ r. r ≡ publisher_call_of text.now) }
{
    if text == b"close".as_slice() {
        return Ok(Some(CallLine::ByPublisher(PublisherCall::Close)));
    }
    match hex::decode(alloc, text) {
        Ok(bytes) => {
            if bytes.is_empty() || bytes.len() > MOST_BYTES {
                return Ok(None);
            }
            let call = PublisherCall::Publish(Bytes::new(bytes));
            Ok(Some(CallLine::ByPublisher(call)))
        }
        Err(FromHexError::OutOfMemory) => Err(AllocError),
        Err(_) => Ok(None),
    }
}

/// The call that stands after a seat's number.
fn seat_call(text: &[u8]) -> Option<SeatCall>
    ensures { result ≡ seat_call_of text.now }
{
    if text == b"attach".as_slice() {
        Some(SeatCall::Attach { back: 0 })
    } else if text == b"take".as_slice() {
        Some(SeatCall::Take)
    } else if text == b"detach".as_slice() {
        Some(SeatCall::Detach)
    } else {
        let back = behind(b"attach ", text)?;
        number(back).map(|back| SeatCall::Attach { back })
    }
}

/// The call line of a seat: its number, one space and its call.
fn seat_line(line: &[u8]) -> Option<Line>
    ensures { result ≡ seat_line_of (before_first is_space line.now) (behind_first 32 line.now) }
{
    let (seat, call) = cut(line, b' ');
    let call = call?;
    let seat = number(seat)?;
    let call = seat_call(call)?;
    Some(Line::Call(CallLine::BySeat(seat, call)))
}

/// What a line says. `None` where it has no form that a line may have.
#[tactic(auto, unfolding(crate::specs::LineForms::line_of))]
pub(crate) fn read_line(alloc: Global, line: &[u8]) -> Result<Option<Line>, AllocError>
    ensures { IfOk result (λ r. r ≡ line_of line.now) }
{
    if let Some(rest) = behind(b"keep ", line) {
        return Ok(number(rest).map(|keep| Line::Keep(keep)));
    }
    if let Some(rest) = behind(b"seats ", line) {
        return Ok(number(rest).map(|seats| Line::Seats(seats)));
    }
    if let Some(rest) = behind(b"p ", line) {
        return Ok(publisher_call(alloc, rest)?.map(|call| Line::Call(call)));
    }
    if let Some(rest) = behind(b"go ", line) {
        return Ok(schedule(alloc, rest)?.map(|steps| Line::Go(steps)));
    }
    Ok(seat_line(line))
}
