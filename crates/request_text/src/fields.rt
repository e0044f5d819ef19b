//! The text of the fields of a request.
ghost use Rattle.std.specs.Prelude.{◌≡◌, ◌++◌, length, take, codes, decimal, OnOk, OnErr};
ghost use Rattle.std.specs.List.{flat_map};
ghost use Rattle.std.specs.Option.{option_copied};
ghost use Rattle.request_text.specs.Fields.{accept_field, closing_fields, field_text, general_fields, given_field, header, headers_of, length_field, opening_fields, range_field, type_field};

use crate::asked::Asked;
use crate::request_text::RequestText;
use itoa::Buffer;
use std::alloc::AllocError;

/// Appends the fields of a request, or a part of their text if memory is refused.
#[tactic(auto, using(std::proofs::lemmas::Grind::common_steps, crate::proofs::Joining::fields_append, crate::proofs::Joining::one_field))]
pub(crate) fn write_fields(out: &mut Vec<u8>, request: &RequestText<'_>) -> Result<(), AllocError>
    ensures text { OnOk result (out.new.items ≡ out.old.items ++ flat_map field_text (headers_of request.now)) }
    ensures kept { OnErr result (take (length out.old.items) out.new.items ≡ out.old.items) }
{
    write_opening(out, request)?;
    write_closing(out, request)?;
    write_length(out, request.asked.description())
}

/// Appends the fields up to Transport, or a part of their text if memory is refused.
#[tactic(auto, using(std::proofs::lemmas::Grind::common_steps, crate::proofs::Joining::fields_append, crate::proofs::Joining::one_field))]
fn write_opening(out: &mut Vec<u8>, request: &RequestText<'_>) -> Result<(), AllocError>
    ensures text { OnOk result (out.new.items ≡ out.old.items ++ flat_map field_text (opening_fields request.now)) }
    ensures kept { OnErr result (take (length out.old.items) out.new.items ≡ out.old.items) }
{
    write_general(out, request)?;
    write_accept(out, request.asked)?;
    write_given(out, b"Transport", request.asked.transport())
}

/// Appends the fields from Session to Content-Type, or a part of their text if memory is refused.
#[tactic(auto, using(std::proofs::lemmas::Grind::common_steps, crate::proofs::Joining::fields_append, crate::proofs::Joining::one_field))]
fn write_closing(out: &mut Vec<u8>, request: &RequestText<'_>) -> Result<(), AllocError>
    ensures text { OnOk result (out.new.items ≡ out.old.items ++ flat_map field_text (closing_fields request.now)) }
    ensures kept { OnErr result (take (length out.old.items) out.new.items ≡ out.old.items) }
{
    write_given(out, b"Session", request.session)?;
    write_range(out, request.asked)?;
    write_given(out, b"Authorization", request.authorization)?;
    write_type(out, request.asked.description())
}

/// Appends a field, or a part of its text if memory is refused.
#[tactic(auto, unfolding(crate::specs::Fields::field_text))]
fn write_field(out: &mut Vec<u8>, name: &[u8], value: &[u8]) -> Result<(), AllocError>
    ensures text { OnOk result (out.new.items ≡ out.old.items ++ field_text (header name.now value.now)) }
    ensures kept { OnErr result (take (length out.old.items) out.new.items ≡ out.old.items) }
{
    out.extend_from_slice(name)?;
    out.extend_from_slice(b": ")?;
    out.extend_from_slice(value)?;
    out.extend_from_slice(b"\r\n")
}

/// Appends a field that has a value, or a part of its text if memory is refused.
fn write_given(out: &mut Vec<u8>, name: &[u8], value: Option<&[u8]>) -> Result<(), AllocError>
    ensures text { OnOk result (out.new.items ≡ out.old.items ++ flat_map field_text (given_field name.now (option_copied value.entry))) }
    ensures kept { OnErr result (take (length out.old.items) out.new.items ≡ out.old.items) }
{
    match value {
        None => Ok(()),
        Some(value) => write_field(out, name, value),
    }
}

/// Appends Accept, if the request has it, or a part of its text if memory is refused.
fn write_accept(out: &mut Vec<u8>, asked: Asked<'_>) -> Result<(), AllocError>
    ensures text { OnOk result (out.new.items ≡ out.old.items ++ flat_map field_text (accept_field asked.entry)) }
    ensures kept { OnErr result (take (length out.old.items) out.new.items ≡ out.old.items) }
{
    match asked {
        Asked::Describe => write_field(out, b"Accept", b"application/sdp"),
        _ => Ok(()),
    }
}

/// Appends Range, if the request has it, or a part of its text if memory is refused.
fn write_range(out: &mut Vec<u8>, asked: Asked<'_>) -> Result<(), AllocError>
    ensures text { OnOk result (out.new.items ≡ out.old.items ++ flat_map field_text (range_field asked.entry)) }
    ensures kept { OnErr result (take (length out.old.items) out.new.items ≡ out.old.items) }
{
    match asked {
        Asked::Record | Asked::Play => write_field(out, b"Range", b"npt=0.000-"),
        _ => Ok(()),
    }
}

/// Appends CSeq and User-Agent, or a part of their text if memory is refused.
#[tactic(auto, using(std::proofs::lemmas::Grind::common_steps, crate::proofs::Joining::general_text))]
fn write_general(out: &mut Vec<u8>, request: &RequestText<'_>) -> Result<(), AllocError>
    ensures text { OnOk result (out.new.items ≡ out.old.items ++ flat_map field_text (general_fields request.now)) }
    ensures kept { OnErr result (take (length out.old.items) out.new.items ≡ out.old.items) }
{
    write_number(out, request.number)?;
    write_agent(out)
}

/// Appends CSeq, or a part of its text if memory is refused.
fn write_number(out: &mut Vec<u8>, number: u32) -> Result<(), AllocError>
    ensures text { OnOk result (out.new.items ≡ out.old.items ++ field_text (header (codes "CSeq") (decimal number))) }
    ensures kept { OnErr result (take (length out.old.items) out.new.items ≡ out.old.items) }
{
    let mut digits = Buffer::new();
    write_field(out, b"CSeq", digits.format(number).as_bytes())
}

/// Appends User-Agent, or a part of its text if memory is refused.
fn write_agent(out: &mut Vec<u8>) -> Result<(), AllocError>
    ensures text { OnOk result (out.new.items ≡ out.old.items ++ field_text (header (codes "User-Agent") (codes "Vasklun/0.1"))) }
    ensures kept { OnErr result (take (length out.old.items) out.new.items ≡ out.old.items) }
{
    write_field(out, b"User-Agent", b"Vasklun/0.1")
}

/// Appends Content-Type, if a description is sent, or a part of its text if memory is refused.
#[tactic(auto, using(std::proofs::lemmas::Grind::common_steps, crate::proofs::Joining::type_text))]
fn write_type(out: &mut Vec<u8>, description: Option<&[u8]>) -> Result<(), AllocError>
    ensures text { OnOk result (out.new.items ≡ out.old.items ++ flat_map field_text (type_field (option_copied description.entry))) }
    ensures kept { OnErr result (take (length out.old.items) out.new.items ≡ out.old.items) }
{
    match description {
        None => Ok(()),
        Some(_sent) => write_sdp_type(out),
    }
}

/// Appends Content-Type of a description, or a part of its text if memory is refused.
fn write_sdp_type(out: &mut Vec<u8>) -> Result<(), AllocError>
    ensures text { OnOk result (out.new.items ≡ out.old.items ++ field_text (header (codes "Content-Type") (codes "application/sdp"))) }
    ensures kept { OnErr result (take (length out.old.items) out.new.items ≡ out.old.items) }
{
    write_field(out, b"Content-Type", b"application/sdp")
}

/// Appends Content-Length, if a description is sent, or a part of its text if memory is refused.
fn write_length(out: &mut Vec<u8>, description: Option<&[u8]>) -> Result<(), AllocError>
    ensures text { OnOk result (out.new.items ≡ out.old.items ++ flat_map field_text (length_field (option_copied description.entry))) }
    ensures kept { OnErr result (take (length out.old.items) out.new.items ≡ out.old.items) }
{
    match description {
        None => Ok(()),
        Some(description) => write_length_of(out, description),
    }
}

/// Appends the length of a description, or a part of the text if memory is refused.
fn write_length_of(out: &mut Vec<u8>, description: &[u8]) -> Result<(), AllocError>
    ensures text { OnOk result (out.new.items ≡ out.old.items ++ field_text (header (codes "Content-Length") (decimal (length description.now)))) }
    ensures kept { OnErr result (take (length out.old.items) out.new.items ≡ out.old.items) }
{
    let mut digits = Buffer::new();
    write_field(
        out,
        b"Content-Length",
        digits.format(description.len()).as_bytes(),
    )
}
