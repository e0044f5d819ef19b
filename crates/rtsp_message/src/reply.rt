//! Replies and their text.
ghost use Rattle.std.specs.Prelude.{◌≡◌, ◌++◌, ◌+◌, ◌≤◌, length, take, IfOk, OnOk, OnErr, codes};
ghost use Rattle.std.specs.Option.{option_map};
ghost use Rattle.rtsp_message.specs.Reply.{reply_text, status_line, cseq_field, fields_text, field, length_field};

use crate::status::Status;
use base_syntax::Bytes;
use itoa::Buffer;
use std::alloc::{AllocError, Global};

/// The fields that a reply may have between CSeq and Content-Length, each with its value where it is written.
#[derive(Drop)]
pub struct Fields {
    pub session: Option<Bytes>,
    pub public: Option<Bytes>,
    pub allow: Option<Bytes>,
    pub unsupported: Option<Bytes>,
    pub transport: Option<Bytes>,
    pub rtp_info: Option<Bytes>,
    pub content_base: Option<Bytes>,
    pub content_type: Option<Bytes>,
}

impl Fields {
    /// No field at all.
    pub fn none() -> Fields
        ensures { result ≡ record { session = None; public = None; allow = None; unsupported = None; transport = None; rtp_info = None; content_base = None; content_type = None } }
    {
        Fields {
            session: None,
            public: None,
            allow: None,
            unsupported: None,
            transport: None,
            rtp_info: None,
            content_base: None,
            content_type: None,
        }
    }

    /// A copy of them. The only error is out of memory.
    pub fn copy(&self, alloc: Global) -> Result<Fields, AllocError>
        ensures { IfOk result (λ copied. copied ≡ self.now) }
    {
        Ok(Fields {
            session: copy_value(alloc, &self.session)?,
            public: copy_value(alloc, &self.public)?,
            allow: copy_value(alloc, &self.allow)?,
            unsupported: copy_value(alloc, &self.unsupported)?,
            transport: copy_value(alloc, &self.transport)?,
            rtp_info: copy_value(alloc, &self.rtp_info)?,
            content_base: copy_value(alloc, &self.content_base)?,
            content_type: copy_value(alloc, &self.content_type)?,
        })
    }
}

fn copy_value(alloc: Global, value: &Option<Bytes>) -> Result<Option<Bytes>, AllocError>
    ensures { IfOk result (λ copied. copied ≡ value.now) }
{
    match value {
        None => Ok(None),
        Some(text) => Ok(Some(Bytes::from_slice(alloc, text.as_slice())?)),
    }
}

/// A reply (RFC 2326, 7).
pub struct Reply {
    pub status: Status,
    /// The number of the request that is answered, where it could be read (RFC 2326, 12.17).
    pub cseq: Option<u32>,
    pub fields: Fields,
    /// Empty where there is no body.
    pub body: Bytes,
}

impl Drop for Reply {
    fn drop(self) {
        let Reply {
            status: _,
            cseq: _,
            fields: _,
            body: _,
        } = self;
    }
}

impl Reply {
    /// A copy of it. The only error is out of memory.
    pub fn copy(&self, alloc: Global) -> Result<Reply, AllocError>
        ensures { IfOk result (λ copied. copied ≡ self.now) }
    {
        Ok(Reply {
            status: self.status,
            cseq: self.cseq,
            fields: self.fields.copy(alloc)?,
            body: Bytes::from_slice(alloc, self.body.as_slice())?,
        })
    }
}

/// Appends the text of a reply. After an `Err` `out` is as before.
pub fn put_reply(out: &mut Vec<u8>, reply: &Reply) -> Result<(), AllocError>
    ensures ok { OnOk result (out.new.items ≡ out.old.items ++ reply_text reply.now) }
    ensures err { OnErr result (out.new.items ≡ out.old.items) }
{
    let text = reply_bytes(*out.allocator(), reply)?;
    out.extend_from_slice(text.as_slice())
}

fn reply_bytes(alloc: Global, reply: &Reply) -> Result<Vec<u8>, AllocError>
    ensures { IfOk result (λ text. text.items ≡ reply_text reply.now) }
{
    let mut text = Vec::new(alloc);
    push_status_line(&mut text, reply.status)?;
    push_cseq(&mut text, reply.cseq)?;
    push_fields(&mut text, &reply.fields)?;
    push_length(&mut text, reply.body.as_slice())?;
    text.extend_from_slice(b"\r\n")?;
    text.extend_from_slice(reply.body.as_slice())?;
    Ok(text)
}

fn push_status_line(text: &mut Vec<u8>, status: Status) -> Result<(), AllocError>
    ensures { OnOk result (text.new.items ≡ text.old.items ++ status_line status) }
{
    let mut digits = Buffer::new();
    text.extend_from_slice(b"RTSP/1.0 ")?;
    text.extend_from_slice(digits.format(status.code()).as_bytes())?;
    text.extend_from_slice(b" ")?;
    text.extend_from_slice(status.reason().as_bytes())?;
    text.extend_from_slice(b"\r\n")
}

fn push_cseq(text: &mut Vec<u8>, cseq: Option<u32>) -> Result<(), AllocError>
    ensures { OnOk result (text.new.items ≡ text.old.items ++ cseq_field cseq) }
{
    match cseq {
        None => Ok(()),
        Some(number) => {
            let mut digits = Buffer::new();
            push_field(text, b"CSeq", digits.format(number).as_bytes())
        }
    }
}

fn push_fields(text: &mut Vec<u8>, fields: &Fields) -> Result<(), AllocError>
    ensures { OnOk result (text.new.items ≡ text.old.items ++ fields_text fields.now) }
{
    push_given(text, b"Session", &fields.session)?;
    push_given(text, b"Public", &fields.public)?;
    push_given(text, b"Allow", &fields.allow)?;
    push_given(text, b"Unsupported", &fields.unsupported)?;
    push_given(text, b"Transport", &fields.transport)?;
    push_given(text, b"RTP-Info", &fields.rtp_info)?;
    push_given(text, b"Content-Base", &fields.content_base)?;
    push_given(text, b"Content-Type", &fields.content_type)
}

fn push_given(text: &mut Vec<u8>, name: &[u8], value: &Option<Bytes>) -> Result<(), AllocError>
    ensures { OnOk result (text.new.items ≡ text.old.items ++ field name.now value.now) }
{
    match value {
        None => Ok(()),
        Some(value) => push_field(text, name, value.as_slice()),
    }
}

fn push_length(text: &mut Vec<u8>, body: &[u8]) -> Result<(), AllocError>
    ensures { OnOk result (text.new.items ≡ text.old.items ++ length_field body.now) }
{
    if body.is_empty() {
        return Ok(());
    }
    let mut digits = Buffer::new();
    push_field(
        text,
        b"Content-Length",
        digits.format(body.len()).as_bytes(),
    )
}

fn push_field(text: &mut Vec<u8>, name: &[u8], value: &[u8]) -> Result<(), AllocError>
    ensures { OnOk result (text.new.items ≡ text.old.items ++ (name.now ++ codes ": " ++ value.now ++ codes "\r\n")) }
{
    text.extend_from_slice(name)?;
    text.extend_from_slice(b": ")?;
    text.extend_from_slice(value)?;
    text.extend_from_slice(b"\r\n")
}
