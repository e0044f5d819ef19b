//! The RTP-Info header (RFC 2326, 12.33).
ghost use Rattle.std.specs.Prelude.{◌≡◌, ◌≤◌, ◌+◌, ◌<◌, ◌++◌, OnOk, OnErr, length, take, vec_len, vec_capacity};
ghost use Rattle.transport_header.specs.RtpInfo.{entry_text, separator_text, item_text, rtp_info_text};

use base_syntax::Bytes;
use itoa::Buffer;
use std::alloc::AllocError;

/// What RTP-Info says of one track.
#[derive(Drop)]
pub struct InfoEntry {
    /// The URL of the track's stream.
    pub url: Bytes,
    /// The sequence number of the track's point, its last RTP packet published; the header names the one
    /// after it.
    pub sequence: u16,
    /// The RTP timestamp of the track's point, in the units of the track's clock.
    pub timestamp: u32,
}

// Appends the text of one track, or as much of it as there was room for.
#[tactic(auto, unfolding(crate::specs::RtpInfo::entry_text))]
fn write_entry(out: &mut Vec<u8>, entry: &InfoEntry) -> Result<(), AllocError>
    ensures text { OnOk result (out.new.items ≡ out.old.items ++ entry_text entry.now) }
    ensures kept { OnErr result (take (length out.old.items) out.new.items ≡ out.old.items) }
    ensures full { OnErr result (vec_capacity out.old < vec_len out.old + length (entry_text entry.now)) }
    ensures room { vec_capacity out.old ≤ vec_capacity out.new }
{
    let mut number = Buffer::new();
    out.extend_from_slice(b"url=")?;
    out.extend_from_slice(entry.url.as_slice())?;
    out.extend_from_slice(b";seq=")?;
    out.extend_from_slice(number.format(entry.sequence.wrapping_add(1)).as_bytes())?;
    out.extend_from_slice(b";rtptime=")?;
    out.extend_from_slice(number.format(entry.timestamp).as_bytes())
}

// Appends the text of the track at an index, after a comma unless it is the first, or as much of it as
// there was room for.
fn write_item(out: &mut Vec<u8>, index: usize, entry: &InfoEntry) -> Result<(), AllocError>
    ensures text { OnOk result (out.new.items ≡ out.old.items ++ item_text index entry.now) }
    ensures kept { OnErr result (take (length out.old.items) out.new.items ≡ out.old.items) }
    ensures full { OnErr result (vec_capacity out.old < vec_len out.old + length (item_text index entry.now)) }
    ensures room { vec_capacity out.old ≤ vec_capacity out.new }
{
    out.extend_from_slice(separator_before(index))?;
    write_entry(out, entry)
}

// What stands before the track at an index.
fn separator_before(index: usize) -> &'static [u8]
    ensures { result.now ≡ separator_text index }
{
    if index == 0 { b"" } else { b"," }
}

// Appends the text of `put_rtp_info`, or as much of it as there was room for.
fn write_entries(out: &mut Vec<u8>, entries: &[InfoEntry]) -> Result<(), AllocError>
    ensures text { OnOk result (out.new.items ≡ out.old.items ++ rtp_info_text entries.now) }
    ensures kept { OnErr result (take (length out.old.items) out.new.items ≡ out.old.items) }
    ensures full { OnErr result (vec_capacity out.old < vec_len out.old + length (rtp_info_text entries.now)) }
{
    for (i, entry) in entries.iter().enumerate() {
        write_item(out, i, entry)?;
    }
    Ok(())
}

/// Appends the value of an RTP-Info header: for each entry `url=X;seq=S;rtptime=T`, with commas between
/// them. X is its URL, S the sequence number after its point's, modulo 65,536, and T its timestamp
/// (RFC 2326, 12.33).
///
/// An error comes only where room for the text was missing and none was given; `out` is then as before.
pub fn put_rtp_info(out: &mut Vec<u8>, entries: &[InfoEntry]) -> Result<(), AllocError>
    ensures text { OnOk result (out.new.items ≡ out.old.items ++ rtp_info_text entries.now) }
    ensures unchanged { OnErr result (out.new.items ≡ out.old.items) }
    ensures full { OnErr result (vec_capacity out.old < vec_len out.old + length (rtp_info_text entries.now)) }
{
    let before = out.len();
    let written = write_entries(out, entries);
    if written.is_err() {
        out.truncate(before);
    }
    written
}
