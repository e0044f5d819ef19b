//! Bytes of a slot, one by one.
ghost use Rattle.std.specs.Prelude.{◌≡◌, slice_index_or, OnOk, OnErr};
ghost use Rattle.ring_steps.specs.Ring.{put};

use base_syntax::Bytes;
use std::alloc::AllocError;

/// The byte at a place, or 0 past the end.
pub(crate) fn byte_at(bytes: &Bytes, place: usize) -> u8
    ensures { result ≡ slice_index_or bytes.now place 0 }
{
    let bytes = bytes.as_slice();
    if place < bytes.len() { bytes[place] } else { 0 }
}

/// Writes the byte at a place that is there, or else adds it at the end.
pub(crate) fn put_byte(bytes: &mut Bytes, place: usize, byte: u8) -> Result<(), AllocError>
    ensures written { OnOk result (bytes.new ≡ put bytes.old place byte) }
    ensures err { OnErr result (bytes.new ≡ bytes.old) }
{
    if place < bytes.len() {
        bytes.set(place, byte);
    } else {
        bytes.push(byte)?;
    }
    Ok(())
}
