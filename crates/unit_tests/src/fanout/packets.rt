//! Packets as frames, for tests.
use std::alloc::{AllocError, Global};

/// RTP packets of twelve bytes, as frames on channel 0, whose numbers go up from 0.
pub(crate) fn small_frames(alloc: Global, count: u16) -> Result<Vec<u8>, AllocError> {
    let mut frames = Vec::new(alloc);
    for number in 0..count {
        let mut frame = *b"\x24\x00\x00\x0c\x80\x60\x00\x00\x00\x00\x23\x28\x00\x00\x00\x00";
        frame[6..8].copy_from_slice(&number.to_be_bytes());
        frames.extend_from_slice(&frame)?;
    }
    Ok(frames)
}

/// The number in a packet's frame.
pub(crate) fn number_in(frame: &[u8]) -> u16 {
    match frame {
        [_, _, _, _, _, _, high, low, ..] => u16::from_be_bytes([*high, *low]),
        _ => u16::MAX,
    }
}
