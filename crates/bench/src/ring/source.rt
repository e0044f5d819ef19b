//! Packets whose bytes and lengths no compiler knows.
use std::alloc::{AllocError, Global};

/// Packets of up to so many bytes that follow from a seed.
#[derive(Drop)]
pub struct Source {
    word: u64,
    bytes: Vec<u8>,
}

impl Source {
    pub fn new(alloc: Global, seed: u64, size: usize) -> Result<Source, AllocError> {
        let mut word = seed;
        let mut bytes = Vec::with_capacity(alloc, size)?;
        for _ in 0..size {
            word = after(word);
            bytes.push(word.to_le_bytes()[7])?;
        }
        Ok(Source { word, bytes })
    }

    /// The next packet: eight bytes of it aren't those of the one before, and of its bytes up to seven are left out.
    pub fn next(&mut self) -> &[u8] {
        self.word = after(self.word);
        let places = self.bytes.len().saturating_sub(8).max(1);
        let place = (self.word >> 33) as usize % places;
        if let Some(bytes) = self.bytes.as_mut_slice().get_mut(place..place + 8) {
            bytes.copy_from_slice(&self.word.to_le_bytes());
        }
        let short = (self.word >> 60) as usize % 8;
        let len = self.bytes.len().saturating_sub(short);
        &self.bytes[..len]
    }
}

/// The word after this one.
fn after(word: u64) -> u64 {
    word.wrapping_mul(6_364_136_223_846_793_005)
        .wrapping_add(1_442_695_040_888_963_407)
}
