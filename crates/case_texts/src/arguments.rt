//! What stands after a call's word.
ghost use Rattle.std.specs.Prelude.{◌≤◌, IfOk};

use crate::escapes::{read_word, resolved};
use crate::fault::Fault;
use base_syntax::{cut, read_number};
use std::alloc::{AllocError, Global};

/// The words after a call's word, as far as they aren't taken, with a space between them.
#[derive(Drop)]
pub struct Arguments<'a> {
    rest: Option<&'a [u8]>,
}

impl<'a> Arguments<'a> {
    /// What follows the space after a word, if there is one.
    pub fn new(rest: Option<&'a [u8]>) -> Arguments<'a> {
        Arguments { rest }
    }

    /// Whether all are taken.
    pub fn is_empty(&self) -> bool {
        self.rest.is_none()
    }

    /// Takes the next word.
    pub fn word(&mut self) -> Option<&'a [u8]> {
        let (word, behind) = cut(self.rest?, b' ');
        self.rest = behind;
        Some(word)
    }

    /// Takes all words that are left.
    pub fn words(&mut self, alloc: Global) -> Result<Vec<&'a [u8]>, AllocError> {
        match self.rest.take() {
            Some(rest) => rest.split(|byte| *byte == b' ').collect(alloc),
            None => Ok(Vec::new(alloc)),
        }
    }

    /// Takes a number.
    pub fn number(&mut self) -> Result<u32, Fault> {
        let word = self.word().ok_or(Fault::BadNumber)?;
        read_number(word, u32::MAX).ok_or(Fault::BadNumber)
    }

    /// Takes a number up to a limit.
    pub fn number_to(&mut self, limit: u32) -> Result<u32, Fault>
        ensures { IfOk result (λ number. number ≤ limit) }
    {
        let number = self.number()?;
        if number <= limit {
            Ok(number)
        } else {
            Err(Fault::BadNumber)
        }
    }

    /// Takes a number of a byte.
    pub fn byte(&mut self) -> Result<u8, Fault> {
        let word = self.word().ok_or(Fault::BadNumber)?;
        byte_of(word)
    }

    /// Takes a number of 16 bits.
    pub fn short(&mut self) -> Result<u16, Fault> {
        let word = self.word().ok_or(Fault::BadNumber)?;
        short_of(word)
    }

    /// Takes a number, if there is a further word.
    pub fn number_or(&mut self, other: u32) -> Result<u32, Fault> {
        if self.is_empty() {
            Ok(other)
        } else {
            self.number()
        }
    }

    /// Takes a number of eight hexadecimal digits.
    pub fn hex(&mut self) -> Result<u32, Fault> {
        read_word(self.word().ok_or(Fault::BadNumber)?)
    }

    /// Takes all that is left, with its escapes resolved.
    pub fn text(&mut self, alloc: Global) -> Result<Vec<u8>, Fault> {
        let text = self.rest.take().unwrap_or(b"");
        resolved(alloc, text)
    }

    /// Nothing may be left.
    pub fn end(&self) -> Result<(), Fault> {
        if self.is_empty() {
            Ok(())
        } else {
            Err(Fault::MoreArguments)
        }
    }
}

/// The byte of a decimal number.
pub fn byte_of(word: &[u8]) -> Result<u8, Fault> {
    let number = read_number(word, 255).ok_or(Fault::BadNumber)?;
    u8::try_from(number).map_err(|_| Fault::BadNumber)
}

/// The number of 16 bits that digits write.
pub fn short_of(word: &[u8]) -> Result<u16, Fault> {
    let number = read_number(word, 65_535).ok_or(Fault::BadNumber)?;
    u16::try_from(number).map_err(|_| Fault::BadNumber)
}
