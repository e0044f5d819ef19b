//! What comes out of a step.

use std::alloc::{AllocError, Global};

/// What came out of a step, or has to come out: bytes that were written, and facts that were told.
#[derive(Drop)]
pub struct Told {
    pub text: Vec<u8>,
    /// The facts, an LF after each.
    pub facts: Vec<u8>,
}

impl Told {
    /// Nothing. Takes no memory.
    pub fn nothing(alloc: Global) -> Told {
        Told {
            text: Vec::new(alloc),
            facts: Vec::new(alloc),
        }
    }

    pub fn alloc(&self) -> Global {
        *self.text.allocator()
    }

    /// Begins a fact with a word and a space.
    pub fn word(&mut self, word: &[u8]) -> Result<(), AllocError> {
        self.facts.extend_from_slice(word)?;
        self.facts.push(b' ')?;
        Ok(())
    }

    /// Tells one more fact.
    pub fn fact(&mut self, fact: &[u8]) -> Result<(), AllocError> {
        self.facts.extend_from_slice(fact)?;
        self.facts.push(b'\n')?;
        Ok(())
    }

    /// Tells a word, and what stands after it, with a space between them where that is anything.
    pub fn named(&mut self, word: &[u8], value: &[u8]) -> Result<(), AllocError> {
        self.facts.extend_from_slice(word)?;
        if !value.is_empty() {
            self.facts.push(b' ')?;
        }
        self.fact(value)
    }

    /// Tells a number, or `none`.
    pub fn number(&mut self, number: Option<u64>) -> Result<(), AllocError> {
        match number {
            Some(number) => {
                let text = format!(in self.alloc(); "{number}")?;
                self.fact(text.as_bytes())
            }
            None => self.fact(b"none"),
        }
    }

    /// Tells `yes` or `no`.
    pub fn truth(&mut self, holds: bool) -> Result<(), AllocError> {
        self.fact(if holds { b"yes" } else { b"no" })
    }
}
