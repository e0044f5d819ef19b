//! What is told of values that print.

use case_texts::{Arguments, Fault, Told, resolved};
use std::alloc::{AllocError, Global};
use std::fmt::Display;

/// Tells `refused` and why.
pub fn tell_refused<T: Display + Drop>(told: &mut Told, fault: T) -> Result<(), AllocError> {
    told.facts.extend_from_slice(b"refused ")?;
    tell_printed(told, fault)
}

/// Tells what a value prints.
pub fn tell_printed<T: Display + Drop>(told: &mut Told, value: T) -> Result<(), AllocError> {
    let text = format!(in told.alloc(); "{value}")?;
    told.fact(text.as_bytes())
}

/// Tells a host, a port and a URI.
pub fn tell_place(told: &mut Told, host: &[u8], port: u16, uri: &[u8]) -> Result<(), AllocError> {
    told.word(host)?;
    let port = format!(in told.alloc(); "{port}")?;
    told.word(port.as_bytes())?;
    told.fact(uri)
}

/// Takes the next word, with its escapes resolved; an empty text if there is none.
pub fn word_of(arguments: &mut Arguments<'_>, alloc: Global) -> Result<Vec<u8>, Fault> {
    resolved(alloc, arguments.word().unwrap_or(b""))
}
