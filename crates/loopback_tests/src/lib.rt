//! Tests of the server over loopback, over what `relay_server` makes public. They set what only a program of their own can
//! set: a clock, a gate, a listener that fails, and the book. `tools/check-program` tests the built program.
//!
//! They are in a crate of their own, so that the server isn't proved twice.
#![tactic(auto)]

#[cfg(test)]
mod access_tests;
#[cfg(test)]
mod dial;
#[cfg(test)]
mod expiry_tests;
#[cfg(test)]
mod held;
#[cfg(test)]
mod lines;
#[cfg(test)]
mod loopback;
#[cfg(test)]
mod refused_tests;
#[cfg(test)]
mod row_tests;
#[cfg(test)]
mod scripted;
#[cfg(test)]
mod serving_tests;
