//! Tests of the log lines of a server, over what `relay_log` makes public.
//!
//! They are in a crate of their own, so that what they test isn't proved twice.
#![tactic(auto)]

#[cfg(test)]
mod text_tests;
