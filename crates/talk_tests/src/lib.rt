//! Tests of one connection, of the book and of the command line, over what `relay_talk`, `session_lock`, `session_words` and
//! `relay_command` make public.
//!
//! They are in a crate of their own, so that none of those that they test is proved twice, and `unit_tests` doesn't wait for
//! `relay_talk`.
#![tactic(auto)]

#[cfg(test)]
mod session;
#[cfg(test)]
mod talk;
