//! Tests of the crates below the server, over what these make public.
//!
//! They are in one crate of their own: so none of those that they test is proved twice, and what a program reads of its
//! libraries before its proof begins is read once.
#![tactic(auto)]

#[cfg(test)]
mod fanout;
#[cfg(test)]
mod ring;
#[cfg(test)]
mod texts;
