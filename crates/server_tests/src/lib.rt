//! Tests of connections over devices in memory, over what `relay_connection` makes public.
//!
//! They are in a crate of their own, so that the server isn't proved twice.
#![tactic(auto)]

#[cfg(test)]
mod account_tests;
#[cfg(test)]
mod beside_tests;
#[cfg(test)]
mod book_tests;
#[cfg(test)]
mod clock_tests;
#[cfg(test)]
mod connection_tests;
#[cfg(test)]
mod devices;
#[cfg(test)]
mod ending_tests;
#[cfg(test)]
mod expiry_tests;
#[cfg(test)]
mod limits_tests;
#[cfg(test)]
mod lines;
#[cfg(test)]
mod looking_tests;
#[cfg(test)]
mod memory_tests;
#[cfg(test)]
mod moments;
#[cfg(test)]
mod offers_tests;
#[cfg(test)]
mod parting_tests;
#[cfg(test)]
mod rings;
#[cfg(test)]
mod serving;
#[cfg(test)]
mod silence_tests;
#[cfg(test)]
mod slow_reply_tests;
#[cfg(test)]
mod steps;
#[cfg(test)]
mod words;
