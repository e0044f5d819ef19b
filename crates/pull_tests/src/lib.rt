//! Tests of the tries of `relay pull`, with a source, a target and a clock in memory.
#![tactic(auto)]

#[cfg(test)]
mod delay_tests;
#[cfg(test)]
mod end_tests;
#[cfg(test)]
mod frame_tests;
#[cfg(test)]
mod logged;
#[cfg(test)]
mod pending;
#[cfg(test)]
mod script;
#[cfg(test)]
mod scripted;
#[cfg(test)]
mod scripted_wires;
#[cfg(test)]
mod seen;
#[cfg(test)]
mod station;
#[cfg(test)]
mod tries_tests;
