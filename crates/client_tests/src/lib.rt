//! Random exchanges of a client of RTSP servers.
#![tactic(auto)]

#[cfg(test)]
mod client_tests;
#[cfg(test)]
mod draws;
#[cfg(test)]
mod outcome;
#[cfg(test)]
mod table;
#[cfg(test)]
mod walk;
