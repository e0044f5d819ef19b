//! A simulated server: the values that decide when a writer sleeps and who wakes it, composed as the server's threads compose them,
//! by schedules that a generator draws.
#![tactic(auto)]

#[cfg(test)]
mod fault;
#[cfg(test)]
mod forgotten_tests;
#[cfg(test)]
mod link;
#[cfg(test)]
mod publisher;
#[cfg(test)]
mod reader;
#[cfg(test)]
mod simulation;
#[cfg(test)]
mod waker;
#[cfg(test)]
mod world;
#[cfg(test)]
mod writer;
