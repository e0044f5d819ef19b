//! Tests of the crates that read and write texts, messages and frames.
//!
//! Tables of what is read and replied are cases of `transcripts`, and what a clause states of every input has no test. Here
//! are the tests that need code: devices, when they are read and written to, and capacity.

mod of_gathering;
mod of_intakes;
mod of_interleaved;
mod of_payloads;
mod of_rooms;
mod of_try_flush;
