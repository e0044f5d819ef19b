//! Tests of the broadcast log, of the ring's core with its command, of the running ring, and of the engines.

mod beside_tests;
mod failed_write_tests;
mod known_tests;
mod lending_tests;
mod log_tests;
mod many_publishes_tests;
mod memory_tests;
mod pass_tests;
mod player_tests;
mod publisher_tests;
mod running_tests;
mod script_tests;
mod steps_tests;
