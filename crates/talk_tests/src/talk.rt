//! Tests of one connection over any devices and of the command line.

mod answers_tests;
mod command_line_tests;
mod devices;
mod exchange_tests;
mod expiry_tests;
mod help_tests;
mod memory_tests;
mod pass_line_tests;
mod prompt_tests;
mod pull_line_tests;
mod talker_tests;
mod words_tests;
