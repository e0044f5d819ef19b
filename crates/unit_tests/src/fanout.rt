//! Tests of the fan-out: how a publisher waits for players, players that take nothing, and packets that come before a sleep.

mod between_tests;
mod left_tests;
mod pace_tests;
mod pacing_tests;
mod packets;
mod stage;
mod stalled_tests;
mod unreadable;
