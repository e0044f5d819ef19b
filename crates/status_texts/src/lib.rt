//! The texts of `/metrics` and `/status.json`, as functions of a snapshot: no socket, no lock, no clock.
#![tactic(auto)]

mod family;
mod figures;
mod last_packets;
mod metrics;
mod mount_metrics;
mod number;
mod player_family;
mod player_metrics;
mod process_metrics;
mod seat_figures;
mod server_metrics;
mod serving_family;
mod serving_metrics;
mod track_family;
mod track_figures;
mod track_metrics;

pub use metrics::put_metrics;
pub use player_metrics::put_player_metrics;
pub use server_metrics::ServerFacts;
