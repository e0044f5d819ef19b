//! The text exposition format of Prometheus, version 0.0.4
//! (<https://prometheus.io/docs/instrumenting/exposition_formats/>): values in, bytes out.
#![tactic(auto)]

mod escapes;
mod exposition;
mod kind;
mod label;
pub mod laws;
mod seconds;

pub use exposition::{put_head, put_sample, put_seconds};
pub use kind::MetricKind;
pub use label::Label;
