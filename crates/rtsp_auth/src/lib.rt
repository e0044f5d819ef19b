//! How a client answers `401 Unauthorized` of an RTSP server (RFC 2326, 11.1): Digest (RFC 7616, and RFC 2617's form
//! without `qop`) and Basic (RFC 7617). It has no socket, no clock and no random numbers.
#![tactic(auto)]

mod algorithm;
mod answer;
mod attempt;
mod basic;
mod challenge;
mod choice;
mod choice_fault;
mod credentials;
mod credentials_fault;
mod digest;
mod field_fault;
mod front;
mod item;
mod items;
pub mod laws;
mod offer;
mod parameters;
mod pieces;
mod place;
mod plain;
mod quoting;
mod request;
mod responses;
mod settling;
mod values;
mod words;

pub use algorithm::Algorithm;
pub use answer::{Answer, DigestAnswer, NonceUse};
pub use attempt::Attempt;
pub use challenge::{Challenge, DigestChallenge};
pub use choice::choose;
pub use choice_fault::ChoiceFault;
pub use credentials::Credentials;
pub use credentials_fault::CredentialsFault;
pub use field_fault::FieldFault;
pub use items::MOST_FIELD_BYTES;
pub use parameters::MOST_VALUE_BYTES;
pub use request::Request;
pub use responses::response;
