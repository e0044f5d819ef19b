//! What a server has to answer a request (RFC 2326, 10 to 12 and A.2), said over the history of all that was asked and
//! answered (`specs/`), and what it remembers to decide it.
//!
//! What users of the crate see stands in the files beside this one. The folders have how a request is decided: `checks/`
//! whether it is accepted, `replies/` what it is answered, and `world/` what that changes.
#![tactic(auto)]

mod act;
mod checks;
mod decision;
mod entry;
mod fault;
mod given;
pub mod laws;
mod method;
mod moments;
mod replies;
mod session;
mod words;
mod world;

pub use act::Act;
pub use checks::sound_method;
pub use decision::Decision;
pub use entry::Entry;
pub use fault::ConnectFault;
pub use given::Given;
pub use method::{Method, read_method};
pub use moments::Moments;
pub use session::{Session, State};
pub use words::Words;
pub use world::{MAX_CONNECTIONS, World};
