//! What a client's requests and frames are to a server: what is sent is read, relayed and accepted. Laws, and no code.
#![tactic(auto)]

pub mod laws;
