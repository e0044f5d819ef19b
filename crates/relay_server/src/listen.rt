//! The listening thread, and the threads that all connections share.
//!
//! `run_server` runs on the thread that called it. It accepts, lets each connection into the book and starts its thread, and at last
//! waits for the ends of all. What is started once for all connections is in `helpers`: the threads that wake players, send frames,
//! write and report lines, and close the sockets of refused peers. The listening thread takes one lock at a time: the book for one
//! call, or a list of connections, sockets or refused peers for a walk over it. No lock is held while it accepts, writes a refusal
//! or waits. Of a connection that comes from a proxy, its own thread reads the proxy's header first.
pub(crate) mod accepting;
pub(crate) mod accepts;
pub(crate) mod ending;
pub(crate) mod helpers;
pub(crate) mod new_connection;
pub(crate) mod options;
pub(crate) mod proxied;
pub(crate) mod refused_peers;
pub(crate) mod server;
pub(crate) mod stopping;
