//! The addresses of a command line.

use log::{Log, error};
use std::io;

/// The source that lines are logged with.
const TARGET: &str = "relay_main::serve";

/// Logs why nothing can be bound to an address, and if the text has no form of one what is asked for.
pub(crate) fn log_no_listener<R: Log>(rt: &R, addr: &str, error: io::Error) {
    if is_address(addr) {
        error!(rt; target: TARGET, "{addr}: {error}");
    } else {
        error!(rt; target: TARGET, "{addr}: {error}: ADDRESS:PORT is asked for, as 127.0.0.1:8554, or 0.0.0.0:8554 for all addresses");
    }
}

/// Whether a text has the form of a host and a port.
fn is_address(text: &str) -> bool {
    match text.rsplit_once(':') {
        Some((host, port)) => is_host(host) && port.parse::<u16>().is_ok(),
        None => false,
    }
}

/// Whether a text has the form of a name, of an IPv4 address or of an IPv6 address in brackets (RFC 3986, 3.2.2).
fn is_host(text: &str) -> bool {
    match text.strip_prefix('[') {
        Some(rest) => rest.ends_with(']'),
        None => !text.is_empty() && !text.contains(':') && !text.contains('/') && text != "*",
    }
}
