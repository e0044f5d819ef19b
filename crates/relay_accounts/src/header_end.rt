//! Why a connection from a proxy has no header.
use proxy_header::HeaderFault;
use std::fmt;

/// Why a connection from a proxy's address has no header.
#[derive(Clone, Copy, Debug, PartialEq, Eq, Drop)]
pub enum HeaderEnd {
    /// It wasn't whole two seconds after the connection came.
    Late,
    /// The peer left within it.
    Cut,
    /// The first bytes begin none.
    Bad(HeaderFault),
}

impl fmt::Display for HeaderEnd {
    fn fmt<W: fmt::Write>(&self, f: &mut fmt::Formatter<W>) -> fmt::Result {
        let hint = "--proxy-from has this address: use the proxy or another address";
        match self {
            HeaderEnd::Late => write!(f, "no PROXY header for 2 s, but {hint}"),
            HeaderEnd::Cut => write!(f, "left within its PROXY header"),
            HeaderEnd::Bad(HeaderFault::NoHeader) => write!(f, "no PROXY header, but {hint}"),
            HeaderEnd::Bad(fault) => write!(f, "{fault}"),
        }
    }
}
