//! Why bytes begin with no header.
use std::error::Error;
use std::fmt;

/// Why bytes begin with no header, and no bytes after them make one.
#[derive(Clone, Copy, Debug, PartialEq, Eq)]
pub enum HeaderFault {
    /// The first bytes are those of neither version.
    NoHeader,
    /// A line of version 1 has other fields than two addresses of its family and two ports, with one space between them.
    BadLine,
    /// A line of version 1 has more than 107 bytes.
    LineTooLong,
    /// A block's version isn't 2, or its command isn't LOCAL or PROXY.
    BadCommand,
    /// A block's family and protocol are none of those that exist.
    BadFamily,
    /// A block is shorter than the addresses of its family.
    TooShort,
    /// A block has more than 2,048 bytes.
    TooLong,
}

impl fmt::Display for HeaderFault {
    ghost use Rattle.std.specs.Prelude.{Some};
    ghost use Rattle.proxy_header.specs.Faults.{fault_text};

    ghost output = { λ fault. Some (fault_text fault) };

    fn fmt<W: fmt::Write>(&self, f: &mut fmt::Formatter<W>) -> fmt::Result {
        match self {
            HeaderFault::NoHeader => write!(f, "no PROXY header"),
            HeaderFault::BadLine => write!(f, "bad PROXY line"),
            HeaderFault::LineTooLong => write!(f, "PROXY line too long"),
            HeaderFault::BadCommand => write!(f, "unknown PROXY version or command"),
            HeaderFault::BadFamily => write!(f, "unknown PROXY family"),
            HeaderFault::TooShort => write!(f, "PROXY header too short"),
            HeaderFault::TooLong => write!(f, "PROXY header too long"),
        }
    }
}

impl Error for HeaderFault {}
