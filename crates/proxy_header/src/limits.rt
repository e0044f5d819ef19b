//! The longest headers.

/// A longer header is refused (bytes). Proxies send fields after the addresses, as certificates' names, of some hundred bytes.
pub const MOST_HEADER: usize = 2048;

/// The longest line of version 1, its CRLF included (bytes; 2.1).
pub(crate) const MOST_LINE: usize = 107;

/// How many bytes of a block of version 2 come before its body: signature, version and command, family and protocol, and length (2.2).
pub(crate) const BLOCK_HEAD: usize = 16;
