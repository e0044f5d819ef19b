//! What is wrong with a stream.
ghost use Rattle.std.specs.Prelude.{◌≡◌, ℕ};

use std::fmt;

/// Why a stream can't be read on (RFC 2326, 4, 6 and 12.14). It is for good: the stream has no more units.
#[derive(Clone, Copy, Debug, PartialEq, Eq)]
pub enum Fault {
    /// The first line of a message is no request line.
    BadLine,
    /// A line after it is no header line.
    BadHeader,
    /// A Content-Length field that is no number, or another number than one before.
    BadLength,
    /// The head doesn't end within its first 8,192 bytes.
    HeadTooLong,
    /// A Content-Length field over 65,536 bytes.
    BodyTooLong,
}

impl Fault {
    ghost use Rattle.rtsp_message.specs.Stream.{fault_number};

    /// The number by which the program reports the fault: 1 to 5.
    pub fn number(self) -> u8
        ensures { result ≡ fault_number self }
    {
        match self {
            Fault::BadLine => 1,
            Fault::BadHeader => 2,
            Fault::BadLength => 3,
            Fault::HeadTooLong => 4,
            Fault::BodyTooLong => 5,
        }
    }
}

impl fmt::Display for Fault {
    ghost use Rattle.std.specs.Prelude.{Some};
    ghost use Rattle.rtsp_message.specs.Stream.{fault_text};

    ghost output = { λ fault. Some (fault_text fault) };

    fn fmt<W: fmt::Write>(&self, f: &mut fmt::Formatter<W>) -> fmt::Result {
        match self {
            Fault::BadLine => write!(f, "bad request line"),
            Fault::BadHeader => write!(f, "bad header line"),
            Fault::BadLength => write!(f, "bad Content-Length"),
            Fault::HeadTooLong => write!(f, "head too long"),
            Fault::BodyTooLong => write!(f, "body too long"),
        }
    }
}
