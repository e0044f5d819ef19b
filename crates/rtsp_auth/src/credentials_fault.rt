//! Why a user name and a password can't be sent.
use std::error::Error;
use std::fmt;

/// Why a user name and a password can't be sent (RFC 7617, 2). The first one that applies is reported, in this order.
#[derive(Clone, Copy, Debug, PartialEq, Eq)]
pub enum CredentialsFault {
    /// The user name has a byte below 0x20 or 0x7F.
    ControlInUser,
    /// The user name has a colon. In an answer of Basic the server would read what is after it as part of the password.
    ColonInUser,
    /// The password has a byte below 0x20 or 0x7F.
    ControlInPassword,
}

impl fmt::Display for CredentialsFault {
    ghost use Rattle.std.specs.Prelude.{Some};
    ghost use Rattle.rtsp_auth.specs.Faults.{credentials_fault_text};

    ghost output = { λ fault. Some (credentials_fault_text fault) };

    fn fmt<W: fmt::Write>(&self, f: &mut fmt::Formatter<W>) -> fmt::Result {
        match self {
            CredentialsFault::ControlInUser => write!(f, "control character in user name"),
            CredentialsFault::ColonInUser => write!(f, "colon in user name"),
            CredentialsFault::ControlInPassword => write!(f, "control character in password"),
        }
    }
}

impl Error for CredentialsFault {}
