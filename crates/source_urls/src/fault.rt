//! Why the URL of a source or of a target is refused.
ghost use Rattle.std.specs.Prelude.{◌≡◌};
ghost use Rattle.source_urls.specs.declared.fault.UrlFault.TheVariants.{OutOfMemory};

use std::alloc::AllocError;
use std::error::Error;
use std::fmt;

/// Why the URL of a source or of a target is refused. The first one that applies is reported, in this order. None repeats a part of the
/// URL, since it can have a password.
#[derive(Clone, Copy, Debug, PartialEq, Eq)]
pub enum UrlFault {
    /// It is longer than 2,048 bytes.
    TooLong,
    /// It has a control character, a blank or a byte over 0x7E.
    BadByte,
    /// Its scheme is `rtsps`, which this relay doesn't speak.
    SecureScheme,
    /// It has another scheme than `rtsp`, or none (RFC 2326, 3.2).
    OtherScheme,
    /// It has a password, which others can see in a command line.
    HasPassword,
    /// It has no user, but a colon after its host, and an `@` after that: what is before the `@` can be a user and a password with a `/`, `?`
    /// or `#` that isn't percent-encoded (RFC 3986, 3.2.1), as in `rtsp://admin:12/34@host/x`. Its host and its request URI would show the
    /// password.
    UnencodedPassword,
    /// It has no host, or one that is no name and no address (RFC 2326, 3.2).
    BadHost,
    /// Its port isn't a number of 1 to 65,535 (RFC 2326, 3.2).
    BadPort,
    /// A target has a user.
    HasUser,
    /// A target has a fragment.
    HasFragment,
    /// A target has a query.
    HasQuery,
    /// A target has no byte after the slash of its path.
    NoPath,
    /// A target ends in a slash.
    ClosingSlash,
    /// There was no memory.
    OutOfMemory,
}

impl fmt::Display for UrlFault {
    ghost use Rattle.std.specs.Prelude.{Some};
    ghost use Rattle.source_urls.specs.Faults.{fault_text};

    ghost output = { λ fault. Some (fault_text fault) };

    fn fmt<W: fmt::Write>(&self, f: &mut fmt::Formatter<W>) -> fmt::Result {
        match self {
            UrlFault::TooLong => write!(f, "URL longer than 2048 bytes"),
            UrlFault::BadByte => write!(f, "blank, control character or byte over 0x7e in URL"),
            UrlFault::SecureScheme => write!(f, "rtsps is not supported"),
            UrlFault::OtherScheme => write!(f, "URL does not begin with rtsp://"),
            UrlFault::HasPassword => write!(f, "password in URL"),
            UrlFault::UnencodedPassword => write!(
                f,
                "@ after a port in URL: percent-encode a password, and the @ of a path"
            ),
            UrlFault::BadHost => write!(f, "bad host in URL"),
            UrlFault::BadPort => write!(f, "bad port in URL"),
            UrlFault::HasUser => write!(f, "user in URL"),
            UrlFault::HasFragment => write!(f, "fragment in URL"),
            UrlFault::HasQuery => write!(f, "query in URL"),
            UrlFault::NoPath => write!(f, "no path in URL"),
            UrlFault::ClosingSlash => write!(f, "slash at the end of URL"),
            UrlFault::OutOfMemory => write!(f, "out of memory"),
        }
    }
}

impl Error for UrlFault {}

impl From<AllocError> for UrlFault {
    ghost from_gives = { λ _ fault. fault ≡ OutOfMemory };

    fn from(_error: AllocError) -> UrlFault {
        UrlFault::OutOfMemory
    }
}
