//! What the status of a reply says to a client (RFC 2326, 7.1.1 and 11).
ghost use Rattle.rtsp_client.specs.Classes.{HasClass};

/// What the status of a reply says to a client.
#[derive(Clone, Copy, Debug, PartialEq, Eq, Drop)]
pub enum StatusClass {
    /// 100 to 199: the reply is still to come.
    Provisional,
    /// 200 to 299.
    Success,
    /// 301 and 302: it is to be asked for elsewhere (11.3).
    Moved,
    /// 300 and 303 to 399.
    OtherRedirect,
    /// 401: a password is asked for (11.1).
    Unauthorized,
    /// 454: the server has no such session (11.3.5).
    NoSession,
    /// Any other.
    Refusal,
}

impl StatusClass {
    /// Returns the class of a status.
    pub fn of(status: u16) -> StatusClass
        ensures { HasClass status result }
    {
        match status {
            301 | 302 => StatusClass::Moved,
            401 => StatusClass::Unauthorized,
            454 => StatusClass::NoSession,
            _ => match status / 100 {
                1 => StatusClass::Provisional,
                2 => StatusClass::Success,
                3 => StatusClass::OtherRedirect,
                _ => StatusClass::Refusal,
            },
        }
    }
}
