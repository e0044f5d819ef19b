//! Status codes and their reasons.
ghost use Rattle.std.specs.Prelude.{◌≡◌, ◌<◌, ◌≤◌, length};

/// The outcome of a request (RFC 2326, 7.1.1 and 11).
#[derive(Clone, Copy, Debug, PartialEq, Eq)]
pub enum Status {
    Ok,
    BadRequest,
    Forbidden,
    NotFound,
    NotAcceptable,
    RequestEntityTooLarge,
    UnsupportedMediaType,
    ParameterNotUnderstood,
    NotEnoughBandwidth,
    SessionNotFound,
    MethodNotValidInThisState,
    AggregateOperationNotAllowed,
    OnlyAggregateOperationAllowed,
    UnsupportedTransport,
    NotImplemented,
    ServiceUnavailable,
    VersionNotSupported,
    OptionNotSupported,
}

impl Status {
    ghost use Rattle.rtsp_message.specs.Reply.{code_of, reason_of};

    /// The code, of three digits.
    pub fn code(self) -> u16
        ensures { result ≡ code_of self }
    {
        match self {
            Status::Ok => 200,
            Status::BadRequest => 400,
            Status::Forbidden => 403,
            Status::NotFound => 404,
            Status::NotAcceptable => 406,
            Status::RequestEntityTooLarge => 413,
            Status::UnsupportedMediaType => 415,
            Status::ParameterNotUnderstood => 451,
            Status::NotEnoughBandwidth => 453,
            Status::SessionNotFound => 454,
            Status::MethodNotValidInThisState => 455,
            Status::AggregateOperationNotAllowed => 459,
            Status::OnlyAggregateOperationAllowed => 460,
            Status::UnsupportedTransport => 461,
            Status::NotImplemented => 501,
            Status::ServiceUnavailable => 503,
            Status::VersionNotSupported => 505,
            Status::OptionNotSupported => 551,
        }
    }

    /// The words that stand after the code.
    pub fn reason(self) -> &'static str
        ensures { result.now ≡ reason_of self }
    {
        match self {
            Status::Ok => "OK",
            Status::BadRequest => "Bad Request",
            Status::Forbidden => "Forbidden",
            Status::NotFound => "Not Found",
            Status::NotAcceptable => "Not Acceptable",
            Status::RequestEntityTooLarge => "Request Entity Too Large",
            Status::UnsupportedMediaType => "Unsupported Media Type",
            Status::ParameterNotUnderstood => "Parameter Not Understood",
            Status::NotEnoughBandwidth => "Not Enough Bandwidth",
            Status::SessionNotFound => "Session Not Found",
            Status::MethodNotValidInThisState => "Method Not Valid in This State",
            Status::AggregateOperationNotAllowed => "Aggregate Operation Not Allowed",
            Status::OnlyAggregateOperationAllowed => "Only Aggregate Operation Allowed",
            Status::UnsupportedTransport => "Unsupported Transport",
            Status::NotImplemented => "Not Implemented",
            Status::ServiceUnavailable => "Service Unavailable",
            Status::VersionNotSupported => "RTSP Version Not Supported",
            Status::OptionNotSupported => "Option Not Supported",
        }
    }
}
