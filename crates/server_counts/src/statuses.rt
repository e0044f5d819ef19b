//! The statuses that refuse a request.
ghost use Rattle.std.specs.Prelude.{◌≡◌, ◌<◌, IfSome};
ghost use Rattle.server_counts.specs.Statuses.{place_of_status};

use rtsp_message::Status;

/// How many statuses refuse a request.
pub(crate) const STATUSES: usize = 17;

/// Returns the place at which requests are counted that are refused with this status. `None` for success.
pub(crate) fn place_of(status: Status) -> Option<usize>
    ensures is { result ≡ place_of_status status }
    ensures within { IfSome result (λ place. place < 17) }
{
    match status {
        Status::Ok => None,
        Status::BadRequest => Some(0),
        Status::Forbidden => Some(1),
        Status::NotFound => Some(2),
        Status::NotAcceptable => Some(3),
        Status::RequestEntityTooLarge => Some(4),
        Status::UnsupportedMediaType => Some(5),
        Status::ParameterNotUnderstood => Some(6),
        Status::NotEnoughBandwidth => Some(7),
        Status::SessionNotFound => Some(8),
        Status::MethodNotValidInThisState => Some(9),
        Status::AggregateOperationNotAllowed => Some(10),
        Status::OnlyAggregateOperationAllowed => Some(11),
        Status::UnsupportedTransport => Some(12),
        Status::NotImplemented => Some(13),
        Status::ServiceUnavailable => Some(14),
        Status::VersionNotSupported => Some(15),
        Status::OptionNotSupported => Some(16),
    }
}
