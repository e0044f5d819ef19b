//! The families of what the server serves and refuses.
ghost use Rattle.std.specs.Prelude.{◌≡◌};
ghost use Rattle.status_texts.specs.Serving.{serving_head};

use crate::family::FamilyHead;

/// A family with samples of the server's connections, sessions, requests and log lines.
#[derive(Clone, Copy, Debug, PartialEq, Eq)]
pub(crate) enum ServingFamily {
    Connections,
    Sessions,
    ConnectionsRefused,
    RequestsRefused,
    LinesDropped,
}

impl ServingFamily {
    pub(crate) fn head(self) -> FamilyHead
        ensures { result ≡ serving_head self }
    {
        match self {
            ServingFamily::Connections => {
                FamilyHead::gauge("vasklun_connections", "Connections that are served.")
            }
            ServingFamily::Sessions => FamilyHead::gauge(
                "vasklun_sessions",
                "Sessions, by their role and state.",
            ),
            ServingFamily::ConnectionsRefused => FamilyHead::counter(
                "vasklun_connections_refused_total",
                "Connections that were not served, by the reason.",
            ),
            ServingFamily::RequestsRefused => FamilyHead::counter(
                "vasklun_requests_refused_total",
                "Requests that were refused, by the status of the answer.",
            ),
            ServingFamily::LinesDropped => FamilyHead::counter(
                "vasklun_lines_dropped_total",
                "Lines of the log that were dropped.",
            ),
        }
    }
}
