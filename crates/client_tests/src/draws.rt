//! What random exchanges are drawn from.

/// How many events an exchange has at most.
pub(crate) const EVENTS: u32 = 200;

/// The statuses that replies have: mostly success, or an exchange would hardly ever come to frames.
pub(crate) const STATUSES: [u16; 64] = [
    200, 200, 200, 200, 200, 200, 200, 200, 200, 200, 200, 200, 200, 200, 200, 200, 200, 200, 200,
    200, 200, 200, 200, 200, 200, 200, 200, 200, 200, 200, 200, 200, 200, 200, 200, 200, 200, 200,
    200, 200, 200, 200, 200, 200, 200, 200, 200, 200, 201, 204, 100, 180, 401, 401, 302, 303, 404,
    451, 454, 461, 500, 503, 551, 999,
];

/// The Transport fields that replies have: mostly one that leaves the channels that were asked for.
pub(crate) const TRANSPORTS: [&str; 16] = [
    "RTP/AVP/TCP",
    "RTP/AVP/TCP;unicast",
    "RTP/AVP/TCP;unicast",
    "RTP/AVP/TCP;unicast",
    "RTP/AVP/TCP;unicast",
    "RTP/AVP/TCP;unicast",
    "RTP/AVP/TCP;unicast",
    "RTP/AVP/TCP;unicast",
    "RTP/AVP/TCP;unicast",
    "RTP/AVP/TCP;unicast",
    "RTP/AVP/TCP;unicast",
    "RTP/AVP/TCP;unicast",
    "RTP/AVP/TCP;unicast",
    "RTP/AVP/TCP;unicast",
    "RTP/AVP/TCP;unicast",
    "RTP/AVP/TCP;interleaved=x",
];
