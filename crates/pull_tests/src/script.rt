//! What a source and a target in memory do in a try.

use pull_session::PullOptions;
use relay_pull::Plan;

/// What is tried.
pub(crate) const PLAN: Plan<'static> = Plan {
    source: "rtsp://admin@10.0.0.9/cam",
    target: "rtsp://127.0.0.1:8554/door",
    options: PullOptions {
        takes_audio: true,
        takes_video: true,
        silent: 10_000,
    },
    report: None,
    once: false,
};

/// How a try begins.
#[derive(Clone, Copy, Debug, PartialEq, Eq, Drop)]
pub(crate) enum Opening {
    /// The source isn't connected to.
    Refused,
    /// The source asks for a password, and refuses it.
    Locked,
    /// The source has no such stream.
    NotFound,
    /// Each request succeeds.
    Open,
}

/// What a source and a target do in a try.
#[derive(Clone, Copy, Drop)]
pub(crate) struct Script {
    pub(crate) opening: Opening,
    /// How many frames the source sends.
    pub(crate) frames: u64,
    /// How many milliseconds after PLAY the first frame comes.
    pub(crate) first_after: u64,
    /// How many milliseconds are between two frames.
    pub(crate) apart: u64,
    /// How many bytes a packet has after its header.
    pub(crate) payload: u16,
    /// Sequence numbers that are left out, in order. The first packet has number 1,000.
    pub(crate) left_out: &'static [u16],
    /// How many milliseconds after the last frame was due the source ends its stream. `None` if it stays silent then.
    pub(crate) ends_after: Option<u64>,
    /// Whether the target takes one byte each ten seconds once there are frames.
    pub(crate) is_slow: bool,
    /// Whether TEARDOWN, and requests that keep sessions alive, have replies.
    pub(crate) replies: bool,
}

/// A try in which the source sends no frame, and stays silent.
pub(crate) const CAMERA: Script = Script {
    opening: Opening::Open,
    frames: 0,
    first_after: 0,
    apart: 0,
    payload: 4,
    left_out: &[],
    ends_after: None,
    is_slow: false,
    replies: true,
};

/// The source's reply to OPTIONS.
pub(crate) const PUBLIC: &[u8] =
    b"RTSP/1.0 200 OK\r\nPublic: OPTIONS, DESCRIBE, SETUP, PLAY, GET_PARAMETER, TEARDOWN\r\n\r\n";

/// The source's reply to DESCRIBE.
pub(crate) const DESCRIPTION: &[u8] =
    b"RTSP/1.0 200 OK\r\nContent-Type: application/sdp\r\nContent-Length: 111\r\n\r\nv=0\r\no=- 1 1 IN IP4 10.0.0.9\r\ns=cam\r\nt=0 0\r\nm=video 0 RTP/AVP 96\r\na=rtpmap:96 H264/90000\r\na=control:trackID=0\r\n";

/// The source's reply to SETUP.
pub(crate) const SET_UP: &[u8] =
    b"RTSP/1.0 200 OK\r\nTransport: RTP/AVP/TCP;unicast;interleaved=0-1\r\nSession: 1234;timeout=60\r\n\r\n";

/// The target's reply to ANNOUNCE, SETUP and RECORD.
pub(crate) const RECORDED: &[u8] =
    b"RTSP/1.0 200 OK\r\nSession: 5678\r\nTransport: RTP/AVP/TCP;unicast;interleaved=0-1\r\n\r\n";

/// A reply that says nothing else.
pub(crate) const DONE: &[u8] = b"RTSP/1.0 200 OK\r\n\r\n";

/// The reply of a source that has no such stream.
pub(crate) const NOT_FOUND: &[u8] = b"RTSP/1.0 404 Not Found\r\n\r\n";

/// The reply of a source that asks for a password, before its nonce and after that.
pub(crate) const CHALLENGE: [&[u8]; 2] = [
    b"RTSP/1.0 401 Unauthorized\r\nWWW-Authenticate: Digest realm=\"r\", nonce=\"",
    b"\"\r\n\r\n",
];
