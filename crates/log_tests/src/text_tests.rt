//! Texts of ends, refusals and counts, and the lines that report them.
use base_syntax::Bytes;
use log::sink::Memory;
use log::warn;
use proxy_header::HeaderFault;
use relay_accounts::{ConnectionEnd, Counts, HeaderEnd, Outcome, Part};
use relay_log::{Lines, tell_end, tell_last_account};
use rtsp_message::Fault;
use server_counts::Refusal;
use std::alloc::Global;
use std::fmt::Display;
use std::net::SocketAddr;
use std::process::Abort;
use std::sync::Arc;
use std::time::Duration;
use test_kit::no_counts;

/// Each end, and its text. All but the first are logged as warnings.
const ENDS: [(ConnectionEnd, &str); 20] = [
    (ConnectionEnd::Done, "done"),
    (
        ConnectionEnd::StreamFault(Fault::BadLine),
        "stream fault 1: bad request line",
    ),
    (
        ConnectionEnd::StreamFault(Fault::BadHeader),
        "stream fault 2: bad header line",
    ),
    (
        ConnectionEnd::StreamFault(Fault::BadLength),
        "stream fault 3: bad Content-Length",
    ),
    (
        ConnectionEnd::StreamFault(Fault::HeadTooLong),
        "stream fault 4: head too long",
    ),
    (
        ConnectionEnd::StreamFault(Fault::BodyTooLong),
        "stream fault 5: body too long",
    ),
    (ConnectionEnd::ReadFailed, "read failed"),
    (ConnectionEnd::WriteFailed, "write failed"),
    (ConnectionEnd::OutOfMemory, "out of memory"),
    (ConnectionEnd::NoThread, "no thread for its frames"),
    (
        ConnectionEnd::Expired,
        "session expired after 60 s of silence",
    ),
    (ConnectionEnd::Idle, "silent without a session"),
    (ConnectionEnd::Reset, "left by a reset"),
    (
        ConnectionEnd::NoAcknowledgement,
        "no acknowledgement for 20 s",
    ),
    (ConnectionEnd::Silent, "silent while recording"),
    (
        ConnectionEnd::NotSetUp,
        "no SETUP for 60 s after its ANNOUNCE",
    ),
    (
        ConnectionEnd::NoHeader(HeaderEnd::Late),
        "no PROXY header for 2 s, but --proxy-from has this address: use the proxy or another address",
    ),
    (
        ConnectionEnd::NoHeader(HeaderEnd::Cut),
        "left within its PROXY header",
    ),
    (
        ConnectionEnd::NoHeader(HeaderEnd::Bad(HeaderFault::NoHeader)),
        "no PROXY header, but --proxy-from has this address: use the proxy or another address",
    ),
    (
        ConnectionEnd::NoHeader(HeaderEnd::Bad(HeaderFault::BadLine)),
        "bad PROXY line",
    ),
];

/// Returns whether a value is printed as this text.
fn is_text<T: Display>(rt: &impl Abort, alloc: Global, value: &T, text: &str) -> bool {
    format!(in alloc; "{value}").expect(rt, "memory").as_str() == text
}

#[test]
fn ends_and_refusals_say_why(rt: HostRuntime) {
    let alloc = rt.alloc();
    for (end, text) in ENDS {
        assert!(rt; is_text(&rt, alloc, &end, text), "{text}");
    }
    for (refusal, text) in [
        (Refusal::Full, "refused: too many connections"),
        (Refusal::OutOfMemory, "refused: out of memory"),
        (Refusal::NoThread, "refused: no thread"),
        (
            Refusal::NotAccepted,
            "not accepted: no descriptor or no memory",
        ),
    ] {
        assert!(rt; is_text(&rt, alloc, &refusal, text), "{text}");
    }
    assert!(rt; is_text(&rt, alloc, &LOSSLESS, UNTOLD));
}

/// Each count is a different number.
const COUNTS: Counts = Counts {
    published: 1,
    pinned: 2,
    oversize: 3,
    bad_rtp: 4,
    unknown_channel: 5,
    unkept: 6,
    strangers: 7,
    sent: 8,
    skipped: 9,
    lost: 10,
    unsent: 11,
    slowed: 12,
    missing: 13,
};

/// Nothing was lost or refused, and nothing waited.
const LOSSLESS: Counts = Counts {
    published: u64::MAX,
    pinned: 0,
    oversize: 0,
    bad_rtp: 0,
    unknown_channel: 0,
    unkept: 0,
    strangers: 9,
    sent: 9,
    skipped: 9,
    lost: 0,
    unsent: 0,
    slowed: 0,
    missing: 0,
};

/// The text of counts most of which are 0.
const UNTOLD: &str =
    "published 18446744073709551615, pinned 0, too long 0, bad RTP 0, unknown channel 0, no memory 0; sent 9, skipped 9, lost 0, unsent 0; strangers 9";

/// The line that reports the counts.
const COUNTED: &str =
    "[INFO  relay_server::events] 10.0.0.1:554: published 1, pinned 2, too long 3, bad RTP 4, unknown channel 5, no memory 6; sent 8, skipped 9, lost 10, unsent 11; strangers 7, slowed 12 ms, missing 13";

/// A publisher that lost nothing and was slowed.
const SLOWED: Counts = Counts {
    published: 9,
    pinned: 0,
    oversize: 0,
    bad_rtp: 0,
    unknown_channel: 0,
    unkept: 0,
    strangers: 0,
    sent: 0,
    skipped: 0,
    lost: 0,
    unsent: 0,
    slowed: 12,
    missing: 0,
};

/// A publisher of whose packets some were lost before they came.
const MISSING: Counts = Counts {
    slowed: 0,
    missing: 12,
    ..SLOWED
};

/// Counts, and the line that reports them: losses, a publisher that was slowed, and one whose packets were missing.
const TOLD: [(Counts, Option<&str>); 4] = [
    (LOSSLESS, None),
    (COUNTS, Some(COUNTED)),
    (
        SLOWED,
        Some(
            "[INFO  relay_server::events] 10.0.0.1:554: published 9, pinned 0, too long 0, bad RTP 0, unknown channel 0, no memory 0; sent 0, skipped 0, lost 0, unsent 0; strangers 0, slowed 12 ms",
        ),
    ),
    (
        MISSING,
        Some(
            "[INFO  relay_server::events] 10.0.0.1:554: published 9, pinned 0, too long 0, bad RTP 0, unknown channel 0, no memory 0; sent 0, skipped 0, lost 0, unsent 0; strangers 0, missing 12",
        ),
    ),
];

/// Returns whether a line warns of an end with this text.
fn is_warning(line: &str, text: &str) -> bool {
    let rest = line.strip_prefix("[WARN  relay_server::server] 10.0.0.1:554: ");
    rest.and_then(|rest| rest.strip_suffix(" (connection 7)")) == Some(text)
}

/// Returns whether these are the lines that report an end with this text: a warning if it isn't the good one, and the line of
/// the counts, if there is one.
fn are_told(lines: &[String], end: ConnectionEnd, text: &str, line: Option<&str>) -> bool {
    match (lines, end != ConnectionEnd::Done, line) {
        ([], false, None) => true,
        ([warning], true, None) => is_warning(warning.as_str(), text),
        ([counted], false, Some(line)) => counted.as_str() == line,
        ([warning, counted], true, Some(line)) => {
            is_warning(warning.as_str(), text) && counted.as_str() == line
        }
        _ => false,
    }
}

#[test]
fn an_end_is_a_line_and_so_are_losses(rt: HostRuntime) {
    let peer = SocketAddr::from(([10, 0, 0, 1], 554));
    for (end, text) in ENDS {
        for (counts, line) in TOLD {
            let sink = Memory::new(rt.alloc());
            let outcome = Outcome {
                end,
                counts,
                has_account: true,
                part: None,
            };
            tell_end(&sink, peer, 7, &outcome);
            tell_last_account(&sink, peer, &outcome, false);
            let lines = sink.into_lines();
            assert!(rt; are_told(lines.as_slice(), end, text, line), "{text}");
        }
    }
}

/// Returns whether a line of counts names a connection's part by `named`.
fn is_named(rt: &impl Abort, alloc: Global, publishes: bool, named: &str) -> bool {
    let sink = Memory::new(alloc);
    let name = Bytes::from_slice(alloc, b"cam/1\x80").expect(rt, "memory");
    let outcome = Outcome {
        end: ConnectionEnd::Done,
        counts: SLOWED,
        has_account: true,
        part: Some(Part { name, publishes }),
    };
    let peer = SocketAddr::from(([10, 0, 0, 1], 554));
    tell_last_account(&sink, peer, &outcome, false);
    let lines = sink.into_lines();
    let rest = lines.as_slice().first().and_then(|line| line.strip_prefix(
        "[INFO  relay_server::events] 10.0.0.1:554: ",
    ));
    rest.is_some_and(|rest| rest.starts_with(named))
}

#[test]
fn a_line_of_counts_names_the_mount_and_the_part(rt: HostRuntime) {
    let alloc = rt.alloc();
    assert!(rt; is_named(&rt, alloc, true, r"publisher of cam/1\x80: published 9, "));
    assert!(rt; is_named(&rt, alloc, false, r"player of cam/1\x80: published 9, "));
}

/// More lines than may wait are logged, and no thread writes them.
#[test]
fn lines_that_nobody_writes_hold_nobody_up(rt: HostRuntime) {
    let alloc = rt.alloc();
    let counts = no_counts(alloc).expect(&rt, "memory");
    let counted = Arc::try_clone(&counts).expect(&rt, "a count of its users");
    let lines = Lines::new(rt, alloc, counted).expect(&rt, "memory");
    for number in 0..3_000u32 {
        warn!(lines; "{number}");
    }
    // 1,024 lines wait.
    assert!(rt; counts.figures().lines_dropped == 3_000 - 1_024);
    lines.close(Duration::from_millis(10));
    assert!(rt; counts.figures().lines_dropped == 3_000);
}
