//! How tries end.

use crate::logged::end_of;
use crate::script::{CAMERA, Opening, PLAN, Script};
use crate::scripted::ScriptedStation;
use crate::seen::Seen;
use relay_pull::{Ended, Plan, run_tries};
use rtsp_client::Side;
use std::alloc::Global;

/// Stops a pull after five seconds of frames, and returns how many milliseconds later its try ends. `None` if it doesn't end by the stop, or
/// a side has no TEARDOWN.
fn stops_after(alloc: Global, replies: bool) -> Option<u64> {
    let scripts = [Script {
        frames: 1_000,
        apart: 40,
        replies,
        ..CAMERA
    }];
    let seen = Seen::new(alloc);
    let mut station = ScriptedStation::new(alloc, &seen, &scripts, None, 5_000);
    let _ = run_tries(&mut station, alloc, &PLAN, 1_000, None);
    let (now, _, end) = end_of(station.lines.as_slice())?;
    let source = seen.has(Side::Source, b"TEARDOWN rtsp://10.0.0.9/cam RTSP/1.0\r\n");
    let target = seen.has(
        Side::Target,
        b"TEARDOWN rtsp://127.0.0.1:8554/door RTSP/1.0\r\n",
    );
    if !source || !target || !end.is_stop() {
        return None;
    }
    Some(now.saturating_sub(station.stopped?))
}

/// The program stops while frames go on: TEARDOWN goes to both sides, and the stop is the reason. With replies the try ends at once, and
/// without them at the first look after a second.
#[test]
fn a_stop_sends_teardown_and_is_the_reason(rt: HostRuntime) {
    assert_eq!(&rt; stops_after(rt.alloc(), true), Some(0));
    // Ten times a wait of 100 milliseconds and a look at the clock.
    assert_eq!(&rt; stops_after(rt.alloc(), false), Some(1_010));
}

/// Returns how a pull of one try has ended.
fn once(alloc: Global, script: Script) -> Ended {
    let plan = Plan { once: true, ..PLAN };
    let scripts = [script];
    let seen = Seen::new(alloc);
    let mut station = ScriptedStation::new(alloc, &seen, &scripts, None, 60_000);
    run_tries(&mut station, alloc, &plan, 1_000, None)
}

/// Returns whether a pull has failed with this line.
fn is_failure(ended: &Ended, text: &str) -> bool {
    match ended {
        Ended::Failed(line) => line.as_str() == text,
        _ => false,
    }
}

/// A pull of one try is good if frames went on until the source ended. Without a frame, and if DESCRIBE is refused, it fails with a line that
/// says why.
#[test]
fn once_is_good_only_if_frames_went_on(rt: HostRuntime) {
    let five = Script {
        frames: 5,
        apart: 40,
        ends_after: Some(0),
        ..CAMERA
    };
    assert!(&rt; matches!(once(rt.alloc(), five), Ended::Good), "frames");
    let none = once(rt.alloc(), Script { frames: 0, ..five });
    assert!(&rt;
        is_failure(&none, "relay: pull: source closed the connection"),
        "none"
    );
    let refused = once(
        rt.alloc(),
        Script {
            opening: Opening::NotFound,
            ..CAMERA
        },
    );
    assert!(&rt;
        is_failure(&refused, "relay: pull: source refused DESCRIBE: 404"),
        "refused"
    );
}
