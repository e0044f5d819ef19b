//! What is logged of frames.

use crate::logged::{aways_of, beginnings_of, end_of, reports_of};
use crate::script::{CAMERA, PLAN, Script};
use crate::scripted::ScriptedStation;
use crate::seen::Seen;
use relay_pull::{Ended, Plan, run_tries};
use rtsp_client::Side;

/// Frames go on in two tries, and none for 3.2 seconds and more between them. That is logged once, when the first frame of the second try
/// has gone on, and not when its frames are asked for.
#[test]
fn away_is_the_time_without_frames(rt: HostRuntime) {
    let first = Script {
        frames: 5,
        apart: 1_000,
        ends_after: Some(0),
        ..CAMERA
    };
    let second = Script {
        frames: 3,
        first_after: 2_200,
        apart: 1_000,
        ..CAMERA
    };
    let scripts = [first, second];
    let seen = Seen::new(rt.alloc());
    let mut station = ScriptedStation::new(rt.alloc(), &seen, &scripts, None, 12_000);
    let ended = run_tries(&mut station, rt.alloc(), &PLAN, 1_000, None);
    assert!(&rt; matches!(ended, Ended::Good), "stopped");
    // Each try is attended to each 101 milliseconds. The first plays at 2: its last frame is due at 4,002, and goes on at 4,042. The second
    // plays at 5,045: its first frame is due at 7,245, and goes on at 7,267, which is 3,225 milliseconds later.
    let lines = station.lines.as_slice();
    let beginnings = beginnings_of(rt.alloc(), lines).expect(&rt, "memory");
    assert_eq!(&rt; beginnings.as_slice(), [2, 5_045].as_slice());
    let aways = aways_of(rt.alloc(), lines).expect(&rt, "memory");
    assert_eq!(&rt; aways.as_slice(), [(7_267, 3_225)].as_slice());
}

/// The source sends 50 frames and leaves two numbers out, is silent for two seconds, and ends: what the reports say adds up to the last
/// line.
#[test]
fn reports_add_up_to_the_last_line(rt: HostRuntime) {
    let plan = Plan {
        report: Some(1_000),
        once: true,
        ..PLAN
    };
    let scripts = [Script {
        frames: 50,
        apart: 100,
        left_out: &[1_020, 1_040],
        ends_after: Some(2_000),
        ..CAMERA
    }];
    let seen = Seen::new(rt.alloc());
    let mut station = ScriptedStation::new(rt.alloc(), &seen, &scripts, None, 60_000);
    let ended = run_tries(&mut station, rt.alloc(), &plan, 1_000, None);
    assert!(&rt; matches!(ended, Ended::Good), "good");
    // The try is attended to at 2 and each 101 milliseconds later, and ends at 6,971: there are reports at 1,012, 2,022, 3,032, 4,042, 5,052
    // and 6,062.
    assert_eq!(&rt; reports_of(station.lines.as_slice()), (6, 50, 2));
    let (now, figures, _) = end_of(station.lines.as_slice()).expect(&rt, "last line");
    assert_eq!(&rt; (now, figures.sent, figures.missing), (6_971, 50, 2));
}

/// The target takes one byte each ten seconds, and the source sends 1,000 frames of 1,404 bytes as fast as it is read. The source's session
/// is kept alive though the source isn't read, and for a minute the try doesn't end.
#[test]
fn keepalives_go_out_while_the_target_takes_little(rt: HostRuntime) {
    let scripts = [Script {
        frames: 1_000,
        payload: 1_388,
        is_slow: true,
        ..CAMERA
    }];
    let seen = Seen::new(rt.alloc());
    let mut station = ScriptedStation::new(rt.alloc(), &seen, &scripts, None, 60_000);
    let ended = run_tries(&mut station, rt.alloc(), &PLAN, 1_000, None);
    assert!(&rt; matches!(ended, Ended::Good), "stopped");
    assert!(&rt;
        seen.has(
            Side::Source,
            b"GET_PARAMETER rtsp://10.0.0.9/cam RTSP/1.0\r\n"
        ),
        "keepalive"
    );
    // PLAY is sent at 2, and the keepalive is due 30 seconds later. By then the source was read five times, for 46 frames each time: the 184
    // of four reads have 258,336 bytes, and the source isn't read once 262,144 wait.
    assert_eq!(&rt; seen.after_play(), Some((30_100, 230)));
    assert_eq!(&rt; station.connects.as_slice(), [0].as_slice());
    let (now, figures, end) = end_of(station.lines.as_slice()).expect(&rt, "last line");
    assert!(&rt; end.is_stop(), "stop");
    assert!(&rt; now >= 60_000, "time");
    // Six bytes are no frame. What wasn't read comes after the stop.
    assert_eq!(&rt; (figures.sent, figures.unsent), (0, 1_000));
}
