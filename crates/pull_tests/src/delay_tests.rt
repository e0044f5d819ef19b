//! When tries begin.

use crate::logged::minutes_of;
use crate::script::{CAMERA, Opening, PLAN, Script};
use crate::scripted::{Changing, ScriptedStation};
use crate::seen::Seen;
use base_syntax::Bytes;
use relay_pull::{Ended, run_tries};
use rtsp_client::Side;

/// A try in which the source isn't connected to.
const REFUSED: Script = Script {
    opening: Opening::Refused,
    ..CAMERA
};

/// A try in which the source refuses the password.
const LOCKED: Script = Script {
    opening: Opening::Locked,
    ..CAMERA
};

/// Two tries aren't connected, then frames go on for eleven seconds until the source ends, and the next try isn't connected: after the third
/// try the delay is the first one again, and after the fourth twice that.
#[test]
fn delays_begin_anew_after_ten_seconds_of_frames(rt: HostRuntime) {
    let steady = Script {
        frames: 12,
        apart: 1_000,
        ends_after: Some(0),
        ..CAMERA
    };
    let scripts = [REFUSED, REFUSED, steady, REFUSED];
    let seen = Seen::new(rt.alloc());
    let mut station = ScriptedStation::new(rt.alloc(), &seen, &scripts, None, 17_000);
    let ended = run_tries(&mut station, rt.alloc(), &PLAN, 1_000, None);
    assert!(&rt; matches!(ended, Ended::Good), "stopped");
    assert_eq!(&rt;
        station.rests.as_slice(),
        [1_000, 2_000, 1_000, 2_000].as_slice()
    );
    // A delay, and a millisecond for a look at the clock, are between two tries. The third one plays at 3,004 and is attended to each 101
    // milliseconds: at 14,013 it has its last frame, which is due at 14,004.
    assert_eq!(&rt;
        station.connects.as_slice(),
        [0, 1_001, 3_002, 15_014].as_slice()
    );
}

/// Returns whether each moment is at most a second after the one that is wanted, and there are as many.
fn are_near(moments: &[u64], wanted: &[u64]) -> bool {
    for (moment, wanted) in moments.iter().zip(wanted.iter()) {
        if *moment < *wanted || *moment > wanted.saturating_add(1_000) {
            return false;
        }
    }
    moments.len() == wanted.len()
}

/// The source refuses a password that doesn't change: it is sent ten minutes after the first refusal, and thirty after each further one. The
/// tries begin at most a second after that.
#[test]
fn a_refused_password_is_sent_after_ten_minutes_and_then_each_thirty(rt: HostRuntime) {
    let same = Changing {
        before: "12345",
        after: "12345",
        at: 0,
    };
    let scripts = [LOCKED];
    let seen = Seen::new(rt.alloc());
    let mut station = ScriptedStation::new(rt.alloc(), &seen, &scripts, Some(same), 4_201_000);
    let password = Bytes::from_slice(rt.alloc(), b"12345").expect(&rt, "memory");
    let ended = run_tries(&mut station, rt.alloc(), &PLAN, 1_000, Some(password));
    assert!(&rt; matches!(ended, Ended::Good), "stopped");
    let wanted = [0, 600_000, 2_400_000, 4_200_000];
    assert!(&rt; are_near(station.connects.as_slice(), &wanted), "moments");
    let minutes = minutes_of(rt.alloc(), station.lines.as_slice()).expect(&rt, "memory");
    assert_eq!(&rt; minutes.as_slice(), [10, 30, 30, 30].as_slice());
}

/// The password's file has another one from 100 seconds on. The next try begins at the next look, at most five seconds and the delay of one
/// later, and sends that one; its refusal is a first one again.
#[test]
fn a_changed_password_is_tried_at_the_next_look(rt: HostRuntime) {
    let changing = Changing {
        before: "12345",
        after: "54321",
        at: 100_000,
    };
    let scripts = [LOCKED];
    let seen = Seen::new(rt.alloc());
    let mut station = ScriptedStation::new(rt.alloc(), &seen, &scripts, Some(changing), 200_000);
    let password = Bytes::from_slice(rt.alloc(), b"12345").expect(&rt, "memory");
    let ended = run_tries(&mut station, rt.alloc(), &PLAN, 1_000, Some(password));
    assert!(&rt; matches!(ended, Ended::Good), "stopped");
    // The first look is at 6,004, and each further one 5,001 milliseconds later: the first one after the change is at 101,023.
    assert_eq!(&rt; station.connects.as_slice(), [0, 101_024].as_slice());
    let minutes = minutes_of(rt.alloc(), station.lines.as_slice()).expect(&rt, "memory");
    assert_eq!(&rt; minutes.as_slice(), [10, 10].as_slice());
    // MD5 of MD5("admin:r:12345"), "a" and MD5("DESCRIBE:rtsp://10.0.0.9/cam"), and of the other password with "b".
    assert!(&rt;
        seen.has(
            Side::Source,
            b"response=\"c9e0907fc03898cc1080016993ab92b5\""
        ),
        "first"
    );
    assert!(&rt;
        seen.has(
            Side::Source,
            b"response=\"9ff67c0f9716900a7c38d4708838fa65\""
        ),
        "other"
    );
}
