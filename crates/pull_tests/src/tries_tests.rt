//! Many tries.

use crate::station::MemoryStation;
use pull_session::PullOptions;
use relay_pull::{Ended, Plan, run_tries};

/// What is tried.
const PLAN: Plan<'static> = Plan {
    source: "rtsp://10.0.0.9/cam",
    target: "rtsp://127.0.0.1:8554/door",
    options: PullOptions {
        takes_audio: true,
        takes_video: true,
        silent: 10_000,
    },
    report: None,
    once: false,
};

/// 3,000 tries aren't connected, or end at once. Each has its line, and the delays are those of a first one of 10 milliseconds.
#[test]
fn three_thousand_tries_have_their_lines_and_delays(rt: HostRuntime) {
    let mut station = MemoryStation::new(rt.alloc(), 3_000);
    let ended = run_tries(&mut station, rt.alloc(), &PLAN, 10, None);
    assert!(&rt; matches!(ended, Ended::Good));
    assert_eq!(&rt; station.ends, 3_000);
    assert_eq!(&rt; station.longest, 300);
    // 10, 20, 40, 80 and 160 milliseconds, and then 300.
    assert_eq!(&rt; station.rested, 310 + 2_995 * 300);
}
