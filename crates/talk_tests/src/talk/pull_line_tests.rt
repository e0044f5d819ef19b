//! Command lines of `relay pull`, and what they ask for.
use pull_plan::{PullSettings, WantedTracks};
use relay_command::{Asked, read_words};
use std::alloc::Global;
use std::process::Abort;
use std::test::Fail;

/// Returns what a line asks for. `None` if it is of another command.
fn asked(alloc: Global, line: &str) -> Result<Option<PullSettings>, Fail> {
    let words: Vec<&str> = line.split(' ').collect(alloc)?;
    match read_words(alloc, words.as_slice())? {
        Asked::Pull(settings) => Ok(Some(settings)),
        _ => Ok(None),
    }
}

/// Tracks of both kinds.
const BOTH: WantedTracks = WantedTracks {
    video: true,
    audio: true,
};

#[test]
fn a_line_of_pull_has_its_defaults(rt: HostRuntime) -> Result<(), Fail> {
    let line = "relay pull rtsp://10.0.0.9/cam rtsp://127.0.0.1:8554/door";
    let settings = asked(rt.alloc(), line)?.ok_or("no pull")?;
    assert_eq!(rt; settings.source.as_str(), "rtsp://10.0.0.9/cam");
    assert_eq!(rt; settings.target.as_str(), "rtsp://127.0.0.1:8554/door");
    assert_eq!(rt; settings.tracks, BOTH);
    assert_eq!(rt; settings.silent, 10_000);
    assert_eq!(rt; settings.retry, 1_000);
    assert_eq!(rt; settings.report, None);
    assert!(rt; settings.password_file.is_none());
    assert!(rt; !settings.once && !settings.until_eof && !settings.is_verbose);
    Ok(())
}

#[test]
fn a_pull_does_what_its_line_says(rt: HostRuntime) -> Result<(), Fail> {
    let line =
        "relay pull --once rtsp://h/x --silent 86400 rtsp://h/y --retry 10 --tracks audio --report 1 --password-file f --verbose --until-eof";
    let settings = asked(rt.alloc(), line)?.ok_or("no pull")?;
    assert_eq!(rt; settings.silent, 86_400_000);
    assert_eq!(rt; settings.retry, 10);
    assert!(rt; settings.tracks.audio && !settings.tracks.video);
    assert_eq!(rt; settings.report, Some(1_000));
    assert!(rt; settings.once && settings.until_eof && settings.is_verbose);
    let file = settings.password_file.ok_or("no file")?;
    assert_eq!(rt; file.as_str(), "f");
    Ok(())
}

/// Lines that are refused.
const REFUSED: [&str; 8] = [
    "relay pull",
    "relay pull rtsp://h/x",
    "relay pull rtsp://h/x rtsp://h/y more",
    "relay pull rtsp://h/x rtsp://h/y --silent 0",
    "relay pull rtsp://h/x rtsp://h/y --retry 9",
    "relay pull rtsp://h/x rtsp://h/y --retry 60001",
    "relay pull rtsp://h/x rtsp://h/y --tracks video,meta",
    "relay pull rtsp://h/x rtsp://h/y --report 86401",
];

#[test]
fn a_bad_line_of_pull_is_refused(rt: HostRuntime) -> Result<(), Fail> {
    for line in &REFUSED {
        let words: Vec<&str> = line.split(' ').collect(rt.alloc())?;
        match read_words(rt.alloc(), words.as_slice()) {
            Ok(_) => assert!(rt; false, "{line}"),
            Err(error) => assert_eq!(rt; error.exit_code(), 2, "{line}"),
        }
    }
    Ok(())
}
