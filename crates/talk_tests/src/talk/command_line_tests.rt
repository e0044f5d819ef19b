//! Command lines, accepted and refused, and what they ask for.
use clap::Error;
use pacing::Back;
use relay_command::{Asked, SendBuffer, Settings, Task, exit_code, read_words, task_named};
use ring_steps::Actor;
use session_words::{NoWords, WordSource, word_source};
use std::alloc::Global;
use std::process::{Abort, ExitCode};
use std::test::Fail;

/// What `serve` is to do without options.
const DEFAULTS: Settings = Settings {
    keep: 512,
    seats: 64,
    packet_bytes: 16_384,
    accept: None,
    gather: 5,
    back: Back::Packets(0),
    hang_up_ended: true,
    idle: Some(300),
    silent: None,
    per_address: None,
    mounts_per_address: None,
    writers: None,
    is_direct: false,
    is_verbose: false,
    report: None,
    send_buffer: SendBuffer::Default,
    until_eof: false,
};

/// Asserts that this holds of a line.
fn expect(rt: &impl Abort, line: &str, holds: bool) {
    assert!(rt; holds, "{line}");
}

/// Returns what a line asks for, or its error.
fn asked(alloc: Global, line: &str) -> Result<Result<Asked, Error>, Fail> {
    let words: Vec<&str> = line.split(' ').collect(alloc)?;
    Ok(read_words(alloc, words.as_slice()))
}

/// Returns what a line of `relay serve` asks for. `None` if it is refused.
fn settings(alloc: Global, line: &str) -> Result<Option<Settings>, Fail> {
    match asked(alloc, line)? {
        Ok(Asked::Serve(_, settings, _)) => Ok(Some(settings)),
        _ => Ok(None),
    }
}

/// Lines of `serve`, and what they ask for.
const ACCEPTED: [(&str, Settings); 21] = [
    (
        "relay serve a --send-buffer 0",
        Settings {
            send_buffer: SendBuffer::System,
            ..DEFAULTS
        },
    ),
    (
        "relay serve a --until-eof",
        Settings {
            until_eof: true,
            ..DEFAULTS
        },
    ),
    ("relay serve 127.0.0.1:8554", DEFAULTS),
    (
        "relay serve a --keep 1 --seats 1 --packet-bytes 12 --accept 1 --gather 0 --back 0 --keep-ended --idle 0 --silent 1 --per-address 1 --mounts-per-address 1 --publish-from 10.0.0.0/8 --play-from ::/0 --limit-exempt 0.0.0.0/0,::/0 --proxy-from 10.0.0.2 --writers 0 --direct --report 1 --send-buffer 16384",
        Settings {
            keep: 1,
            seats: 1,
            packet_bytes: 12,
            accept: Some(1),
            gather: 0,
            back: Back::Packets(0),
            hang_up_ended: false,
            idle: None,
            silent: Some(1),
            per_address: Some(1),
            mounts_per_address: Some(1),
            writers: Some(0),
            is_direct: true,
            is_verbose: false,
            report: Some(1),
            send_buffer: SendBuffer::Bytes(16_384),
            until_eof: false,
        },
    ),
    (
        "relay serve --keep 4095 --seats 1024 --packet-bytes 65535 --accept 18446744073709551615 --gather 100 --back 4095 --hang-up-ended --idle 65535 --silent 86400 --per-address 1024 --mounts-per-address 64 --writers 64 --verbose --report 86400 --send-buffer 4194304 --until-eof a",
        Settings {
            keep: 4095,
            seats: 1024,
            packet_bytes: 65_535,
            accept: Some(18_446_744_073_709_551_615),
            gather: 100,
            back: Back::Packets(4095),
            hang_up_ended: true,
            idle: Some(65_535),
            silent: Some(86_400),
            per_address: Some(1_024),
            mounts_per_address: Some(64),
            writers: Some(64),
            is_direct: false,
            is_verbose: true,
            report: Some(86_400),
            send_buffer: SendBuffer::Bytes(4_194_304),
            until_eof: true,
        },
    ),
    (
        "relay serve a --keep=7",
        Settings {
            keep: 7,
            ..DEFAULTS
        },
    ),
    (
        "relay serve a --seats 7",
        Settings {
            seats: 7,
            ..DEFAULTS
        },
    ),
    (
        "relay serve a --packet-bytes 70",
        Settings {
            packet_bytes: 70,
            ..DEFAULTS
        },
    ),
    (
        "relay serve a --gather 7",
        Settings {
            gather: 7,
            ..DEFAULTS
        },
    ),
    (
        "relay serve a --back 7",
        Settings {
            back: Back::Packets(7),
            ..DEFAULTS
        },
    ),
    (
        "relay serve a --writers 7",
        Settings {
            writers: Some(7),
            ..DEFAULTS
        },
    ),
    (
        "relay serve a --direct",
        Settings {
            is_direct: true,
            ..DEFAULTS
        },
    ),
    (
        "relay serve a --report 7",
        Settings {
            report: Some(7),
            ..DEFAULTS
        },
    ),
    (
        "relay serve a --back-ms 0",
        Settings {
            back: Back::Milliseconds(0),
            ..DEFAULTS
        },
    ),
    (
        "relay serve a --back-ms 10000",
        Settings {
            back: Back::Milliseconds(10_000),
            ..DEFAULTS
        },
    ),
    (
        "relay serve a --keep-ended",
        Settings {
            hang_up_ended: false,
            ..DEFAULTS
        },
    ),
    ("relay serve a --hang-up-ended", DEFAULTS),
    ("relay serve a --keep-ended --hang-up-ended", DEFAULTS),
    (
        "relay serve a --hang-up-ended --keep-ended",
        Settings {
            hang_up_ended: false,
            ..DEFAULTS
        },
    ),
    (
        "relay serve a --idle 7",
        Settings {
            idle: Some(7),
            ..DEFAULTS
        },
    ),
    (
        "relay serve a --verbose",
        Settings {
            is_verbose: true,
            ..DEFAULTS
        },
    ),
];

#[test]
fn a_server_does_what_its_line_says(rt: HostRuntime) -> Result<(), Fail> {
    for (line, want) in &ACCEPTED {
        expect(&rt, line, settings(rt.alloc(), line)? == Some(*want));
    }
    Ok(())
}

/// Lines of `serve` that are refused: no address, two of them, a number that is out of its range or none.
const REFUSED: [&str; 51] = [
    "relay serve a --http",
    "relay serve a --http-players",
    "relay serve a --silent 0",
    "relay serve a --silent 86401",
    "relay serve a --per-address 0",
    "relay serve a --per-address 1025",
    "relay serve a --mounts-per-address 0",
    "relay serve a --mounts-per-address 65",
    "relay serve a --publish-from 10.0.0.0/33",
    "relay serve a --publish-from ::/129",
    "relay serve a --publish-from 10.0.0.1/8",
    "relay serve a --proxy-from 10.0.0.1/8",
    "relay serve a --play-from cam",
    "relay serve a --play-from 10.0.0.0/8,",
    "relay serve a --limit-exempt ,",
    "relay serve a --send-buffer 1",
    "relay serve a --send-buffer 16383",
    "relay serve a --send-buffer 4194305",
    "relay serve a --until-eof yes",
    "relay serve",
    "relay serve a b",
    "relay serve a --keep 0",
    "relay serve a --keep 4096",
    "relay serve a --keep x",
    "relay serve a --seats 0",
    "relay serve a --seats 1025",
    "relay serve a --packet-bytes 11",
    "relay serve a --packet-bytes 65536",
    "relay serve a --accept 0",
    "relay serve a --accept 18446744073709551616",
    "relay serve a --gather 101",
    "relay serve a --gather -1",
    "relay serve a --hang-up-ended yes",
    "relay serve a --keep-ended yes",
    "relay serve a --back-ms 10001",
    "relay serve a --back-ms x",
    "relay serve a --back 5 --back-ms 5",
    "relay serve a --back-ms 0 --back 0",
    "relay serve a --back-ms 5 --back-ms 6",
    "relay serve a --back 4096",
    "relay serve a --writers 65",
    "relay serve a --idle 65536",
    "relay serve a --idle -1",
    "relay serve a --verbose yes",
    "relay serve a --direct --writers 1",
    "relay serve a --direct yes",
    "relay serve a --report",
    "relay serve a --report 0",
    "relay serve a --report 86401",
    "relay serve a --keep 1 --keep 2",
    "relay serve a --unknown",
];

#[test]
fn a_line_out_of_range_is_refused(rt: HostRuntime) -> Result<(), Fail> {
    for line in &REFUSED {
        expect(&rt, line, settings(rt.alloc(), line)?.is_none());
    }
    Ok(())
}

/// Lines of `serve`, with the address of the status pages, and whether their metrics have samples for each player.
const ENDPOINTS: [(&str, Option<&str>, bool); 3] = [
    ("relay serve a", None, false),
    ("relay serve a --http b", Some("b"), false),
    ("relay serve a --http-players --http b", Some("b"), true),
];

#[test]
fn a_line_has_the_addresses_to_listen_at(rt: HostRuntime) -> Result<(), Fail> {
    for (line, http, has_players) in &ENDPOINTS {
        let Ok(Asked::Serve(endpoints, _, _)) = asked(rt.alloc(), line)? else {
            expect(&rt, line, false);
            return Ok(());
        };
        expect(&rt, line, endpoints.rtsp.as_str() == "a");
        expect(&rt, line, endpoints.http.as_deref() == *http);
        expect(&rt, line, endpoints.http_players == *has_players);
    }
    Ok(())
}

/// Lines that aren't understood, and their exit status: a request for help is 0.
const OTHER_LINES: [(&str, i32); 14] = [
    ("relay", 2),
    ("relay play", 2),
    ("relay talk x", 2),
    ("relay talk --word", 2),
    ("relay steps x", 2),
    ("relay steps --stopped", 2),
    ("relay steps --stopped=", 2),
    ("relay steps --stopped 1x", 2),
    ("relay pass x", 2),
    ("relay pass --channels 1", 2),
    ("relay pass --to 0-0", 2),
    ("relay --help", 0),
    ("relay --version", 0),
    ("relay serve --help", 0),
];

/// Returns the exit status of a line that isn't understood. `None` if it is understood.
fn status_of(alloc: Global, line: &str) -> Result<Option<i32>, Fail> {
    match asked(alloc, line)? {
        Ok(_) => Ok(None),
        Err(error) => Ok(Some(error.exit_code())),
    }
}

#[test]
fn another_line_has_its_status(rt: HostRuntime) -> Result<(), Fail> {
    for (line, want) in &OTHER_LINES {
        expect(&rt, line, status_of(rt.alloc(), line)? == Some(*want));
    }
    Ok(())
}

/// Lines of `steps`, and the actor that stops; `None` if the line is refused. A number above those of all seats names the
/// seat 65,535, which no ring has.
const STEPS: [(&str, Option<Option<Actor>>); 14] = [
    ("relay steps", Some(None)),
    ("relay steps --stopped p", Some(Some(Actor::P))),
    ("relay steps --stopped 0", Some(Some(Actor::Seat(0)))),
    ("relay steps --stopped=1023", Some(Some(Actor::Seat(1023)))),
    ("relay steps --stopped 007", Some(Some(Actor::Seat(7)))),
    (
        "relay steps --stopped 999999999",
        Some(Some(Actor::Seat(65535))),
    ),
    ("relay steps --stopped", None),
    ("relay steps --stopped=", None),
    ("relay steps --stopped x", None),
    ("relay steps --stopped P", None),
    ("relay steps --stopped 1x", None),
    ("relay steps --stopped +1", None),
    ("relay steps --stopped 0000000001", None),
    ("relay steps --stopped p --stopped 0", None),
];

/// Returns the actor that stops by a line of `steps`. `None` if the line is refused.
fn stopped_of(alloc: Global, line: &str) -> Result<Option<Option<Actor>>, Fail> {
    match asked(alloc, line)? {
        Ok(Asked::Steps(stopped)) => Ok(Some(stopped)),
        _ => Ok(None),
    }
}

#[test]
fn a_line_of_steps_names_who_stops(rt: HostRuntime) -> Result<(), Fail> {
    for (line, want) in &STEPS {
        expect(&rt, line, stopped_of(rt.alloc(), line)? == *want);
    }
    Ok(())
}

/// Lines of `talk`, and the source of its words, or why it has none.
const TALKS: [(&str, Result<WordSource, NoWords>); 8] = [
    ("relay talk", Ok(WordSource::Drawn)),
    ("relay talk --word 0000abcd", Ok(WordSource::Fixed(0xabcd))),
    ("relay talk --word 0000ABCD", Ok(WordSource::Fixed(0xabcd))),
    (
        "relay talk --word=FFFFFFFF",
        Ok(WordSource::Fixed(0xffff_ffff)),
    ),
    ("relay talk --word abcd", Err(NoWords::BadWord)),
    ("relay talk --word 000abcd", Err(NoWords::BadWord)),
    ("relay talk --word 00000abcd", Err(NoWords::BadWord)),
    ("relay talk --word=", Err(NoWords::BadWord)),
];

/// Returns the source of the words of the talk that a line asks for, or why it has none. `None` if it asks for no talk.
fn words_of(alloc: Global, line: &str) -> Result<Option<Result<WordSource, NoWords>>, Fail> {
    match asked(alloc, line)? {
        Ok(Asked::Talk(text)) => Ok(Some(word_source(text.as_deref()))),
        _ => Ok(None),
    }
}

#[test]
fn a_talk_has_the_words_of_its_line(rt: HostRuntime) -> Result<(), Fail> {
    for (line, want) in &TALKS {
        expect(&rt, line, words_of(rt.alloc(), line)? == Some(*want));
    }
    Ok(())
}

/// Why a talk has no words, with the exit status and the line on standard error.
const WORDLESS: [(NoWords, u8, &str); 2] = [
    (NoWords::BadWord, 2, "relay: bad word"),
    (NoWords::NoRandomSource, 1, "relay: no random source"),
];

#[test]
fn a_talk_without_words_is_told(rt: HostRuntime) -> Result<(), Fail> {
    for (why, status, line) in &WORDLESS {
        expect(&rt, line, why.status() == *status && why.line() == *line);
    }
    Ok(())
}

/// Names, and their commands.
const NAMES: [(&str, Option<Task>); 5] = [
    ("talk", Some(Task::Talk)),
    ("steps", Some(Task::Steps)),
    ("serve", Some(Task::Serve)),
    ("pass", Some(Task::Pass)),
    ("play", None),
];

#[test]
fn a_command_is_known_by_its_name(rt: HostRuntime) {
    for (name, want) in &NAMES {
        expect(&rt, name, task_named(name) == *want);
    }
    assert!(rt; exit_code(1) == ExitCode::FAILURE);
    assert!(rt; exit_code(2) == ExitCode::from(2));
}
