//! The options of `relay pull`, with their ranges, defaults and texts, in the order in which its help has them.
use crate::options::{OptionRow, Other, Takes};
use clap::builder::ValueParser;

pub(crate) const PULL_OPTIONS: [OptionRow; 10] = [
    OptionRow {
        name: "source",
        takes: Takes::Argument("SOURCE"),
        default: None,
        other: Other::Any,
        help: "The URL of the camera's stream, as rtsp://admin@10.0.0.9/stream,{n}without a password: see --password-file",
    },
    OptionRow {
        name: "target",
        takes: Takes::Argument("TARGET"),
        default: None,
        other: Other::Any,
        help: "The URL under which it is published, as{n}rtsp://127.0.0.1:8554/door",
    },
    OptionRow {
        name: "once",
        takes: Takes::Nothing,
        default: None,
        other: Other::Any,
        help: "Try once. The status is 0 if packets went on until the source{n}ended or a stop, and else 1",
    },
    OptionRow {
        name: "password-file",
        takes: Takes::Text("FILE"),
        default: None,
        other: Other::Any,
        help: "The file that has the password of SOURCE's user, read anew at{n}each try [default: none]",
    },
    OptionRow {
        name: "tracks",
        takes: Takes::Text("KINDS"),
        default: Some("video,audio"),
        other: Other::Any,
        help: "Which tracks go on: video, audio, or{n}video,audio",
    },
    OptionRow {
        name: "silent",
        takes: Takes::Number("SECONDS", ValueParser::Unsigned(1, 86_400)),
        default: Some("10"),
        other: Other::Any,
        help: "End a try if no packet of a track comes for SECONDS{n}(1 to 86400)",
    },
    OptionRow {
        name: "retry",
        takes: Takes::Number("MS", ValueParser::Unsigned(10, 60_000)),
        default: Some("1000"),
        other: Other::Any,
        help: "How many milliseconds are between the first two tries; the time{n}doubles with each try, to thirty times MS{n}(10 to 60000)",
    },
    OptionRow {
        name: "verbose",
        takes: Takes::Nothing,
        default: None,
        other: Other::Any,
        help: "Log replies that are ignored, too",
    },
    OptionRow {
        name: "report",
        takes: Takes::Number("SECONDS", ValueParser::Unsigned(1, 86_400)),
        default: None,
        other: Other::Any,
        help: "Log every SECONDS what went on and what was missing{n}(1 to 86400) [default: off]",
    },
    OptionRow {
        name: "until-eof",
        takes: Takes::Nothing,
        default: None,
        other: Other::Any,
        help: "End when standard input ends, and first log what went on",
    },
];
