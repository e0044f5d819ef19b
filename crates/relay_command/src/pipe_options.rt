//! The options of the commands that read standard input, `relay talk`, `relay steps` and `relay pass`, with their ranges, defaults
//! and texts, in the order in which the helps have them.
use crate::options::{OptionRow, Other, Takes};
use clap::builder::ValueParser;

pub(crate) const TALK_OPTIONS: [OptionRow; 1] = [OptionRow {
    name: "word",
    takes: Takes::Text("HEX8"),
    default: None,
    other: Other::Any,
    help: "The last eight hexadecimal digits of each session identifier{n}[default: random]",
}];

pub(crate) const STEPS_OPTIONS: [OptionRow; 1] = [OptionRow {
    name: "stopped",
    takes: Takes::Text("A"),
    default: None,
    other: Other::Any,
    help: "Stop an actor after the schedule, p (the publisher) or the number of a seat,{n}and let the others finish their calls",
}];

pub(crate) const PASS_OPTIONS: [OptionRow; 3] = [
    OptionRow {
        name: "keep",
        takes: Takes::Number("N", ValueParser::Signed(1, 4_095)),
        default: Some("512"),
        other: Other::Any,
        help: "How many packets the ring keeps for its player (1 to 4095)",
    },
    OptionRow {
        name: "channels",
        takes: Takes::Text("A-B"),
        default: Some("0-1"),
        other: Other::Any,
        help: "On which channels the tracks come in, as 0-1,2-3: those of RTP and RTCP{n}of the first track, then of the second",
    },
    OptionRow {
        name: "to",
        takes: Takes::Text("A-B"),
        default: None,
        other: Other::Any,
        help: "On which channels they go out{n}[default: those on which they come in]",
    },
];
