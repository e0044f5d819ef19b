//! Command lines of `relay pass`, and what they ask for.
use clap::Error;
use relay_command::{Asked, read_words};
use std::alloc::Global;
use std::process::Abort;
use std::test::Fail;
use transport_header::{ChannelPair, TrackChannels};

/// Channels as pairs of numbers, for each track from the first on.
type Pairs = &'static [(u8, u8)];

/// Lines, with how many packets the ring keeps, and the channels on which tracks come in and go out.
const LINES: [(&str, usize, Pairs, Pairs); 7] = [
    ("relay pass", 512, &[(0, 1)], &[(0, 1)]),
    ("relay pass --keep 4095", 4095, &[(0, 1)], &[(0, 1)]),
    ("relay pass --keep 1 --to 2-3", 1, &[(0, 1)], &[(2, 3)]),
    (
        "relay pass --channels 0-1,2-3",
        512,
        &[(0, 1), (2, 3)],
        &[(0, 1), (2, 3)],
    ),
    (
        "relay pass --channels=255-0,007-9 --to=9-7",
        512,
        &[(255, 0), (7, 9)],
        &[(9, 7)],
    ),
    (
        "relay pass --to 0-1,2-3,4-5,6-7,8-9,10-11,12-13,14-15,16-17,18-19,20-21,22-23,24-25,26-27,28-29,30-31",
        512,
        &[(0, 1)],
        &[
            (0, 1),
            (2, 3),
            (4, 5),
            (6, 7),
            (8, 9),
            (10, 11),
            (12, 13),
            (14, 15),
            (16, 17),
            (18, 19),
            (20, 21),
            (22, 23),
            (24, 25),
            (26, 27),
            (28, 29),
            (30, 31),
        ],
    ),
    ("relay pass --channels 2-1", 512, &[(2, 1)], &[(2, 1)]),
];

/// Returns whether the first tracks have these channels, and the others none.
fn have(channels: &TrackChannels, pairs: Pairs) -> bool {
    (0..16usize).all(|track| {
        let wanted = match pairs.get(track) {
            Some((first, second)) => Some(ChannelPair {
                first: *first,
                second: *second,
            }),
            None => None,
        };
        channels.pair_of(track) == wanted
    })
}

/// Returns what a line asks for, or its error.
fn asked(alloc: Global, line: &str) -> Result<Result<Asked, Error>, Fail> {
    let words: Vec<&str> = line.split(' ').collect(alloc)?;
    Ok(read_words(alloc, words.as_slice()))
}

/// Returns whether this is asked for.
fn is_pass(asked: &Asked, keep: usize, from: Pairs, to: Pairs) -> bool {
    match asked {
        Asked::Pass(passing) => {
            passing.keep == keep && have(&passing.from, from) && have(&passing.to, to)
        }
        _ => false,
    }
}

/// Returns whether a line asks for this.
fn asks_for(alloc: Global, line: &str, keep: usize, from: Pairs, to: Pairs) -> Result<bool, Fail> {
    match asked(alloc, line)? {
        Ok(asked) => Ok(is_pass(&asked, keep, from, to)),
        Err(_error) => Ok(false),
    }
}

#[test]
fn a_line_of_pass_names_its_channels(rt: HostRuntime) -> Result<(), Fail> {
    for (line, keep, from, to) in &LINES {
        assert!(rt; asks_for(rt.alloc(), line, *keep, from, to)?, "{line}");
    }
    Ok(())
}

/// Lines that are refused: texts that are no pairs, a channel that is given twice, more than sixteen pairs, and numbers out of
/// their range.
const REFUSED: [&str; 16] = [
    "relay pass --channels 0",
    "relay pass --channels 0-",
    "relay pass --channels -1",
    "relay pass --channels 0-256",
    "relay pass --channels 0-0",
    "relay pass --channels 0-1,",
    "relay pass --channels ,0-1",
    "relay pass --channels 0-1-2",
    "relay pass --channels 0-1,1-2",
    "relay pass --channels a-b",
    "relay pass --channels=",
    "relay pass --to 0-0",
    "relay pass --to 0-1,2-3,4-5,6-7,8-9,10-11,12-13,14-15,16-17,18-19,20-21,22-23,24-25,26-27,28-29,30-31,32-33",
    "relay pass --keep 0",
    "relay pass --keep 4096",
    "relay pass --word 0000abcd",
];

#[test]
fn a_line_without_channels_is_refused(rt: HostRuntime) -> Result<(), Fail> {
    for line in &REFUSED {
        let is_refused = asked(rt.alloc(), line)?.is_err();
        assert!(rt; is_refused, "{line}");
    }
    Ok(())
}
