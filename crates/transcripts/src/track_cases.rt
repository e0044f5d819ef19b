//! Calls over the channels of a session's tracks.

use crate::header_cases::pair_text;
use case_texts::{Arguments, Fault, Told, meaning};
use std::alloc::AllocError;
use transport_header::{ChannelPair, Channels, MOST_TRACKS, TrackChannels};

/// What a word asks of the channels of tracks.
#[derive(Clone, Copy, Drop)]
enum TrackWord {
    Set,
    Remove,
    Channel,
    Tag,
    Pair,
    Others,
}

const WORDS: [(&str, TrackWord); 6] = [
    ("set", TrackWord::Set),
    ("remove", TrackWord::Remove),
    ("channel", TrackWord::Channel),
    ("tag", TrackWord::Tag),
    ("pair", TrackWord::Pair),
    ("others", TrackWord::Others),
];

/// Calls what a word names, of the channels of tracks.
pub fn call_tracks(
    tracks: &mut TrackChannels,
    word: &[u8],
    arguments: &mut Arguments<'_>,
    told: &mut Told,
) -> Result<(), Fault> {
    match meaning(&WORDS, word).ok_or(Fault::UnknownWord)? {
        TrackWord::Set => set_up(tracks, arguments, told),
        TrackWord::Remove => {
            let track = arguments.number()? as usize;
            if track < MOST_TRACKS {
                tracks.remove(track);
            }
            Ok(())
        }
        TrackWord::Channel => {
            let channel = tracks.channel_of(arguments.byte()?);
            Ok(told.number(channel.map(u64::from))?)
        }
        TrackWord::Tag => {
            let tag = tracks.tag_on(arguments.byte()?);
            Ok(told.number(tag.map(u64::from))?)
        }
        TrackWord::Pair => {
            let track = arguments.number()? as usize;
            Ok(tell_pair(tracks.pair_of(track), told)?)
        }
        TrackWord::Others => {
            let track = arguments.number()? as usize;
            Ok(tell_channels(&tracks.others(track), told)?)
        }
    }
}

/// Gives a track two channels, if it may have them, and tells whether.
fn set_up(
    tracks: &mut TrackChannels,
    arguments: &mut Arguments<'_>,
    told: &mut Told,
) -> Result<(), Fault> {
    let track = arguments.number()? as usize;
    let first = arguments.byte()?;
    let second = arguments.byte()?;
    let pair = ChannelPair { first, second };
    if track < MOST_TRACKS && tracks.may_have(track, pair) {
        tracks.set(track, pair);
        Ok(told.truth(true)?)
    } else {
        Ok(told.truth(false)?)
    }
}

fn tell_pair(pair: Option<ChannelPair>, told: &mut Told) -> Result<(), AllocError> {
    match pair {
        Some(pair) => {
            let text = pair_text(told.alloc(), pair)?;
            told.fact(text.as_bytes())
        }
        None => told.fact(b"none"),
    }
}

/// Tells channels in rising order.
fn tell_channels(channels: &Channels, told: &mut Told) -> Result<(), AllocError> {
    let mut text = String::new(told.alloc());
    for channel in 0..=255u8 {
        if channels.contains(channel) {
            let before = if text.is_empty() { "" } else { " " };
            text.push_str(format!(in told.alloc(); "{before}{channel}")?.as_str())?;
        }
    }
    told.fact(if text.is_empty() {
        b"none"
    } else {
        text.as_bytes()
    })
}
