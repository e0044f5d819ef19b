//! The channels of tracks, as a command line writes them.
ghost use Rattle.std.specs.Prelude.{IfSome};
ghost use Rattle.relay_command.specs.Channels.{GivesChannels, WritesPair};

use base_syntax::{cut, read_number};
use transport_header::{ChannelPair, MOST_TRACKS, TrackChannels};

/// Returns the channels that a text gives to tracks, from the first track on: pairs with commas between them, each two numbers
/// of 0 to 255 with a `-` between, as `0-1,2-3`. `None` for another text, for more than 16 pairs, and if a channel is given
/// twice.
pub(crate) fn read_channels(text: &[u8]) -> Option<TrackChannels>
    ensures { IfSome result (GivesChannels text.now) }
{
    let mut channels = TrackChannels::new();
    let mut rest = Some(text);
    for track in 0..MOST_TRACKS {
        let Some(text) = rest else {
            return Some(channels);
        };
        let (part, others) = cut(text, b',');
        let pair = read_pair(part)?;
        if !channels.may_have(track, pair) {
            return None;
        }
        channels.set(track, pair);
        rest = others;
    }
    match rest {
        Some(_) => None,
        None => Some(channels),
    }
}

/// Returns the pair of channels that a text writes. `None` for another text.
fn read_pair(text: &[u8]) -> Option<ChannelPair>
    ensures { IfSome result (WritesPair text.now) }
{
    let (first, second) = cut(text, b'-');
    let first = read_number(first, 255)? as u8;
    let second = read_number(second?, 255)? as u8;
    Some(ChannelPair { first, second })
}
