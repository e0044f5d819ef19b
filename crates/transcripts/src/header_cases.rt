//! Cases of headers (RFC 2326, 12.33, 12.37 and 12.39).

use crate::track_cases::call_tracks;
use base_syntax::{Bytes, read_number};
use case_texts::{Arguments, Fault, Told, byte_of, meaning, resolved, short_of};
use std::alloc::{AllocError, Global};
use transport_header::{
    ChannelPair, Channels, Chosen, InfoEntry, Mode, Protocol, Spec, TrackChannels, choose,
    put_rtp_info, put_session, put_transport, read_session, read_transport,
};

/// What a word of a header's case asks for.
#[derive(Clone, Copy, Drop)]
enum HeaderWord {
    Used,
    Free,
    Text(TextWord),
    Transport,
    Identifier,
    RtpInfo,
}

/// What is asked of the text of a header.
#[derive(Clone, Copy, Drop)]
enum TextWord {
    Read,
    Choose,
    Session,
}

/// The words of a header's case, but those over tracks.
const WORDS: [(&str, HeaderWord); 8] = [
    ("used", HeaderWord::Used),
    ("free", HeaderWord::Free),
    ("read", HeaderWord::Text(TextWord::Read)),
    ("choose", HeaderWord::Text(TextWord::Choose)),
    ("session", HeaderWord::Text(TextWord::Session)),
    ("transport", HeaderWord::Transport),
    ("identifier", HeaderWord::Identifier),
    ("rtp-info", HeaderWord::RtpInfo),
];

/// The channels that are in use, and those of a session's tracks.
#[derive(Drop)]
pub struct HeaderCase {
    used: Channels,
    tracks: TrackChannels,
}

impl HeaderCase {
    /// No channel is in use, and no track is set up.
    pub fn new() -> HeaderCase {
        HeaderCase {
            used: Channels::new(),
            tracks: TrackChannels::new(),
        }
    }

    pub fn call(
        &mut self,
        word: &[u8],
        arguments: &mut Arguments<'_>,
        told: &mut Told,
    ) -> Result<(), Fault> {
        match meaning(&WORDS, word) {
            Some(HeaderWord::Used) => self.set_used(&arguments.words(told.alloc())?),
            Some(HeaderWord::Free) => Ok(self.tell_free(told)?),
            Some(HeaderWord::Text(word)) => {
                let text = arguments.text(told.alloc())?;
                self.tell_text(word, &text, told)
            }
            Some(HeaderWord::Transport) => tell_transport(arguments, told),
            Some(HeaderWord::Identifier) => tell_identifier(arguments, told),
            Some(HeaderWord::RtpInfo) => tell_rtp_info(arguments, told),
            None => call_tracks(&mut self.tracks, word, arguments, told),
        }
    }

    /// Tells the least pair of channels that is free.
    fn tell_free(&self, told: &mut Told) -> Result<(), AllocError> {
        let pair = pair_text(told.alloc(), self.used.least_free_pair())?;
        told.fact(pair.as_bytes())
    }

    /// Tells what a word asks of the text of a header.
    fn tell_text(&self, word: TextWord, text: &[u8], told: &mut Told) -> Result<(), Fault> {
        match word {
            TextWord::Read => tell_specs(text, told),
            TextWord::Choose => self.tell_choice(text, told),
            TextWord::Session => Ok(told.fact(read_session(text))?),
        }
    }

    /// Puts these channels in use, and no others.
    fn set_used(&mut self, words: &[&[u8]]) -> Result<(), Fault> {
        let mut used = Channels::new();
        for word in words {
            if used.is_full() {
                return Err(Fault::MoreArguments);
            }
            used.insert(byte_of(word)?);
        }
        self.used = used;
        Ok(())
    }

    /// Tells what is chosen of a Transport header, and how that is answered.
    fn tell_choice(&self, text: &[u8], told: &mut Told) -> Result<(), Fault> {
        let alloc = told.alloc();
        let Some(chosen) = choose(&read_transport(alloc, text)?, &self.used) else {
            return Ok(told.fact(b"refused")?);
        };
        let Chosen { rtp, rtcp, .. } = chosen;
        let mode = if chosen.recording { "record" } else { "play" };
        told.fact(format!(in alloc; "{rtp}-{rtcp} {mode}")?.as_bytes())?;
        put_transport(&mut told.facts, &chosen)?;
        Ok(told.fact(b"")?)
    }
}

/// A pair of channels, as `A-B`.
pub fn pair_text(alloc: Global, pair: ChannelPair) -> Result<String, AllocError> {
    let ChannelPair { first, second } = pair;
    format!(in alloc; "{first}-{second}")
}

/// Tells the specs of a Transport header.
fn tell_specs(text: &[u8], told: &mut Told) -> Result<(), Fault> {
    for spec in &read_transport(told.alloc(), text)? {
        tell_spec(spec, told)?;
    }
    Ok(())
}

fn tell_spec(spec: &Spec, told: &mut Told) -> Result<(), AllocError> {
    let protocol: &[u8] = match spec.protocol {
        Protocol::Tcp => b"tcp",
        Protocol::Other => b"other",
    };
    told.facts.extend_from_slice(protocol)?;
    if spec.multicast {
        told.facts.extend_from_slice(b" multicast")?;
    }
    if let Some(pair) = spec.interleaved {
        let pair = pair_text(told.alloc(), pair)?;
        told.facts.push(b' ')?;
        told.facts.extend_from_slice(pair.as_bytes())?;
    }
    told.fact(match spec.mode {
        Mode::Play => b" play",
        Mode::Record => b" record",
    })
}

/// `identifier NUMBER HEX8`.
fn tell_identifier(arguments: &mut Arguments<'_>, told: &mut Told) -> Result<(), Fault> {
    let number = arguments.number()?;
    let word = arguments.hex()?;
    put_session(&mut told.facts, number, word)?;
    Ok(told.fact(b"")?)
}

/// `transport A B play` or `transport A B record`.
fn tell_transport(arguments: &mut Arguments<'_>, told: &mut Told) -> Result<(), Fault> {
    let rtp = arguments.byte()?;
    let rtcp = arguments.byte()?;
    let recording = match arguments.word() {
        Some(b"play") => false,
        Some(b"record") => true,
        _ => return Err(Fault::UnknownWord),
    };
    let chosen = Chosen {
        rtp,
        rtcp,
        recording,
    };
    put_transport(&mut told.facts, &chosen)?;
    Ok(told.fact(b"")?)
}

/// `rtp-info URL SEQ RTPTIME URL SEQ RTPTIME ..`.
fn tell_rtp_info(arguments: &mut Arguments<'_>, told: &mut Told) -> Result<(), Fault> {
    let alloc = told.alloc();
    let mut entries = Vec::new(alloc);
    for triple in arguments.words(alloc)?.chunks(3) {
        entries.push(read_entry(alloc, triple)?)?;
    }
    put_rtp_info(&mut told.facts, &entries)?;
    Ok(told.fact(b"")?)
}

/// A track's URL and point, of three words.
fn read_entry(alloc: Global, words: &[&[u8]]) -> Result<InfoEntry, Fault> {
    let [url, sequence, timestamp] = words else {
        return Err(Fault::BadNumber);
    };
    Ok(InfoEntry {
        url: Bytes::new(resolved(alloc, url)?),
        sequence: short_of(sequence)?,
        timestamp: read_number(timestamp, u32::MAX).ok_or(Fault::BadNumber)?,
    })
}
