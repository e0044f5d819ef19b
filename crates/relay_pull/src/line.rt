//! The log lines of a pull.
ghost use Rattle.std.specs.Prelude.{◌↔◌, IsTrue};
ghost use Rattle.relay_pull.specs.Lines.{IsWarning};

use crate::try_end::TryEnd;
use pull_plan::{Away, Figures};
use pull_session::Note;
use rtsp_client::Side;
use source_sdp::{LeftOut, Media};
use std::fmt;
use transport_header::{ChannelPair, MOST_TRACKS};

/// A track that goes on.
#[derive(Clone, Copy, Debug, PartialEq, Eq, Drop)]
pub struct Track {
    /// What it sends.
    pub media: Media,
    /// Its channels on the source's connection.
    pub channels: ChannelPair,
}

/// The tracks that go on, by their place among them, at most 16.
pub type Tracks = [Option<Track>; MOST_TRACKS];

/// What a log line says of a camera.
#[derive(Clone, Copy, Debug, PartialEq, Eq, Drop)]
pub enum Line {
    /// The target records these tracks, and PLAY is sent.
    Begins(Tracks),
    /// No frames went on for this time.
    Away(Away),
    /// What came since the last report.
    Report(Figures),
    /// The session notes something.
    Note(Note),
    /// A try has ended.
    Ends { figures: Figures, end: TryEnd },
    /// The source refused the password, which isn't sent for this number of minutes unless its file changes.
    Locked { minutes: u64 },
}

impl Line {
    /// Returns whether the line is a warning.
    pub fn is_warning(&self) -> bool
        ensures { IsTrue result ↔ IsWarning self.now }
    {
        match *self {
            Line::Ends { end, .. } => !end.is_stop(),
            Line::Locked { .. } => true,
            _ => false,
        }
    }

    /// Returns whether the line is for `--verbose` alone.
    pub fn is_detail(&self) -> bool {
        matches!(self, Line::Note(Note::ReplyIgnored { .. }))
    }
}

/// The word for a side.
fn side_word(side: Side) -> &'static str {
    match side {
        Side::Source => "source",
        Side::Target => "target",
    }
}

/// The word for what a track sends.
fn media_word(media: Media) -> &'static str {
    match media {
        Media::Audio => "audio",
        Media::Video => "video",
    }
}

/// Writes which tracks go on, and on which channels of the source they come.
fn write_tracks<W: fmt::Write>(tracks: &Tracks, f: &mut fmt::Formatter<W>) -> fmt::Result {
    write!(f, "begins, tracks")?;
    for (place, track) in tracks.iter().enumerate() {
        if let Some(track) = track {
            let (comma, channels) = (if place == 0 { "" } else { "," }, track.channels);
            let (rtp, rtcp) = (channels.first, channels.second);
            write!(f, "{comma} {} {rtp}-{rtcp}", media_word(track.media))?;
        }
    }
    Ok(())
}

/// Writes which media section of a description is left out, and why.
fn write_section<W: fmt::Write>(left_out: LeftOut, f: &mut fmt::Formatter<W>) -> fmt::Result {
    write!(
        f,
        "section {} left out: {}",
        left_out.place, left_out.reason
    )
}

/// Writes what a session notes.
fn write_note<W: fmt::Write>(note: Note, f: &mut fmt::Formatter<W>) -> fmt::Result {
    match note {
        Note::SectionLeftOut(left_out) => write_section(left_out, f),
        Note::TrackNotWanted { track } => write!(f, "track {track} left out: not in --tracks"),
        Note::TrackHasNoUri { track, fault } => write!(f, "track {track} left out: {fault}"),
        Note::TrackRefused { track, status } => {
            write!(f, "track {track} left out: source refused SETUP: {status}")
        }
        Note::ReplyIgnored { side, status } => {
            write!(f, "reply {status} of the {} ignored", side_word(side))
        }
        Note::SendsPassword => write!(f, "the password is sent as it is (Basic)"),
        Note::Begins => write!(f, "begins"),
    }
}

impl fmt::Display for Line {
    fn fmt<W: fmt::Write>(&self, f: &mut fmt::Formatter<W>) -> fmt::Result {
        match *self {
            Line::Begins(tracks) => write_tracks(&tracks, f),
            Line::Away(away) => write!(f, "{away}"),
            Line::Report(figures) => write!(f, "{figures}"),
            Line::Note(note) => write_note(note, f),
            Line::Ends { figures, end } => write!(f, "{figures}, {end}"),
            Line::Locked { minutes } => {
                write!(
                    f,
                    "no try for {minutes} minutes, or until the password file changes"
                )
            }
        }
    }
}
