//! What the source's description offers, and what is announced of it.

use crate::note::{Note, Notes};
use crate::options::PullOptions;
use crate::reason::DescriptionFault;
use base_syntax::{Bytes, Items};
use rtsp_client::Client;
use source_sdp::{AnnounceError, Media, SourceDescription, SourceTrack};
use source_urls::{ControlFault, control_uri};
use std::alloc::{AllocError, Global};

/// A track that is asked for.
#[derive(Drop)]
struct OfferedTrack {
    /// Its place among the tracks of the description.
    place: usize,
    /// The URI of its SETUP.
    uri: Bytes,
}

/// What the source offers: its description, and the URIs of its tracks and of its session.
#[derive(Drop)]
pub(crate) struct Offer {
    description: SourceDescription,
    /// The tracks that are asked for, in the order of the description.
    tracks: Items<OfferedTrack>,
    /// The URI of PLAY, TEARDOWN and keepalives (RFC 2326, C.1.1).
    session: Bytes,
    /// The description that is announced, once it is known which tracks go on.
    announced: Bytes,
}

impl Offer {
    /// Returns what a description offers whose controls are relative to this base. Notes which tracks and sections are left out.
    pub(crate) fn of(
        alloc: Global,
        description: SourceDescription,
        base: &[u8],
        options: PullOptions,
        notes: &mut Notes,
    ) -> Result<Offer, DescriptionFault> {
        let control = description
            .control
            .as_ref()
            .map(|control| control.as_slice());
        let session = match control_uri(alloc, base, control) {
            Ok(session) => session,
            Err(fault) => return Err(DescriptionFault::SessionUri(fault)),
        };
        for section in description.left_out.as_slice() {
            notes.add(Note::SectionLeftOut(*section));
        }
        let Ok(tracks) = offered(alloc, &description, base, options, notes) else {
            return Err(DescriptionFault::SessionUri(ControlFault::OutOfMemory));
        };
        Ok(Offer {
            description,
            tracks,
            session,
            announced: Bytes::empty(alloc),
        })
    }

    /// Returns how many tracks are asked for, at most 16.
    pub(crate) fn len(&self) -> usize {
        self.tracks.len()
    }

    /// Returns the URI of the session.
    pub(crate) fn session(&self) -> &[u8] {
        self.session.as_slice()
    }

    /// Returns the URI of the track at this place among those that are asked for. Empty if there is none.
    pub(crate) fn track(&self, place: usize) -> &[u8] {
        match self.tracks.as_slice().get(place) {
            Some(track) => track.uri.as_slice(),
            None => b"",
        }
    }

    /// Returns what the track at this place among those that are asked for sends.
    pub(crate) fn media(&self, place: usize) -> Option<Media> {
        let track = self.tracks.as_slice().get(place)?;
        let track = self.description.tracks.as_slice().get(track.place)?;
        Some(track.media)
    }

    /// Returns the description that is announced.
    pub(crate) fn announced(&self) -> &[u8] {
        self.announced.as_slice()
    }

    /// Makes the description that is announced for the tracks that the client has set up.
    pub(crate) fn announce(&mut self, alloc: Global, client: &Client) -> Result<(), AnnounceError> {
        let mut kept = vec![in alloc; false; self.description.tracks.len()]?;
        for place in 0..client.kept() {
            if let Some(place) = self.kept_place(client, place) {
                if let Some(flag) = kept.get_mut(place) {
                    *flag = true;
                }
            }
        }
        self.announced = Bytes::new(self.description.announced(alloc, &kept)?);
        Ok(())
    }

    /// Returns which track of the description has this place among those that are set up.
    fn kept_place(&self, client: &Client, place: usize) -> Option<usize> {
        let asked = client.track_at(place)?;
        let track = self.tracks.as_slice().get(asked)?;
        Some(track.place)
    }
}

/// Returns the tracks of a description that are asked for.
fn offered(
    alloc: Global,
    description: &SourceDescription,
    base: &[u8],
    options: PullOptions,
    notes: &mut Notes,
) -> Result<Items<OfferedTrack>, AllocError> {
    let mut tracks = Items::empty(alloc);
    for (place, track) in description.tracks.as_slice().iter().enumerate() {
        if !is_wanted(track, options) {
            notes.add(Note::TrackNotWanted { track: place });
            continue;
        }
        let control = track.control.as_ref().map(|control| control.as_slice());
        match control_uri(alloc, base, control) {
            Ok(uri) => tracks.push(OfferedTrack { place, uri })?,
            Err(ControlFault::OutOfMemory) => return Err(AllocError),
            Err(fault) => notes.add(Note::TrackHasNoUri {
                track: place,
                fault,
            }),
        }
    }
    Ok(tracks)
}

/// Returns whether the operator asks for a track.
fn is_wanted(track: &SourceTrack, options: PullOptions) -> bool {
    match track.media {
        Media::Audio => options.takes_audio,
        Media::Video => options.takes_video,
    }
}
