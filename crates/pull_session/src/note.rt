//! What a program logs of a try beside its beginning and its end.

use crate::limits::MOST_NOTES;
use rtsp_client::Side;
use source_sdp::LeftOut;
use source_urls::ControlFault;
use std::alloc::Global;

/// Something that a program logs.
#[derive(Clone, Copy, Debug, PartialEq, Eq, Drop)]
pub enum Note {
    /// A media section of the source's description is no track that goes on.
    SectionLeftOut(LeftOut),
    /// The operator doesn't ask for tracks of this media: the track at this place among the tracks of the description.
    TrackNotWanted { track: usize },
    /// The control of the track at this place among the tracks of the description gives no URI.
    TrackHasNoUri { track: usize, fault: ControlFault },
    /// The source refused the track at this place among those that were asked for with this status.
    TrackRefused { track: usize, status: u16 },
    /// A reply was ignored: it is that of no request, or of an earlier one.
    ReplyIgnored { side: Side, status: u16 },
    /// The password is sent as it is (RFC 7617).
    SendsPassword,
    /// The target records, and PLAY is sent.
    Begins,
}

/// Notes that the program hasn't taken yet. A try has at most 64, and the one that it begins.
#[derive(Drop)]
pub struct Notes {
    list: Vec<Note>,
    /// How many were added.
    added: usize,
}

impl Notes {
    /// There are none.
    pub(crate) fn new(alloc: Global) -> Notes {
        Notes {
            list: Vec::new(alloc),
            added: 0,
        }
    }

    /// Adds a note. It is dropped if the try had 64, or if there is no memory.
    pub(crate) fn add(&mut self, note: Note) {
        if self.added < MOST_NOTES {
            self.added += 1;
            let _ = self.list.push(note);
        }
    }

    /// Adds the note that frames begin to come, however many others there were.
    pub(crate) fn begin(&mut self) {
        let _ = self.list.push(Note::Begins);
    }

    /// Returns the notes, in order.
    pub fn as_slice(&self) -> &[Note] {
        self.list.as_slice()
    }

    /// Drops the notes: the program has logged them.
    pub(crate) fn clear(&mut self) {
        self.list.clear();
    }
}
