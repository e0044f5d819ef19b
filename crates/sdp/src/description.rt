//! A description of a session.
ghost use Rattle.std.specs.Prelude.{◌≡◌, ◌<◌, ◌≤◌, length, IfOk};
ghost use Rattle.sdp.specs.Sections.{AreGood};
ghost use Rattle.sdp.specs.Written.{description_text};

use crate::sections::Sections;
use crate::track::Track;
use crate::writing::text_of;
use base_syntax::Bytes;
use std::alloc::{AllocError, Global};
use std::marker::Model;
use std::sync::Arc;

/// A description that was read: good lines, with a track or more among them (RFC 4566, 5).
pub struct Description {
    // Copies share it: a description may have thousands of lines.
    shared: Arc<Shared, Global>,
}

impl Drop for Description {
    fn drop(self) {
        let Description { shared: _ } = self;
    }
}

/// What the copies of a description share.
struct Shared {
    sections: Sections,
    // What players are given of them: made once, though each player asks for it.
    text: Bytes,
}

impl Model for Description {
    ghost use Rattle.std.specs.Prelude.{◌≡◌, ◌<◌, length};
    ghost use Rattle.std.specs.Arc.{arc_value};
    ghost use Rattle.sdp.specs.declared.sections.Sections.{Sections};

    ghost Value = { Sections };

    ghost use Rattle.sdp.specs.Sections.{AreGood};
    ghost use Rattle.sdp.specs.Written.{description_text};

    ghost view = { λ d. (arc_value d.shared).sections };

    ghost invariant = { λ d. AreGood (arc_value d.shared).sections × (0 < length (arc_value d.shared).sections.tracks) × ((arc_value d.shared).text ≡ description_text (arc_value d.shared).sections) };
}

impl Drop for Shared {
    fn drop(self) {
        let Shared {
            sections: _,
            text: _,
        } = self;
    }
}

impl Description {
    /// The description that has these sections.
    pub(crate) fn new(alloc: Global, sections: Sections) -> Result<Description, AllocError>
        requires good { AreGood sections }
        requires some { 0 < length sections.tracks }
        ensures { IfOk result (λ description. description ≡ sections) }
    {
        let text = Bytes::new(text_of(alloc, &sections)?);
        Ok(Description {
            shared: Arc::new(alloc, Shared { sections, text })?,
        })
    }

    /// The same description once more, or out of memory. No line is copied: both hold the same ones.
    pub fn copy(&self) -> Result<Description, AllocError>
        ensures { IfOk result (λ copied. copied ≡ self.now) }
    {
        Ok(Description {
            shared: self.shared.clone()?,
        })
    }

    /// The tracks, in the order in which they were announced: 1 to `MAX_TRACKS`.
    pub fn tracks(&self) -> &[Track]
        ensures all { result.now ≡ self.now.tracks }
        ensures some { 0 < length result.now }
        ensures most { length result.now ≤ 16 }
    {
        self.shared.sections.tracks.as_slice()
    }

    /// The lines in front of the first track, as they were announced.
    pub fn session(&self) -> &[Bytes]
        ensures { result.now ≡ self.now.session }
    {
        self.shared.sections.session.as_slice()
    }

    /// The text that players are given.
    pub(crate) fn text(&self) -> &[u8]
        ensures { result.now ≡ description_text self.now }
    {
        self.shared.text.as_slice()
    }
}
