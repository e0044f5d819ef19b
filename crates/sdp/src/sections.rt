//! The sections of a description while it is read.
ghost use Rattle.std.specs.Prelude.{◌≡◌, ◌<◌, ◌++◌, ◌∷◌, ◌⊎◌, [], true, false, length, filter, IfErr, OnOk};

use crate::MAX_TRACKS;
use crate::fault::SdpFault;
use crate::field::{is_field, is_media, names_unknown};
use crate::media::find_media;
use crate::track::{Track, extend_last};
use base_syntax::{Bytes, Items};
use std::alloc::{AllocError, Global};

/// The lines in front of the first `m=` line, and the tracks.
#[derive(Drop)]
pub struct Sections {
    pub session: Items<Bytes>,
    pub tracks: Items<Track>,
}

impl Sections {
    ghost use Rattle.base_syntax.specs.Lines.{has_bytes};
    ghost use Rattle.sdp.specs.Sections.{announced, AreGood};
    ghost use Rattle.sdp.specs.Fields.{version_line, is_field as is_good, is_media as opens_track};
    ghost use Rattle.sdp.specs.Faults.{IsFaultAfter};
    ghost use Rattle.sdp.specs.declared.fault.SdpFault.TheVariants.{OutOfMemory};

    pub(crate) fn new(alloc: Global) -> Sections
        ensures nothing { announced result ≡ [] }
        ensures good { AreGood result }
    {
        Sections {
            session: Items::empty(alloc),
            tracks: Items::empty(alloc),
        }
    }

    /// Whether no line has been read.
    pub(crate) fn is_empty(&self) -> bool
        requires { AreGood self.now }
        ensures yes { result ≡ true → announced self.now ≡ [] }
        ensures no { result ≡ false → 0 < length (announced self.now) }
    {
        self.session.as_slice().is_empty() && self.tracks.as_slice().is_empty()
    }

    /// Reads one more line. An empty one is skipped.
    pub(crate) fn add(&mut self, alloc: Global, line: &[u8]) -> Result<(), SdpFault>
        requires { AreGood self.old }
        ensures kept { OnOk result (announced self.new ≡ announced self.old ++ filter has_bytes (line.now ∷ [])) }
        ensures good { OnOk result (AreGood self.new) }
        ensures fault { IfErr result (λ fault. (fault ≡ OutOfMemory) ⊎ ((has_bytes line.now ≡ true) × IsFaultAfter self.old line.now fault)) }
    {
        if line.is_empty() {
            return Ok(());
        }
        self.add_field(alloc, line)
    }

    /// Reads one more line, which isn't empty.
    fn add_field(&mut self, alloc: Global, line: &[u8]) -> Result<(), SdpFault>
        requires { AreGood self.old }
        ensures kept { OnOk result (announced self.new ≡ announced self.old ++ line.now ∷ []) }
        ensures good { OnOk result (AreGood self.new) }
        ensures fault { IfErr result (λ fault. (fault ≡ OutOfMemory) ⊎ IsFaultAfter self.old line.now fault) }
    {
        if self.is_empty() {
            if line != b"v=0".as_slice() {
                return Err(SdpFault::NoVersion);
            }
            self.extend(alloc, line)?;
            return Ok(());
        }
        if names_unknown(line) {
            return Err(SdpFault::UnknownLetter);
        }
        if !is_field(line) {
            return Err(SdpFault::BadLine);
        }
        if is_media(line) {
            return self.open_track(alloc, line);
        }
        self.extend(alloc, line)?;
        Ok(())
    }

    /// Adds a line to the section that is open.
    fn extend(&mut self, alloc: Global, line: &[u8]) -> Result<(), AllocError>
        requires good { AreGood self.old }
        requires first { announced self.old ≡ [] → line.now ≡ version_line }
        requires field { is_good line.now ≡ true }
        requires plain { opens_track line.now ≡ false }
        ensures kept { OnOk result (announced self.new ≡ announced self.old ++ line.now ∷ []) }
        ensures good { OnOk result (AreGood self.new) }
    {
        if self.tracks.as_slice().is_empty() {
            self.session.push(Bytes::from_slice(alloc, line)?)
        } else {
            extend_last(&mut self.tracks, alloc, line)
        }
    }

    /// Opens a track. Nothing is copied before the line was judged and there is room for it.
    fn open_track(&mut self, alloc: Global, line: &[u8]) -> Result<(), SdpFault>
        requires good { AreGood self.old }
        requires later { 0 < length (announced self.old) }
        requires field { is_good line.now ≡ true }
        requires opens { opens_track line.now ≡ true }
        ensures kept { OnOk result (announced self.new ≡ announced self.old ++ line.now ∷ []) }
        ensures good { OnOk result (AreGood self.new) }
        ensures fault { IfErr result (λ fault. (fault ≡ OutOfMemory) ⊎ IsFaultAfter self.old line.now fault) }
    {
        let Some((media, formats)) = find_media(line) else {
            return Err(SdpFault::BadMedia);
        };
        let is_full = self.tracks.len() >= MAX_TRACKS;
        if is_full {
            return Err(SdpFault::TooManyTracks);
        }
        let track = Track::open(alloc, media, formats, line)?;
        self.tracks.push(track)?;
        Ok(())
    }
}
