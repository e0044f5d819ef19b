//! Cases of the table of mounts, and of what URIs name.

use crate::uri_cases::call_uris;
use case_texts::{Arguments, Fault, Told, meaning};
use mounts::{
    MAX_SEATS, Mount, Mounts, Target, Uri, UriFault, ends_in_track, is_name, read_uri, rest_after,
};
use sdp::{Description, SdpFault};
use std::alloc::{AllocError, Global};
use std::collections::hash_map::RandomState;

/// The description that mounts have where none is told.
const ONE_TRACK: &[u8] = b"v=0\r\nm=video 0 RTP/AVP 96\r\n";

/// What a word of a case of mounts asks for.
#[derive(Clone, Copy, Drop)]
enum MountWord {
    Seats,
    Announce,
    EndMount,
    Take,
    Back,
    BackAll,
    Find,
    Owned,
    Numbered,
    SeatsOf,
    Live,
    Room,
    Track,
}

/// The words of a case of mounts, but those over URIs.
const WORDS: [(&str, MountWord); 13] = [
    ("seats", MountWord::Seats),
    ("announce", MountWord::Announce),
    ("end-mount", MountWord::EndMount),
    ("take", MountWord::Take),
    ("back", MountWord::Back),
    ("back-all", MountWord::BackAll),
    ("find", MountWord::Find),
    ("owned", MountWord::Owned),
    ("numbered", MountWord::Numbered),
    ("seats-of", MountWord::SeatsOf),
    ("live", MountWord::Live),
    ("room", MountWord::Room),
    ("track", MountWord::Track),
];

/// A table of mounts.
pub struct MountCase {
    alloc: Global,
    hasher: RandomState,
    mounts: Mounts,
    /// What the next mounts are announced with.
    description: Vec<u8>,
}

impl Drop for MountCase {
    fn drop(self) {
        let MountCase {
            alloc: _,
            hasher: _,
            mounts: _,
            description: _,
        } = self;
    }
}

impl MountCase {
    /// No mount. Each that is announced has two seats.
    pub fn new(alloc: Global, hasher: RandomState) -> Result<MountCase, AllocError> {
        Ok(MountCase {
            alloc,
            hasher,
            mounts: Mounts::new(alloc, 2, hasher),
            description: Vec::from_slice(alloc, ONE_TRACK)?,
        })
    }

    /// Takes the description of the next mounts.
    pub fn describe(&mut self, bytes: &[u8]) -> Result<(), AllocError> {
        self.description = Vec::from_slice(self.alloc, bytes)?;
        Ok(())
    }

    pub fn call(
        &mut self,
        word: &[u8],
        arguments: &mut Arguments<'_>,
        told: &mut Told,
    ) -> Result<(), Fault> {
        match meaning(&WORDS, word) {
            Some(word) => self.call_mounts(word, arguments, told),
            None => call_uris(word, arguments, told),
        }
    }

    /// Calls what a word names, of the table or of a mount.
    fn call_mounts(
        &mut self,
        word: MountWord,
        arguments: &mut Arguments<'_>,
        told: &mut Told,
    ) -> Result<(), Fault> {
        match word {
            MountWord::Seats => {
                let seats = arguments.number_to(1024)? as usize;
                self.mounts = Mounts::new(self.alloc, seats, self.hasher);
                Ok(())
            }
            MountWord::Announce => self.call_announce(arguments, told),
            MountWord::EndMount => {
                self.mounts.end(u64::from(arguments.number()?));
                Ok(())
            }
            MountWord::Take => {
                let number = u64::from(arguments.number()?);
                let times = arguments.number_or(1)?;
                Ok(self.take_seats(number, times, told)?)
            }
            MountWord::Back => {
                let number = u64::from(arguments.number()?);
                let seat = arguments.number()? as usize;
                Ok(told.truth(self.mounts.give_back(number, seat))?)
            }
            MountWord::BackAll => {
                let number = u64::from(arguments.number()?);
                Ok(self.give_all_back(number, told)?)
            }
            _ => self.look_up(word, arguments, told),
        }
    }

    /// `announce OWNER NAME`.
    fn call_announce(
        &mut self,
        arguments: &mut Arguments<'_>,
        told: &mut Told,
    ) -> Result<(), Fault> {
        let owner = u64::from(arguments.number()?);
        let name = arguments.text(self.alloc)?;
        self.announce(owner, &name, told)
    }

    /// Looks something up, which changes nothing.
    fn look_up(
        &self,
        word: MountWord,
        arguments: &mut Arguments<'_>,
        told: &mut Told,
    ) -> Result<(), Fault> {
        match word {
            MountWord::Find => Ok(self.find(&arguments.text(self.alloc)?, told)?),
            MountWord::Live => Ok(self.tell_live(told)?),
            MountWord::Room => Ok(told.truth(self.mounts.has_room())?),
            MountWord::Track => self.call_track(arguments, told),
            _ => {
                let number = u64::from(arguments.number()?);
                Ok(self.tell_numbered(word, number, told)?)
            }
        }
    }

    /// Tells what a word asks of the mount of an owner, or of a mount with this number.
    fn tell_numbered(
        &self,
        word: MountWord,
        number: u64,
        told: &mut Told,
    ) -> Result<(), AllocError> {
        if let MountWord::Owned = word {
            let mount = self.mounts.owned_by(number);
            return told.number(mount.map(|mount| mount.number));
        }
        match (word, self.mounts.numbered(number)) {
            (MountWord::SeatsOf, Some(mount)) => tell_seats(mount, told),
            (_, Some(mount)) => told.fact(mount.name.as_slice()),
            (_, None) => told.fact(b"none"),
        }
    }

    /// `track NUMBER URI`.
    fn call_track(&self, arguments: &mut Arguments<'_>, told: &mut Told) -> Result<(), Fault> {
        let number = u64::from(arguments.number()?);
        let text = arguments.text(self.alloc)?;
        match self.mounts.numbered(number) {
            Some(mount) => tell_track(mount, &text, told),
            None => Ok(told.fact(b"none")?),
        }
    }

    /// Announces a mount, where that may be done, and tells its number.
    fn announce(&mut self, owner: u64, name: &[u8], told: &mut Told) -> Result<(), Fault> {
        let number = match sdp::read(self.alloc, &self.description) {
            Ok(description) => self.announced(owner, name, description)?,
            Err(SdpFault::OutOfMemory) => return Err(Fault::OutOfMemory),
            Err(_) => None,
        };
        match number {
            Some(number) => Ok(told.number(Some(number))?),
            None => Ok(told.fact(b"refused")?),
        }
    }

    /// The number of a mount that is announced. `None` where that may not be done.
    fn announced(
        &mut self,
        owner: u64,
        name: &[u8],
        description: Description,
    ) -> Result<Option<u64>, AllocError> {
        if self.mounts.has_room()
            && is_name(name)
            && !ends_in_track(name)
            && self.mounts.named(name).is_none()
            && self.mounts.owned_by(owner).is_none()
        {
            Ok(Some(self.mounts.announce(owner, name, description)?))
        } else {
            Ok(None)
        }
    }

    /// Takes so many seats of a mount, and tells how many there were.
    fn take_seats(&mut self, number: u64, times: u32, told: &mut Told) -> Result<(), AllocError> {
        let mut taken: u64 = 0;
        for _ in 0..times {
            if self.mounts.take_seat(number).is_some() {
                taken = taken.saturating_add(1);
            }
        }
        told.number(Some(taken))
    }

    /// Gives each seat of a mount back, and tells how many were out.
    fn give_all_back(&mut self, number: u64, told: &mut Told) -> Result<(), AllocError> {
        let mut given: u64 = 0;
        for seat in 0..MAX_SEATS {
            if self.mounts.give_back(number, seat) {
                given = given.saturating_add(1);
            }
        }
        told.number(Some(given))
    }

    /// Tells the mount that a path names, and the rest of the path.
    fn find(&self, path: &[u8], told: &mut Told) -> Result<(), AllocError> {
        match self.mounts.find(path) {
            None => told.fact(b"none"),
            Some((number, None)) => told.number(Some(number)),
            Some((number, Some(rest))) => {
                let head = format!(in self.alloc; "{number} rest")?;
                told.named(head.as_bytes(), rest)
            }
        }
    }

    fn tell_live(&self, told: &mut Told) -> Result<(), AllocError> {
        for mount in self.mounts.live() {
            let number = mount.number;
            let head = format!(in self.alloc; "{number}")?;
            told.named(head.as_bytes(), mount.name.as_slice())?;
        }
        Ok(())
    }
}

/// Tells how many seats a mount has, how many are out, and whether one is free.
fn tell_seats(mount: &Mount, told: &mut Told) -> Result<(), AllocError> {
    let seats = &mount.seats;
    let mut out: u64 = 0;
    for seat in 0..seats.len() {
        if seats.is_out(seat) {
            out = out.saturating_add(1);
        }
    }
    let free = if seats.has_free() { "free" } else { "full" };
    let count = seats.len();
    told.fact(format!(in told.alloc(); "{count} {out} {free}")?.as_bytes())
}

/// Tells which track a mount's owner and a player name by a URI.
fn tell_track(mount: &Mount, text: &[u8], told: &mut Told) -> Result<(), Fault> {
    match read_uri(told.alloc(), text) {
        Ok(Uri::At(target)) => Ok(tell_track_at(mount, &target, told)?),
        Ok(Uri::Star) | Err(UriFault::BadUri) => Ok(told.fact(b"no rest")?),
        Err(UriFault::OutOfMemory) => Err(Fault::OutOfMemory),
    }
}

/// Tells which track a mount's owner and a player name by what a URI is at.
fn tell_track_at(mount: &Mount, target: &Target, told: &mut Told) -> Result<(), AllocError> {
    let alloc = told.alloc();
    let Some(Some(rest)) = rest_after(target.path.as_slice(), mount.name.as_slice()) else {
        return told.fact(b"no rest");
    };
    let by_owner = mount.track(alloc, mount.owner, target, rest)?;
    let by_player = mount.track_for_player(rest);
    let by_owner = track_text(alloc, by_owner)?;
    let by_player = track_text(alloc, by_player)?;
    told.fact(format!(in alloc; "owner {by_owner} player {by_player}")?.as_bytes())
}

fn track_text(alloc: Global, track: Option<usize>) -> Result<String, AllocError> {
    match track {
        Some(track) => format!(in alloc; "{track}"),
        None => String::from_str(alloc, "none"),
    }
}
