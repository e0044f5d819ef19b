//! The figures of a mount.
ghost use Rattle.std.specs.Prelude.{◌≡◌};
ghost use Rattle.status.specs.Names.{goes_on_as};
ghost use Rattle.status.specs.Silences.{silent_for};

use base_syntax::Bytes;
use relay_accounts::MountTally;
use std::fmt;
use std::net::SocketAddr;

/// A track of a mount's description as it is shown, each text with at most 64 bytes of it. They are any bytes that the publisher chose.
#[derive(Drop)]
pub struct TrackStatus {
    /// What is sent, as `audio` or `video` (RFC 4566, 5.14).
    pub media: Bytes,
    /// The first payload format.
    pub format: Bytes,
}

/// A mount that is recorded, and its figures.
#[derive(Drop)]
pub struct MountStatus {
    pub name: Bytes,
    /// The address of its publisher.
    pub publisher: SocketAddr,
    /// The tracks of its description, in their order.
    pub tracks: Vec<TrackStatus>,
    /// How many players have a seat.
    pub players: usize,
    /// What became of the frames that came since it was announced.
    pub tally: MountTally,
    /// How many milliseconds ago its last packet came, or its first RECORD if no packet came.
    pub silence: u64,
    /// How many milliseconds ago its first RECORD was.
    pub age: u64,
    /// Whether it has ended since its last line.
    pub has_ended: bool,
}

impl MountStatus {
    /// Returns whether it is recorded under this name.
    pub fn goes_on_as(&self, name: &[u8]) -> bool
        ensures { result ≡ goes_on_as name.now self.now }
    {
        !self.has_ended && self.name.as_slice() == name
    }
}

/// The line that reports what came to a mount since its last report.
#[derive(Drop)]
pub struct MountLine<'a> {
    pub status: &'a MountStatus,
    pub since: MountTally,
}

/// Returns for how many whole seconds a mount is reported as silent. `None` up to two seconds.
pub fn silent_seconds(milliseconds: u64) -> Option<u64>
    ensures { result ≡ silent_for milliseconds }
{
    let seconds = milliseconds / 1_000;
    if seconds > 2 { Some(seconds) } else { None }
}

impl fmt::Display for MountLine<'_> {
    fn fmt<W: fmt::Write>(&self, f: &mut fmt::Formatter<W>) -> fmt::Result {
        write!(
            f,
            "mount {}: publisher {}, players {}, {}",
            self.status.name.as_slice().escape_ascii(),
            self.status.publisher,
            self.status.players,
            self.since
        )?;
        match silent_seconds(self.status.silence) {
            Some(seconds) => write!(f, ", silent {seconds} s"),
            None => Ok(()),
        }
    }
}
