//! The sums of a name.
ghost use Rattle.std.specs.Prelude.{◌≡◌};
ghost use Rattle.mount_series.specs.Series.{begun, ended, is_of, left, one_more};

use crate::sums::MountSums;
use base_syntax::Bytes;
use relay_accounts::{MountTally, SeatAccount};

/// The sums of the mounts of one name.
#[derive(Drop)]
pub struct NamedSums {
    pub name: Bytes,
    /// How many of its mounts are recorded: one, or for a moment two, if a name is announced again before the mount that had it is
    /// told to have ended.
    pub recorded: u64,
    /// How many mounts of the server had ended when its last one did.
    pub ended: u64,
    /// When the last packet came to its mounts that have ended, in milliseconds of the server's clock; of one to which none came, its
    /// first RECORD.
    pub last: u64,
    /// What came to its mounts that have ended, and what became of the packets of players that have left them.
    pub sums: MountSums,
}

impl NamedSums {
    /// Returns whether these are the sums of a name.
    pub(crate) fn is_of(&self, name: &[u8]) -> bool
        ensures { result ≡ is_of name.now self.now }
    {
        self.name.as_slice() == name
    }

    /// The sums of a name of which one mount is recorded, and nothing has ended yet.
    pub(crate) fn begun(name: Bytes) -> NamedSums
        ensures { result ≡ begun name }
    {
        NamedSums {
            name,
            recorded: 1,
            ended: 0,
            last: 0,
            sums: MountSums::nothing(),
        }
    }

    /// One more mount of the name is recorded.
    pub(crate) fn begin(&mut self)
        ensures { self.new ≡ one_more self.old }
    {
        self.recorded = self.recorded.saturating_add(1);
    }

    /// A mount of the name has ended, to which this came. `ends` mounts of the server had ended before it, and its last packet came
    /// at the moment `last`.
    pub(crate) fn end(&mut self, came: &MountTally, ends: u64, last: u64)
        ensures { self.new ≡ ended came.now ends last self.old }
    {
        self.recorded = self.recorded.saturating_sub(1);
        self.ended = ends;
        self.last = last;
        self.sums = self.sums.with_mount(came);
    }

    /// A player of a mount of the name has left, with this account.
    pub(crate) fn leave(&mut self, account: SeatAccount)
        ensures { self.new ≡ left account self.old }
    {
        self.sums = self.sums.with_player(account);
    }
}
