//! What became of the frames of a try, as log lines have it.
ghost use Rattle.std.specs.Prelude.{◌≡◌};
ghost use Rattle.pull_plan.specs.Figures.{figures_of, figures_since, nothing_came};

use rtsp_client::FrameAccount;
use sequence_counts::TrackCounts;
use std::fmt;

/// What became of the frames that came from the source, and what their sequence numbers show: the numbers of a log line.
#[derive(Clone, Copy, Debug, PartialEq, Eq, Drop)]
pub struct Figures {
    /// How many frames this machine's system took for the target.
    pub sent: u64,
    /// How many came on a channel that is no track's.
    pub unknown_channel: u64,
    /// How many came before the target recorded.
    pub before_recording: u64,
    /// How many wait for the target, or did at the end.
    pub unsent: u64,
    /// How many sequence numbers of packets were passed over.
    pub missing: u64,
    /// How many packets came after one with a higher number.
    pub late: u64,
    /// How often the numbering began anew.
    pub restarts: u64,
}

impl Figures {
    /// Nothing came.
    pub fn nothing() -> Figures
        ensures { result ≡ nothing_came }
    {
        Figures {
            sent: 0,
            unknown_channel: 0,
            before_recording: 0,
            unsent: 0,
            missing: 0,
            late: 0,
            restarts: 0,
        }
    }

    /// Returns the figures of a try.
    pub fn of(account: &FrameAccount, counts: &TrackCounts) -> Figures
        ensures { result ≡ figures_of account.now counts.now }
    {
        let total = counts.total();
        Figures {
            sent: account.sent(),
            unknown_channel: account.unknown_channel(),
            before_recording: account.before_recording(),
            unsent: account.unsent(),
            missing: total.missing(),
            late: total.late(),
            restarts: total.restarts(),
        }
    }

    /// Returns what came since earlier figures of the same try, and how many frames wait now.
    pub fn since(&self, earlier: &Figures) -> Figures
        ensures { result ≡ figures_since self.now earlier.now }
    {
        Figures {
            sent: self.sent.saturating_sub(earlier.sent),
            unknown_channel: self.unknown_channel.saturating_sub(earlier.unknown_channel),
            before_recording: self
                .before_recording
                .saturating_sub(earlier.before_recording),
            unsent: self.unsent,
            missing: self.missing.saturating_sub(earlier.missing),
            late: self.late.saturating_sub(earlier.late),
            restarts: self.restarts.saturating_sub(earlier.restarts),
        }
    }
}

impl fmt::Display for Figures {
    ghost use Rattle.std.specs.Prelude.{Some};
    ghost use Rattle.pull_plan.specs.Figures.{figures_text};

    ghost output = { λ figures. Some (figures_text figures) };

    fn fmt<W: fmt::Write>(&self, f: &mut fmt::Formatter<W>) -> fmt::Result {
        write!(
            f,
            "sent {}, unknown channel {}, before recording {}, unsent {}, missing {}, late {}, restarts {}",
            self.sent,
            self.unknown_channel,
            self.before_recording,
            self.unsent,
            self.missing,
            self.late,
            self.restarts
        )
    }
}
