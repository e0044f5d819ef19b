//! When the frames of a try went on.
ghost use Rattle.std.specs.Prelude.{◌≡◌, None};
ghost use Rattle.pull_plan.specs.Times.{seen_at, lasted};

/// When frames of a try went on, in milliseconds of one clock.
#[derive(Clone, Copy, Debug, PartialEq, Eq, Drop)]
pub struct FrameTimes {
    /// How many went on.
    pub sent: u64,
    /// When the first and the last one were seen to have gone on. `None` if none has.
    pub span: Option<(u64, u64)>,
}

impl FrameTimes {
    /// No frame went on.
    pub fn new() -> FrameTimes
        ensures sent { result.sent ≡ 0 }
        ensures span { result.span ≡ None }
    {
        FrameTimes {
            sent: 0,
            span: None,
        }
    }

    /// At this moment this number of frames has gone on.
    pub fn see(&mut self, sent: u64, now: u64)
        ensures { self.new ≡ seen_at self.old sent now }
    {
        if sent > self.sent {
            let first = match self.span {
                Some((first, _)) => first,
                None => now,
            };
            self.sent = sent;
            self.span = Some((first, now));
        }
    }

    /// Returns for how many milliseconds frames went on.
    pub fn lasted(&self) -> u64
        ensures { result ≡ lasted self.now }
    {
        match self.span {
            Some((first, last)) => last.saturating_sub(first),
            None => 0,
        }
    }
}
