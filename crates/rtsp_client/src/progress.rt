//! The order in which a client asks (RFC 2326, A.1).
ghost use Rattle.std.specs.Prelude.{◌≡◌, ◌⊎◌, ◌<◌, ◌≤◌, OnErr, OnOk};
ghost use Rattle.rtsp_client.specs.declared.step.Step.TheVariants.{Announce, Describe};
ghost use Rattle.rtsp_client.specs.Steps.{IsSetUp, described_from, done_from, is_recording, left_out_from, place_in, start, track_in};

use crate::step::Step;
use std::marker::Model;

/// Why no track goes on.
#[derive(Clone, Copy, Debug, PartialEq, Eq, Drop)]
pub enum TracksFault {
    /// The source has refused each.
    AllRefused,
}

/// How far a client has come, of how many tracks the source has a description that can be used, and how many of them are set up.
///
/// OPTIONS, DESCRIBE and SETUP of each track go to the source; ANNOUNCE, SETUP of each track that is set up and RECORD to the target; and
/// only then PLAY to the source: frames may come before its reply, and a mount that is refused starts no camera.
#[derive(Drop)]
pub struct Progress {
    step: Step,
    tracks: usize,
    kept: usize,
}

impl Model for Progress {
    ghost use Rattle.rtsp_client.specs.Steps.{Place, IsPlace};

    ghost Value = { Place };

    ghost view = { λ p. record { step = p.step; tracks = p.tracks; kept = p.kept } };

    ghost invariant = { λ p. IsPlace p.step p.tracks p.kept };
}

impl Progress {
    /// Nothing was asked for yet.
    pub fn new() -> Progress
        ensures { result ≡ start }
    {
        Progress {
            step: Step::Options,
            tracks: 0,
            kept: 0,
        }
    }

    /// Returns what is asked for.
    pub fn step(&self) -> Step
        ensures { result ≡ self.now.step }
    {
        self.step
    }

    /// Returns how many tracks the source has set up so far, at most 16.
    pub fn kept(&self) -> usize
        ensures is { result ≡ self.now.kept }
        ensures most { result ≤ 16 }
    {
        self.kept
    }

    /// Returns the track that is set up: at the source its place among those that can be used, at the target among those that are set up.
    /// 0 if none is.
    pub fn track(&self) -> usize
        ensures is { result ≡ track_in self.now.step }
        ensures below { result < 16 }
    {
        match self.step {
            Step::SetUp { track } | Step::SetUpTarget { track } => track,
            _ => 0,
        }
    }

    /// Returns the place that the track has, or will have, among those that are set up. 0 if none is being set up.
    pub fn place(&self) -> usize
        ensures is { result ≡ place_in self.now }
        ensures below { result < 16 }
    {
        match self.step {
            Step::SetUp { .. } => self.kept,
            Step::SetUpTarget { track } => track,
            _ => 0,
        }
    }

    /// Returns whether the target records.
    pub fn is_recording(&self) -> bool
        ensures { result ≡ is_recording self.now.step }
    {
        matches!(self.step, Step::Play | Step::Passing)
    }

    /// The description has so many tracks that can be used.
    pub fn described(&mut self, tracks: usize)
        requires step { self.old.step ≡ Describe }
        requires some { 0 < tracks }
        requires most { tracks ≤ 16 }
        ensures { self.new ≡ described_from tracks self.old }
    {
        self.tracks = tracks;
        self.step = Step::SetUp { track: 0 };
    }

    /// What was asked for is done. It wasn't the description.
    pub fn done(&mut self)
        requires { self.old.step ≡ Describe → ⊥ }
        ensures { self.new ≡ done_from self.old }
    {
        match self.step {
            Step::Options => self.step = Step::Describe,
            Step::Describe => {}
            Step::SetUp { track } => {
                self.kept += 1;
                self.step = if track + 1 < self.tracks {
                    Step::SetUp { track: track + 1 }
                } else {
                    Step::Announce
                };
            }
            Step::Announce => self.step = Step::SetUpTarget { track: 0 },
            Step::SetUpTarget { track } => {
                self.step = if track + 1 < self.kept {
                    Step::SetUpTarget { track: track + 1 }
                } else {
                    Step::Record
                };
            }
            Step::Record => self.step = Step::Play,
            Step::Play | Step::Passing => self.step = Step::Passing,
        }
    }

    /// The track that was asked for is left out. The only error is that it was the last one and none is set up: nothing changes then.
    pub fn left_out(&mut self) -> Result<(), TracksFault>
        requires { IsSetUp self.old.step }
        ensures ok { OnOk result (self.new ≡ left_out_from self.old) }
        ensures err { OnErr result (self.new ≡ self.old) }
        ensures none_kept { OnErr result (self.old.kept ≡ 0) }
        ensures last { OnErr result ((left_out_from self.old).step ≡ Announce) }
        ensures kept { OnOk result ((0 < self.new.kept) ⊎ IsSetUp self.new.step) }
    {
        let Step::SetUp { track } = self.step else {
            return Ok(());
        };
        if track + 1 < self.tracks {
            self.step = Step::SetUp { track: track + 1 };
            return Ok(());
        }
        if self.kept == 0 {
            return Err(TracksFault::AllRefused);
        }
        self.step = Step::Announce;
        Ok(())
    }
}
