//! What becomes of the frames that the source sends.
ghost use Rattle.std.specs.Prelude.{◌≡◌, ◌+◌, ◌-◌, ◌<◌, ◌^◌};
ghost use Rattle.rtsp_client.specs.Accounts.{no_frames, with_frame, with_sent};

use std::marker::Model;

/// What becomes of a frame as it comes.
#[derive(Clone, Copy, Debug, PartialEq, Eq, Drop)]
pub enum FrameFate {
    /// It waits for the target, to be sent on this channel there.
    Waits { channel: u8 },
    /// Its channel is no track's.
    UnknownChannel,
    /// The target doesn't record yet.
    BeforeRecording,
    /// The client stops or has ended, or the end of the stream cuts the frame: it isn't sent.
    Unsent,
}

/// What became of the frames that came from the source: each is counted once. A count stays at 2^64 - 1 once it is there.
#[derive(Drop)]
pub struct FrameAccount {
    came: u64,
    sent: u64,
    unknown_channel: u64,
    before_recording: u64,
    unsent: u64,
}

impl Model for FrameAccount {
    ghost use Rattle.rtsp_client.specs.Accounts.{Frames, AreCounted};

    ghost Value = { Frames };

    ghost view = { λ a. record {
      came = a.came;
      sent = a.sent;
      unknown_channel = a.unknown_channel;
      before_recording = a.before_recording;
      unsent = a.unsent;
    } };

    ghost invariant = { λ a. AreCounted a.came a.sent a.unknown_channel a.before_recording a.unsent };
}

impl FrameAccount {
    /// No frame came.
    pub fn new() -> FrameAccount
        ensures { result ≡ no_frames }
    {
        FrameAccount {
            came: 0,
            sent: 0,
            unknown_channel: 0,
            before_recording: 0,
            unsent: 0,
        }
    }

    /// Returns how many frames came, one that is cut by the end of the stream among them. They add up to the other counts.
    pub fn came(&self) -> u64
        ensures is { result ≡ self.now.came }
        ensures closes { result < 2 ^ 64 - 1 → self.now.sent + self.now.unknown_channel + self.now.before_recording + self.now.unsent ≡ result }
    {
        self.came
    }

    /// Returns how many the target's system took whole.
    pub fn sent(&self) -> u64
        ensures { result ≡ self.now.sent }
    {
        self.sent
    }

    /// Returns how many came on a channel that is no track's.
    pub fn unknown_channel(&self) -> u64
        ensures { result ≡ self.now.unknown_channel }
    {
        self.unknown_channel
    }

    /// Returns how many came before the target recorded.
    pub fn before_recording(&self) -> u64
        ensures { result ≡ self.now.before_recording }
    {
        self.before_recording
    }

    /// Returns how many wait for the target, or did at the end.
    pub fn unsent(&self) -> u64
        ensures { result ≡ self.now.unsent }
    {
        self.unsent
    }

    /// A frame comes.
    pub fn comes(&mut self, fate: FrameFate)
        ensures { self.new ≡ with_frame self.old fate }
    {
        self.came = self.came.saturating_add(1);
        match fate {
            FrameFate::Waits { .. } | FrameFate::Unsent => {
                self.unsent = self.unsent.saturating_add(1);
            }
            FrameFate::UnknownChannel => {
                self.unknown_channel = self.unknown_channel.saturating_add(1);
            }
            FrameFate::BeforeRecording => {
                self.before_recording = self.before_recording.saturating_add(1);
            }
        }
    }

    /// The target's system has taken so many of the frames that wait, at most all.
    pub fn sends(&mut self, count: u64)
        ensures { self.new ≡ with_sent self.old count }
    {
        let sent = count.min(self.unsent);
        self.sent = self.sent.saturating_add(sent);
        self.unsent -= sent;
    }
}
