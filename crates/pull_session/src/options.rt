//! What an operator asks of a pull.

/// What an operator asks of a pull.
#[derive(Clone, Copy, Debug, PartialEq, Eq, Drop)]
pub struct PullOptions {
    /// Whether audio tracks are fetched.
    pub takes_audio: bool,
    /// Whether video tracks are fetched.
    pub takes_video: bool,
    /// After how many milliseconds without a frame on a track's channel the try ends.
    pub silent: u64,
}
