//! What a command line of `relay pull` asks for.
use crate::wanted_tracks::WantedTracks;

/// What a command line of `relay pull` asks for. The URLs are as they were written, and aren't read yet.
#[derive(Debug, Drop)]
pub struct PullSettings {
    /// The URL of the stream that is fetched.
    pub source: String,
    /// The URL under which it is published.
    pub target: String,
    /// The file that has the password of the user in the source's URL.
    pub password_file: Option<String>,
    /// Which tracks go on.
    pub tracks: WantedTracks,
    /// After how many milliseconds without a frame a try ends.
    pub silent: u64,
    /// The first delay between two tries, in milliseconds.
    pub retry: u64,
    /// Whether there is one try alone.
    pub once: bool,
    /// Whether the program ends when standard input does.
    pub until_eof: bool,
    /// Whether replies that are ignored are logged, too.
    pub is_verbose: bool,
    /// How many milliseconds are between two reports; `None` for no reports.
    pub report: Option<u64>,
}
