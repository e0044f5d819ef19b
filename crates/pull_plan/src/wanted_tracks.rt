//! The tracks that are asked for.
ghost use Rattle.std.specs.Prelude.{◌≡◌};
ghost use Rattle.pull_plan.specs.Wanted.{wanted_in};

/// Which tracks of a source go on: those of at least one kind.
#[derive(Clone, Copy, Debug, PartialEq, Eq, Drop)]
pub struct WantedTracks {
    pub video: bool,
    pub audio: bool,
}

/// Returns the tracks that a text asks for: `video`, `audio`, or both with a comma between them. `None` for another text.
pub fn read_tracks(text: &str) -> Option<WantedTracks>
    ensures { result ≡ wanted_in text.now }
{
    match text {
        "video" => Some(WantedTracks {
            video: true,
            audio: false,
        }),
        "audio" => Some(WantedTracks {
            video: false,
            audio: true,
        }),
        "video,audio" | "audio,video" => Some(WantedTracks {
            video: true,
            audio: true,
        }),
        _ => None,
    }
}
