//! The tracks that go on.
ghost use Rattle.std.specs.Prelude.{◌≡◌};
ghost use Rattle.transport_header.specs.Tracks.{pair_at};

use crate::session::PullSession;
use source_sdp::Media;
use transport_header::ChannelPair;

impl PullSession {
    /// Returns what the track at this place among those that go on sends. `None` if there is none.
    pub fn media(&self, place: usize) -> Option<Media> {
        let asked = self.client.track_at(place)?;
        self.offer.as_ref()?.media(asked)
    }

    /// Returns the channels of the source's connection that the track at this place among those that go on has. `None` if there is none.
    pub fn channels(&self, place: usize) -> Option<ChannelPair>
        ensures { result ≡ pair_at self.now.client.passage.map.source place }
    {
        self.client.channels(place)
    }
}
