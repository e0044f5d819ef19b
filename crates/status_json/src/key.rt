//! What is before a value: the name of its member, with the brace or the comma before it.
ghost use Rattle.std.specs.Prelude.{◌≡◌};
ghost use Rattle.status_json.specs.Keys.{key_text, packet_text, serving_text, track_text};

/// What is before a value. A member that is the first of its object has a name of its own if the same is elsewhere a later one.
#[derive(Clone, Copy, Debug, PartialEq, Eq, Drop)]
pub(crate) enum Key {
    /// The number of packets with a result.
    Packet(PacketKey),
    /// A member of a track.
    OfTrack(TrackKey),
    /// A member of the server's own figures.
    OfServer(ServingKey),
    Name,
    Live,
    Players,
    FirstPackets,
    Packets,
    BytesIn,
    SlowedMs,
    Tracks,
    PlayerPackets,
    BytesOut,
    BehindMax,
    Publisher,
    AgeMs,
    SilenceMs,
    Mount,
    Seat,
    Peer,
    Bytes,
    Behind,
    Waiting,
    Mounts,
    Recorded,
    Totals,
    Server,
    /// A value of a list, but the first.
    Item,
    /// The first value of a list.
    FirstItem,
    /// The first member of an object whose members are a list.
    FirstMember,
    /// A text.
    Quote,
    /// The value of a member whose name is a number.
    NumberEnd,
}

/// What is before the number of packets with a result.
#[derive(Clone, Copy, Debug, PartialEq, Eq, Drop)]
pub(crate) enum PacketKey {
    Published,
    Pinned,
    TooLong,
    BadRtp,
    UnknownChannel,
    NoMemory,
    FirstSent,
    Sent,
    Skipped,
    Lost,
    Unsent,
}

/// What is before a member of a track.
#[derive(Clone, Copy, Debug, PartialEq, Eq, Drop)]
pub(crate) enum TrackKey {
    Track,
    Missing,
    Late,
    Restarts,
    Media,
    Format,
}

/// What is before a member of the server's own figures.
#[derive(Clone, Copy, Debug, PartialEq, Eq, Drop)]
pub(crate) enum ServingKey {
    Connections,
    Sessions,
    PublisherReady,
    PublisherRecording,
    PlayerReady,
    PlayerPlaying,
    RefusedConnections,
    Full,
    AddressFull,
    OutOfMemory,
    NoThread,
    NotAccepted,
    RefusedRequests,
    LinesDropped,
}

impl Key {
    /// Returns its text.
    #[tactic(auto, unfolding(crate::specs::Keys::key_text))]
    pub(crate) fn text(self) -> &'static [u8]
        ensures { result.now ≡ key_text self }
    {
        match self {
            Key::Packet(key) => key.text(),
            Key::OfTrack(key) => key.text(),
            Key::OfServer(key) => key.text(),
            Key::Name => b"{\"name\":",
            Key::Live => b",\"live\":",
            Key::Players => b",\"players\":",
            Key::FirstPackets => b"{\"packets\":",
            Key::Packets => b",\"packets\":",
            Key::BytesIn => b",\"bytes_in\":",
            Key::SlowedMs => b",\"slowed_ms\":",
            Key::Tracks => b",\"tracks\":",
            Key::PlayerPackets => b",\"player_packets\":",
            Key::BytesOut => b",\"bytes_out\":",
            Key::BehindMax => b",\"behind_max\":",
            Key::Publisher => b",\"publisher\":",
            Key::AgeMs => b",\"age_ms\":",
            Key::SilenceMs => b",\"silence_ms\":",
            Key::Mount => b"{\"mount\":",
            Key::Seat => b",\"seat\":",
            Key::Peer => b",\"peer\":",
            Key::Bytes => b",\"bytes\":",
            Key::Behind => b",\"behind\":",
            Key::Waiting => b",\"waiting\":",
            Key::Mounts => b"{\"mounts\":",
            Key::Recorded => b",\"recorded\":",
            Key::Totals => b",\"totals\":",
            Key::Server => b",\"server\":",
            Key::Item => b",",
            Key::FirstItem => b"[",
            Key::FirstMember => b"{",
            Key::Quote => b"\"",
            Key::NumberEnd => b"\":",
        }
    }
}

impl PacketKey {
    #[tactic(auto, unfolding(crate::specs::Keys::packet_text))]
    fn text(self) -> &'static [u8]
        ensures { result.now ≡ packet_text self }
    {
        match self {
            PacketKey::Published => b"{\"published\":",
            PacketKey::Pinned => b",\"pinned\":",
            PacketKey::TooLong => b",\"too_long\":",
            PacketKey::BadRtp => b",\"bad_rtp\":",
            PacketKey::UnknownChannel => b",\"unknown_channel\":",
            PacketKey::NoMemory => b",\"no_memory\":",
            PacketKey::FirstSent => b"{\"sent\":",
            PacketKey::Sent => b",\"sent\":",
            PacketKey::Skipped => b",\"skipped\":",
            PacketKey::Lost => b",\"lost\":",
            PacketKey::Unsent => b",\"unsent\":",
        }
    }
}

impl TrackKey {
    #[tactic(auto, unfolding(crate::specs::Keys::track_text))]
    fn text(self) -> &'static [u8]
        ensures { result.now ≡ track_text self }
    {
        match self {
            TrackKey::Track => b"{\"track\":",
            TrackKey::Missing => b",\"missing\":",
            TrackKey::Late => b",\"late\":",
            TrackKey::Restarts => b",\"restarts\":",
            TrackKey::Media => b"{\"media\":",
            TrackKey::Format => b",\"format\":",
        }
    }
}

impl ServingKey {
    #[tactic(auto, unfolding(crate::specs::Keys::serving_text))]
    fn text(self) -> &'static [u8]
        ensures { result.now ≡ serving_text self }
    {
        match self {
            ServingKey::Connections => b"{\"connections\":",
            ServingKey::Sessions => b",\"sessions\":",
            ServingKey::PublisherReady => b"{\"publisher_ready\":",
            ServingKey::PublisherRecording => b",\"publisher_recording\":",
            ServingKey::PlayerReady => b",\"player_ready\":",
            ServingKey::PlayerPlaying => b",\"player_playing\":",
            ServingKey::RefusedConnections => b",\"refused_connections\":",
            ServingKey::Full => b"{\"full\":",
            ServingKey::AddressFull => b",\"address_full\":",
            ServingKey::OutOfMemory => b",\"out_of_memory\":",
            ServingKey::NoThread => b",\"no_thread\":",
            ServingKey::NotAccepted => b",\"not_accepted\":",
            ServingKey::RefusedRequests => b",\"refused_requests\":",
            ServingKey::LinesDropped => b",\"lines_dropped\":",
        }
    }
}
