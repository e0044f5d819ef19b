//! The delivery that one spec of a Transport header asks for (RFC 2326, 12.39).

/// What a spec's first part names.
#[derive(Clone, Copy, Debug, PartialEq, Eq, Drop)]
pub enum Protocol {
    /// `RTP/AVP/TCP`: frames on the connection of the requests.
    Tcp,
    /// Anything else, UDP among it.
    Other,
}

/// Two channels of a connection: one for RTP, one for RTCP (RFC 2326, 10.12).
#[derive(Clone, Copy, Debug, PartialEq, Eq, Drop)]
pub struct ChannelPair {
    /// The channel of RTP packets, 0 to 255.
    pub first: u8,
    /// The channel of RTCP packets, 0 to 255.
    pub second: u8,
}

/// The methods that a session is set up for (RFC 2326, 12.39, `mode`).
#[derive(Clone, Copy, Debug, PartialEq, Eq, Drop)]
pub enum Mode {
    /// The session is played.
    Play,
    /// The session is recorded.
    Record,
}

/// One spec of a Transport header.
#[derive(Clone, Copy, Debug, PartialEq, Eq, Drop)]
pub struct Spec {
    /// The transport that the spec's first part names.
    pub protocol: Protocol,
    /// Whether the spec has a parameter `multicast`.
    pub multicast: bool,
    /// The channels that `interleaved` asks for; `None` where it is absent or unreadable.
    pub interleaved: Option<ChannelPair>,
    /// What `mode` asks for; [`Mode::Play`] where it is absent.
    pub mode: Mode,
}
