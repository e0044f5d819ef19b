//! Choosing among the specs of a Transport header, and the answer to it (RFC 2326, 12.39).
ghost use Rattle.std.specs.Prelude.{◌≡◌, ◌≢◌, ◌↔◌, ◌+◌, ◌<◌, ◌++◌, IsTrue, IfSome, OnOk, OnErr, All, MatchOption, length, take, vec_len, vec_capacity};
ghost use Rattle.transport_header.specs.Chosen.{IsAcceptable, IsFirstAcceptable, AreUnused, IsUsable, IsGiven, IsChosen, mode_text, transport_text};

use crate::channels::Channels;
use crate::spec::{ChannelPair, Mode, Protocol, Spec};
use itoa::Buffer;
use std::alloc::AllocError;

/// What a track is set up with.
#[derive(Clone, Copy, Debug, PartialEq, Eq, Drop)]
pub struct Chosen {
    /// The channel of the track's RTP packets, 0 to 255.
    pub rtp: u8,
    /// The channel of its RTCP packets, 0 to 255.
    pub rtcp: u8,
    /// Whether the session is to be recorded rather than played.
    pub recording: bool,
}

// Whether a spec is over TCP and not multicast.
fn is_acceptable(spec: &Spec) -> bool
    ensures { IsTrue result ↔ IsAcceptable spec.now }
{
    spec.protocol == Protocol::Tcp && !spec.multicast
}

// The first acceptable spec.
fn first_acceptable(specs: &[Spec]) -> Option<Spec>
    ensures { MatchOption result (All (λ spec. ¬ IsAcceptable spec) specs.now) (λ spec. IsFirstAcceptable specs.now spec) }
{
    for spec in specs {
        if is_acceptable(spec) {
            return Some(*spec);
        }
    }
    None
}

// Whether two channels may be given as they are asked for.
fn is_usable(used: &Channels, pair: ChannelPair) -> bool
    ensures { IsTrue result ↔ IsUsable used.now pair }
{
    pair.first != pair.second && !used.contains(pair.first) && !used.contains(pair.second)
}

// The channels that a track gets where these are asked for.
fn given(used: &Channels, asked: Option<ChannelPair>) -> ChannelPair
    ensures given { IsGiven used.now asked result.first result.second }
    ensures apart { result.first ≢ result.second }
    ensures unused { AreUnused used.now result.first result.second }
{
    match asked {
        Some(pair) => {
            if is_usable(used, pair) {
                pair
            } else {
                used.least_free_pair()
            }
        }
        None => used.least_free_pair(),
    }
}

/// Chooses among the specs of a Transport header: the first that is over TCP and not multicast, with
/// the channels that it asks for where they differ and no other track uses either, and else with the
/// least even channel that is unused as the next one (RFC 2326, 12.39). `used` are the channels of the
/// session's other tracks. `None` where no spec is acceptable.
pub fn choose(specs: &[Spec], used: &Channels) -> Option<Chosen>
    ensures chosen { IsChosen specs.now used.now result }
    // So no other track has either of the two channels.
    ensures apart { IfSome result (λ chosen. chosen.rtp ≢ chosen.rtcp) }
    ensures unused { IfSome result (λ chosen. AreUnused used.now chosen.rtp chosen.rtcp) }
{
    let spec = first_acceptable(specs)?;
    let channels = given(used, spec.interleaved);
    Some(Chosen {
        rtp: channels.first,
        rtcp: channels.second,
        recording: spec.mode == Mode::Record,
    })
}

// The parameter that says what a session is set up for, where it isn't PLAY.
fn mode_parameter(recording: bool) -> &'static [u8]
    ensures { result.now ≡ mode_text recording }
{
    if recording { b";mode=\"RECORD\"" } else { b"" }
}

// Appends the text of `put_transport`, or as much of it as there was room for.
#[tactic(auto, unfolding(crate::specs::Chosen::transport_text))]
fn write_transport(out: &mut Vec<u8>, chosen: &Chosen) -> Result<(), AllocError>
    ensures text { OnOk result (out.new.items ≡ out.old.items ++ transport_text chosen.now) }
    ensures kept { OnErr result (take (length out.old.items) out.new.items ≡ out.old.items) }
    ensures full { OnErr result (vec_capacity out.old < vec_len out.old + length (transport_text chosen.now)) }
{
    let mut number = Buffer::new();
    out.extend_from_slice(b"RTP/AVP/TCP;unicast;interleaved=")?;
    out.extend_from_slice(number.format(chosen.rtp).as_bytes())?;
    out.extend_from_slice(b"-")?;
    out.extend_from_slice(number.format(chosen.rtcp).as_bytes())?;
    out.extend_from_slice(mode_parameter(chosen.recording))
}

/// Appends the value of a reply's Transport header: `RTP/AVP/TCP;unicast;interleaved=A-B`, and
/// `;mode="RECORD"` after it where the session is to be recorded (RFC 2326, 12.39).
///
/// An error comes only where room for the text was missing and none was given; `out` is then as before.
pub fn put_transport(out: &mut Vec<u8>, chosen: &Chosen) -> Result<(), AllocError>
    ensures text { OnOk result (out.new.items ≡ out.old.items ++ transport_text chosen.now) }
    ensures unchanged { OnErr result (out.new.items ≡ out.old.items) }
    ensures full { OnErr result (vec_capacity out.old < vec_len out.old + length (transport_text chosen.now)) }
{
    let before = out.len();
    let written = write_transport(out, chosen);
    if written.is_err() {
        out.truncate(before);
    }
    written
}
