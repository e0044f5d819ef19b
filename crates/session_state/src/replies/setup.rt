//! The replies to SETUP, and what each changes (RFC 2326, 10.4).
ghost use Rattle.std.specs.Prelude.{◌≡◌, ◌<◌, ◌==◌, IfOk, IsSome, Some, [], replicate, slice_set};
ghost use Rattle.rtsp_message.specs.declared.status.Status.TheVariants.{Ok};
ghost use Rattle.mounts.specs.Mounts.{numbered};
ghost use Rattle.transport_header.specs.declared.spec.Spec as transports;
ghost use Rattle.transport_header.specs.Chosen.{IsChosen, IsFirstAcceptable, transport_text};
ghost use Rattle.session_state.specs.declared.checks.accepted.Accepted.TheVariants as found;
ghost use Rattle.session_state.specs.History.{History};
ghost use Rattle.session_state.specs.Judged.{CanTake, Finds, GivesFirst, GivesMore, HasNumberLeft, IsChosenFor, IsThere, SetsUpBy, asked_of};
ghost use Rattle.session_state.specs.Replies.{no_fields};
ghost use Rattle.session_state.specs.Stands.{Stands};

use crate::given::Given;
use crate::replies::{accepting_reply, identifier};
use crate::session::{Session, State};
use crate::world::{Change, World};
use base_syntax::Bytes;
use mounts::Mount;
use rtsp_message::{Fields, Reply, Request};
use std::alloc::{AllocError, Global};
use transport_header::{ChannelPair, Chosen, Spec, TrackChannels, choose, put_transport};

/// A reply to SETUP: the session, and the channels of the track (RFC 2326, 12.37 and 12.39).
fn transport_reply(
    alloc: Global,
    request: &Request,
    session: Bytes,
    chosen: &Chosen,
) -> Result<Reply, AllocError>
    ensures { IfOk result (λ reply. reply ≡ record { status = Ok; cseq = request.now.cseq; fields = record no_fields { session = Some session; transport = Some (transport_text chosen.now) }; body = [] }) }
{
    let mut transport = Vec::new(alloc);
    put_transport(&mut transport, chosen)?;
    let fields = Fields {
        session: Some(session),
        transport: Some(Bytes::new(transport)),
        ..Fields::none()
    };
    Ok(accepting_reply(request, fields, Bytes::empty(alloc)))
}

/// The two channels that were chosen.
fn pair_of(chosen: &Chosen) -> ChannelPair
    ensures { result ≡ record { first = chosen.now.rtp; second = chosen.now.rtcp } }
{
    ChannelPair {
        first: chosen.rtp,
        second: chosen.rtcp,
    }
}

/// The channels of a track, chosen among specs of which one is acceptable, beside those of the session's other tracks.
fn chosen_among(specs: &[Spec], channels: &TrackChannels, track: usize) -> Chosen
    requires { (spec : transports.Spec) × IsFirstAcceptable specs.now spec }
    ensures { IsChosenFor specs.now channels.now track result }
{
    let used = channels.others(track);
    choose(specs, &used).unwrap()
}

/// SETUP of a track in a session that there is.
fn set_up_more(
    alloc: Global,
    request: &Request,
    session: &Session,
    specs: &[Spec],
    track: usize,
    recording: bool,
) -> Result<(Reply, Change), AllocError>
    requires acceptable { (spec : transports.Spec) × IsFirstAcceptable specs.now spec }
    ensures { IfOk result (λ r. GivesMore specs.now session.now track request.now recording r.0 r.1) }
{
    let chosen = chosen_among(specs, &session.channels, track);
    let identifier = identifier(alloc, session.number, session.word)?;
    let told = Chosen {
        recording,
        ..chosen
    };
    let reply = transport_reply(alloc, request, identifier, &told)?;
    let pair = pair_of(&chosen);
    Ok((reply, Change::SetUp { track, pair }))
}

/// SETUP of a track with which a session begins.
fn set_up_first(
    alloc: Global,
    request: &Request,
    mount: &Mount,
    number: u32,
    word: u32,
    specs: &[Spec],
    track: usize,
    recording: bool,
) -> Result<(Reply, Change), AllocError>
    requires acceptable { (spec : transports.Spec) × IsFirstAcceptable specs.now spec }
    requires track { track < 16 }
    ensures { IfOk result (λ r. GivesFirst specs.now number word mount.now track request.now recording r.0 r.1) }
{
    let mut channels = TrackChannels::new();
    let chosen = chosen_among(specs, &channels, track);
    let told = Chosen {
        recording,
        ..chosen
    };
    let reply = transport_reply(alloc, request, identifier(alloc, number, word)?, &told)?;
    channels.set(track, pair_of(&chosen));
    let session = Session {
        number,
        word,
        mount: mount.number,
        name: Bytes::from_slice(alloc, mount.name.as_slice())?,
        recording,
        channels,
        state: State::Ready,
    };
    Ok((reply, Change::Begin(session)))
}

impl World {
    /// SETUP of a track of a mount (RFC 2326, 10.4).
    pub(crate) fn set_up(
        &self,
        alloc: Global,
        conn: u64,
        request: &Request,
        given: &Given,
        number: u64,
        track: usize,
        specs: &[Spec],
    ) -> Result<(Reply, Change), AllocError>
        requires there { IsThere self.now conn (found.Setup number track specs.now) }
        ensures ok { IfOk result (λ r. (history : History) → Stands history self.now → Finds (asked_of self.now history conn request.now) (found.Setup number track specs.now)
            → SetsUpBy (asked_of self.now history conn request.now) given.entry.now r.0 r.1) }
        ensures can { IfOk result (λ r. CanTake self.now conn r.1) }
    {
        let mount = self.mounts.numbered(number).unwrap();
        let recording = mount.owner == conn;
        match self.session_of(conn) {
            Some(session) => set_up_more(alloc, request, session, specs, track, recording),
            None => set_up_first(
                alloc,
                request,
                mount,
                self.begun + 1,
                given.word,
                specs,
                track,
                recording,
            ),
        }
    }
}
