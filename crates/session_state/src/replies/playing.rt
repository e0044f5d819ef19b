//! The replies to PLAY (RFC 2326, 10.5 and 12.33).
ghost use Rattle.std.specs.Prelude.{◌≡◌, ◌∷◌, ◌++◌, [], IfOk, MatchOption, None, Some, get_or};
ghost use Rattle.std.specs.Option.{option_copied};
ghost use Rattle.rtsp_message.specs.declared.status.Status.TheVariants.{Ok};
ghost use Rattle.sdp.specs.Written.{track_control};
ghost use Rattle.transport_header.specs.Tracks.{pair_at};
ghost use Rattle.session_state.specs.Replies.{info_at, info_field, info_of, infos, no_fields, told_to, url_for};

use crate::given::Given;
use crate::replies::telling_reply;
use crate::session::Session;
use base_syntax::Bytes;
use itoa::Buffer;
use mounts::{Target, resource_text};
use rtsp_message::{Fields, Reply, Request};
use std::alloc::{AllocError, Global};
use transport_header::{ChannelPair, InfoEntry, MOST_TRACKS, Point, put_rtp_info};

/// The URL of a track of the presentation: below the request's base, or the request's own where that names a track.
fn url_of(
    alloc: Global,
    request: &Request,
    target: &Target,
    named: Option<usize>,
    track: usize,
) -> Result<Bytes, AllocError>
    ensures { IfOk result (λ url. url ≡ url_for request.now.uri target.now named track) }
{
    if named.is_some() {
        return Bytes::from_slice(alloc, resource_text(request.uri.as_slice()));
    }
    let mut number = Buffer::new();
    let mut url = Vec::from_slice(alloc, target.base.as_slice())?;
    url.extend_from_slice(b"trackID=")?;
    url.extend_from_slice(number.format(track).as_bytes())?;
    Ok(Bytes::new(url))
}

/// Where the packets of a track stand.
fn point_of(given: &Given, track: usize) -> Option<Point>
    ensures { result ≡ get_or given.entry.now.points track None }
{
    *given.points.as_slice().get(track)?
}

/// What RTP-Info says of a track that is set up and has a point.
fn info_of_track(
    alloc: Global,
    request: &Request,
    session: &Session,
    target: &Target,
    named: Option<usize>,
    given: &Given,
    track: usize,
) -> Result<Option<InfoEntry>, AllocError>
    ensures { IfOk result (λ info. MatchOption info
        (info_at session.now (url_for request.now.uri target.now named) given.entry.now.points track ≡ [])
        (λ entry. info_at session.now (url_for request.now.uri target.now named) given.entry.now.points track ≡ entry ∷ [])) }
{
    if session.channels.pair_of(track).is_none() {
        return Ok(None);
    }
    let Some(point) = point_of(given, track) else {
        return Ok(None);
    };
    Ok(Some(InfoEntry {
        url: url_of(alloc, request, target, named, track)?,
        sequence: point.seq,
        timestamp: point.rtptime,
    }))
}

/// What RTP-Info says of all tracks, in rising order.
fn infos_of(
    alloc: Global,
    request: &Request,
    session: &Session,
    target: &Target,
    named: Option<usize>,
    given: &Given,
) -> Result<Vec<InfoEntry>, AllocError>
    ensures { IfOk result (λ entries. entries.items ≡ infos (info_at session.now (url_for request.now.uri target.now named) given.entry.now.points) 0 16) }
{
    let mut entries = Vec::new(alloc);
    for track in 0..MOST_TRACKS {
        if let Some(entry) = info_of_track(alloc, request, session, target, named, given, track)? {
            entries.push(entry)?;
        }
    }
    Ok(entries)
}

/// The value of an RTP-Info field: none where nothing is to be said.
fn info_value(alloc: Global, entries: &[InfoEntry]) -> Result<Option<Bytes>, AllocError>
    ensures { IfOk result (λ value. value ≡ info_field entries.now) }
{
    if entries.is_empty() {
        return Ok(None);
    }
    let mut text = Vec::new(alloc);
    put_rtp_info(&mut text, entries)?;
    Ok(Some(Bytes::new(text)))
}

/// A reply to PLAY.
pub(crate) fn playing_reply(
    alloc: Global,
    request: &Request,
    session: &Session,
    target: &Target,
    named: Option<usize>,
    given: &Given,
) -> Result<Reply, AllocError>
    ensures { IfOk result (λ reply. reply ≡ record {
      status = Ok;
      cseq = request.now.cseq;
      fields = record no_fields { session = told_to request.now (Some session.now); rtp_info = info_field (infos (info_at session.now (url_for request.now.uri target.now named) given.entry.now.points) 0 16) };
      body = [];
    }) }
{
    let entries = infos_of(alloc, request, session, target, named, given)?;
    let fields = Fields {
        rtp_info: info_value(alloc, entries.as_slice())?,
        ..Fields::none()
    };
    telling_reply(alloc, request, Some(session), fields, Bytes::empty(alloc))
}
