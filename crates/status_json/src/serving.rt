//! The server's own figures as an object of JSON.
ghost use Rattle.std.specs.Prelude.{◌≡◌, ◌++◌, length, take, OnOk, OnErr};
ghost use Rattle.status_json.specs.Json.{keyed};
ghost use Rattle.status_json.specs.Serving.{refused_back, refused_front, refused_text, server_back, server_front, server_text, sessions_text};

use crate::key::{Key, ServingKey};
use crate::lists::{Written, write_members};
use crate::values::write_number;
use server_counts::{RefusedConnections, RequestCount, ServerFigures, SessionFigures};
use std::alloc::AllocError;

impl Written for RequestCount {
    ghost use Rattle.status_json.specs.Serving.{request_text};

    ghost text = { request_text };

    #[tactic(auto, unfolding(crate::specs::Serving::request_text))]
    fn write(&self, out: &mut Vec<u8>) -> Result<(), AllocError> {
        write_number(out, Key::Quote, u64::from(self.status.code()))?;
        write_number(out, Key::NumberEnd, self.count)
    }
}

/// Appends how many sessions have each role and state, or a part of it if memory is refused.
#[tactic(auto, unfolding(crate::specs::Serving::sessions_text))]
fn write_sessions(out: &mut Vec<u8>, sessions: &SessionFigures) -> Result<(), AllocError>
    ensures text { OnOk result (out.new.items ≡ out.old.items ++ sessions_text sessions.now) }
    ensures kept { OnErr result (take (length out.old.items) out.new.items ≡ out.old.items) }
{
    let ready = sessions.publisher_ready;
    let recording = sessions.publisher_recording;
    write_number(out, Key::OfServer(ServingKey::PublisherReady), ready)?;
    write_number(
        out,
        Key::OfServer(ServingKey::PublisherRecording),
        recording,
    )?;
    let ready = sessions.player_ready;
    let playing = sessions.player_playing;
    write_number(out, Key::OfServer(ServingKey::PlayerReady), ready)?;
    write_number(out, Key::OfServer(ServingKey::PlayerPlaying), playing)?;
    out.extend_from_slice(b"}")
}

/// Appends what is before how many sessions have each role and state, and that, or a part of them if memory is refused.
#[tactic(auto, unfolding(crate::specs::Json::keyed))]
fn put_sessions(out: &mut Vec<u8>, key: Key, sessions: &SessionFigures) -> Result<(), AllocError>
    ensures text { OnOk result (out.new.items ≡ out.old.items ++ keyed key (sessions_text sessions.now)) }
    ensures kept { OnErr result (take (length out.old.items) out.new.items ≡ out.old.items) }
{
    out.extend_from_slice(key.text())?;
    write_sessions(out, sessions)
}

/// Appends how many connections were refused since the server was full or had no memory, or a part of it if memory is refused.
#[tactic(auto, unfolding(crate::specs::Serving::refused_front))]
fn write_refused_front(out: &mut Vec<u8>, refused: &RefusedConnections) -> Result<(), AllocError>
    ensures text { OnOk result (out.new.items ≡ out.old.items ++ refused_front refused.now) }
    ensures kept { OnErr result (take (length out.old.items) out.new.items ≡ out.old.items) }
{
    let (full, address) = (refused.full, refused.address_full);
    write_number(out, Key::OfServer(ServingKey::Full), full)?;
    write_number(out, Key::OfServer(ServingKey::AddressFull), address)?;
    let memory = refused.out_of_memory;
    write_number(out, Key::OfServer(ServingKey::OutOfMemory), memory)
}

/// Appends how many connections were refused for the other reasons, or a part of it if memory is refused.
#[tactic(auto, unfolding(crate::specs::Serving::refused_back))]
fn write_refused_back(out: &mut Vec<u8>, refused: &RefusedConnections) -> Result<(), AllocError>
    ensures text { OnOk result (out.new.items ≡ out.old.items ++ refused_back refused.now) }
    ensures kept { OnErr result (take (length out.old.items) out.new.items ≡ out.old.items) }
{
    write_number(out, Key::OfServer(ServingKey::NoThread), refused.no_thread)?;
    write_number(
        out,
        Key::OfServer(ServingKey::NotAccepted),
        refused.not_accepted,
    )?;
    out.extend_from_slice(b"}")
}

/// Appends how many connections were refused for each reason, or a part of it if memory is refused.
fn write_refused(out: &mut Vec<u8>, refused: &RefusedConnections) -> Result<(), AllocError>
    ensures text { OnOk result (out.new.items ≡ out.old.items ++ refused_text refused.now) }
    ensures kept { OnErr result (take (length out.old.items) out.new.items ≡ out.old.items) }
{
    write_refused_front(out, refused)?;
    write_refused_back(out, refused)
}

/// Appends what is before how many connections were refused, and that, or a part of them if memory is refused.
#[tactic(auto, unfolding(crate::specs::Json::keyed))]
fn put_refused(out: &mut Vec<u8>, key: Key, refused: &RefusedConnections) -> Result<(), AllocError>
    ensures text { OnOk result (out.new.items ≡ out.old.items ++ keyed key (refused_text refused.now)) }
    ensures kept { OnErr result (take (length out.old.items) out.new.items ≡ out.old.items) }
{
    out.extend_from_slice(key.text())?;
    write_refused(out, refused)
}

/// Appends the figures of connections and sessions, or a part of them if memory is refused.
#[tactic(auto, unfolding(crate::specs::Serving::server_front))]
fn write_front(out: &mut Vec<u8>, figures: &ServerFigures) -> Result<(), AllocError>
    ensures text { OnOk result (out.new.items ≡ out.old.items ++ server_front figures.now) }
    ensures kept { OnErr result (take (length out.old.items) out.new.items ≡ out.old.items) }
{
    write_number(
        out,
        Key::OfServer(ServingKey::Connections),
        figures.connections,
    )?;
    put_sessions(out, Key::OfServer(ServingKey::Sessions), &figures.sessions)?;
    put_refused(
        out,
        Key::OfServer(ServingKey::RefusedConnections),
        &figures.refused,
    )
}

/// Appends the figures of requests and log lines, or a part of them if memory is refused.
#[tactic(auto, unfolding(crate::specs::Serving::server_back))]
fn write_back(out: &mut Vec<u8>, figures: &ServerFigures) -> Result<(), AllocError>
    ensures text { OnOk result (out.new.items ≡ out.old.items ++ server_back figures.now) }
    ensures kept { OnErr result (take (length out.old.items) out.new.items ≡ out.old.items) }
{
    write_members(
        out,
        Key::OfServer(ServingKey::RefusedRequests),
        &figures.requests,
    )?;
    write_number(
        out,
        Key::OfServer(ServingKey::LinesDropped),
        figures.lines_dropped,
    )?;
    out.extend_from_slice(b"}")
}

/// Appends the server's own figures, or a part of them if memory is refused.
fn write_figures(out: &mut Vec<u8>, figures: &ServerFigures) -> Result<(), AllocError>
    ensures text { OnOk result (out.new.items ≡ out.old.items ++ server_text figures.now) }
    ensures kept { OnErr result (take (length out.old.items) out.new.items ≡ out.old.items) }
{
    write_front(out, figures)?;
    write_back(out, figures)
}

/// Appends what is before the server's own figures, and these, or a part of them if memory is refused.
#[tactic(auto, unfolding(crate::specs::Json::keyed))]
pub(crate) fn write_server(
    out: &mut Vec<u8>,
    key: Key,
    figures: &ServerFigures,
) -> Result<(), AllocError>
    ensures text { OnOk result (out.new.items ≡ out.old.items ++ keyed key (server_text figures.now)) }
    ensures kept { OnErr result (take (length out.old.items) out.new.items ≡ out.old.items) }
{
    out.extend_from_slice(key.text())?;
    write_figures(out, figures)
}
