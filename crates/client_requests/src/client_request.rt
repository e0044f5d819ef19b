//! A request of a client.
ghost use Rattle.std.specs.Prelude.{◌≡◌, IfOk};
ghost use Rattle.std.specs.Option.{option_copied};
ghost use Rattle.client_requests.specs.Requests.{AsksFor, IsText, method_for, request_for};

use crate::places::Places;
use crate::texts::{given_uri, made_uri, transport_of};
use base_syntax::Bytes;
use request_text::{Asked, Method, RequestText};
use rtsp_client::Ask;
use std::alloc::{AllocError, Global};
use std::marker::Model;

/// A request that a client sends, with the texts that it is made of.
#[derive(Drop)]
pub struct ClientRequest<'a> {
    ask: Ask,
    /// The URI of the target's track, if the request sets it up.
    made: Option<Bytes>,
    /// The URI of the request if it doesn't.
    given: &'a [u8],
    /// The value of Transport, which is empty if the request isn't SETUP.
    transport: Bytes,
    description: &'a [u8],
}

impl<'a> Model for ClientRequest<'a> {
    ghost use Rattle.std.specs.Prelude.{unwrap_or};
    ghost use Rattle.client_requests.specs.Requests.{Request};

    ghost Value = { Request };

    ghost view = { λ r. record {
      ask = r.ask;
      uri = unwrap_or r.made r.given.now;
      transport = r.transport;
      description = r.description.now;
    } };
}

impl<'a> ClientRequest<'a> {
    /// Returns the request for an `Ask`. The only error is out of memory.
    pub fn of(alloc: Global, ask: &Ask, places: Places<'a>) -> Result<ClientRequest<'a>, AllocError>
        ensures { IfOk result (λ request. request ≡ request_for ask.now places.entry) }
    {
        let made = made_uri(alloc, ask, places.target)?;
        let transport = transport_of(alloc, ask)?;
        Ok(ClientRequest {
            ask: *ask,
            made,
            given: given_uri(ask.asked, places),
            transport,
            description: places.description,
        })
    }

    /// Returns the request with these values of Session and Authorization.
    pub fn text<'b, 's: 'b, 'd: 'b>(
        &'b self,
        session: Option<&'s [u8]>,
        authorization: Option<&'d [u8]>,
    ) -> RequestText<'b>
        ensures { IsText self.now (option_copied session.entry) (option_copied authorization.entry) result }
    {
        RequestText {
            asked: self.asked(),
            uri: self.uri(),
            number: self.ask.number,
            session: lent(session),
            authorization: lent(authorization),
        }
    }

    /// Returns what the request asks for.
    fn asked(&self) -> Asked<'_>
        ensures { AsksFor self.now result }
    {
        match self.ask.method {
            rtsp_client::Method::Options => Asked::Options,
            rtsp_client::Method::Describe => Asked::Describe,
            rtsp_client::Method::SetUp { .. } => Asked::Setup(self.transport.as_slice()),
            rtsp_client::Method::Announce => Asked::Announce(self.description),
            rtsp_client::Method::Record => Asked::Record,
            rtsp_client::Method::Play => Asked::Play,
            rtsp_client::Method::GetParameter => Asked::GetParameter,
            rtsp_client::Method::TearDown => Asked::Teardown,
        }
    }

    /// Returns the URI of the request.
    pub fn uri(&self) -> &[u8]
        ensures { result.now ≡ self.now.uri }
    {
        match &self.made {
            Some(uri) => uri.as_slice(),
            None => self.given,
        }
    }

    /// Returns the method of the request.
    pub fn method(&self) -> Method
        ensures { result ≡ method_for self.now.ask.method }
    {
        match self.ask.method {
            rtsp_client::Method::Options => Method::Options,
            rtsp_client::Method::Describe => Method::Describe,
            rtsp_client::Method::SetUp { .. } => Method::Setup,
            rtsp_client::Method::Announce => Method::Announce,
            rtsp_client::Method::Record => Method::Record,
            rtsp_client::Method::Play => Method::Play,
            rtsp_client::Method::GetParameter => Method::GetParameter,
            rtsp_client::Method::TearDown => Method::Teardown,
        }
    }
}

/// Returns the same text for a shorter time.
fn lent<'b, 's: 'b>(text: Option<&'s [u8]>) -> Option<&'b [u8]>
    ensures { option_copied result ≡ option_copied text.entry }
{
    match text {
        Some(text) => Some(text),
        None => None,
    }
}
