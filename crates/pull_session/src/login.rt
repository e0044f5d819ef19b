//! The user name and password of a source, and which challenge they answer.

use crate::reason::LoginFault;
use base_syntax::{Bytes, is_same_name};
use rtsp_auth::{Attempt, Challenge, ChoiceFault, Credentials, FieldFault, Request, choose};
use rtsp_message::Response;
use std::alloc::{AllocError, Global};

/// A request that was sent to the source.
#[derive(Drop)]
struct SentRequest {
    method: &'static [u8],
    uri: Bytes,
}

/// What requests to the source are sent with (RFC 2326, 11.1).
#[derive(Drop)]
pub(crate) struct Login {
    credentials: Option<Credentials>,
    attempt: Attempt,
    cnonce: Bytes,
    /// The request that was sent last.
    last: Option<SentRequest>,
}

impl Login {
    /// Nothing was sent. `cnonce` is the client's nonce (RFC 7616, 3.4).
    pub(crate) fn new(credentials: Option<Credentials>, cnonce: Bytes) -> Login {
        Login {
            credentials,
            attempt: Attempt::new(),
            cnonce,
            last: None,
        }
    }

    /// A new connection begins, on which nothing was sent.
    pub(crate) fn restart(&mut self) {
        self.attempt = Attempt::new();
        self.last = None;
    }

    /// Returns the value of Authorization of a request to this host. `None` if it has none. A request that isn't the repetition of a
    /// challenged one can be challenged anew.
    pub(crate) fn authorization(
        &mut self,
        alloc: Global,
        request: &Request<'_>,
        is_repeat: bool,
    ) -> Result<Option<Bytes>, FieldFault> {
        if !is_repeat {
            self.attempt.begin();
        }
        let Some(credentials) = &self.credentials else {
            return Ok(None);
        };
        let mut value = Vec::new(alloc);
        let cnonce = self.cnonce.as_slice();
        let is_there = self
            .attempt
            .put_authorization(&mut value, credentials, request, cnonce)?;
        if is_there {
            Ok(Some(Bytes::new(value)))
        } else {
            Ok(None)
        }
    }

    /// Keeps the method and the URI of a request that was sent.
    pub(crate) fn keep(
        &mut self,
        alloc: Global,
        method: &'static [u8],
        uri: &[u8],
    ) -> Result<(), AllocError> {
        let uri = Bytes::from_slice(alloc, uri)?;
        self.last = Some(SentRequest { method, uri });
        Ok(())
    }

    /// Takes the challenge of a 401 from this host for the request that was sent last. Returns whether the password is sent as it is.
    pub(crate) fn challenge(
        &mut self,
        alloc: Global,
        reply: &Response,
        host: &[u8],
    ) -> Result<bool, LoginFault> {
        let Some(credentials) = &self.credentials else {
            return Err(LoginFault::NoPassword);
        };
        let Some(last) = &self.last else {
            return Err(LoginFault::Refused);
        };
        let challenge = challenge_of(alloc, reply)?;
        let is_basic = matches!(&challenge, Challenge::Basic);
        if is_basic && !credentials.is_for(host) {
            return Err(LoginFault::OtherHost);
        }
        let request = Request {
            method: last.method,
            uri: last.uri.as_slice(),
            host,
        };
        if !self.attempt.answer(challenge, credentials, &request) {
            return Err(LoginFault::Refused);
        }
        Ok(is_basic)
    }
}

/// Returns the challenge of a reply that is answered.
fn challenge_of(alloc: Global, reply: &Response) -> Result<Challenge, LoginFault> {
    let Ok(fields) = challenge_fields(alloc, reply) else {
        return Err(LoginFault::Challenge(ChoiceFault::OutOfMemory));
    };
    match choose(alloc, &fields) {
        Ok(Some(challenge)) => Ok(challenge),
        Ok(None) => Err(LoginFault::NoKnownChallenge),
        Err(fault) => Err(LoginFault::Challenge(fault)),
    }
}

/// Returns the values of the WWW-Authenticate fields of a reply, in order (RFC 2326, 12.44).
fn challenge_fields(alloc: Global, reply: &Response) -> Result<Vec<Bytes>, AllocError> {
    let mut fields = Vec::new(alloc);
    for header in reply.headers.as_slice() {
        if is_same_name(header.name.as_slice(), b"WWW-Authenticate") {
            fields.push(Bytes::from_slice(alloc, header.value.as_slice())?)?;
        }
    }
    Ok(fields)
}
