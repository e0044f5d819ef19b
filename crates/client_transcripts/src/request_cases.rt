//! Cases of the requests that a client sends.

use crate::telling::tell_refused;
use case_texts::{Arguments, Fault, Told, meaning};
use client_requests::{ClientRequest, Places};
use request_text::{RequestFault, put_request};
use rtsp_client::{Ask, Asked, Method, Side};
use transport_header::ChannelPair;

/// The places of a camera and of a relay.
const PLACES: Places<'static> = Places {
    source: b"rtsp://192.0.2.3/main",
    session: b"rtsp://192.0.2.3/main/",
    track: b"rtsp://192.0.2.3/main/track2",
    target: b"rtsp://192.0.2.7/cam",
    description: b"v=0\r\n",
};

/// SETUP of the second track.
const SET_UP: Method = Method::SetUp {
    track: 1,
    channels: ChannelPair {
        first: 2,
        second: 3,
    },
};

/// The requests that a text can name.
const REQUESTS: [(&str, (Asked, Method)); 6] = [
    ("describe", (Asked::Describe, Method::Describe)),
    ("setup", (Asked::SetUp, SET_UP)),
    (
        "keepalive",
        (Asked::KeepAlive(Side::Source), Method::GetParameter),
    ),
    ("announce", (Asked::Announce, Method::Announce)),
    ("setup-target", (Asked::SetUpTarget, SET_UP)),
    (
        "teardown-target",
        (Asked::TearDown(Side::Target), Method::TearDown),
    ),
];

/// The session of the next request.
#[derive(Drop)]
pub struct RequestCase {
    session: Option<Vec<u8>>,
}

impl RequestCase {
    /// No session.
    pub fn new() -> RequestCase {
        RequestCase { session: None }
    }

    pub fn call(
        &mut self,
        word: &[u8],
        arguments: &mut Arguments<'_>,
        told: &mut Told,
    ) -> Result<(), Fault> {
        match word {
            b"session" => {
                self.session = Some(arguments.text(told.alloc())?);
                Ok(())
            }
            b"send" => self.send(arguments, told),
            _ => Err(Fault::UnknownWord),
        }
    }

    /// `send REQUEST NUMBER`: the text of the request.
    fn send(&mut self, arguments: &mut Arguments<'_>, told: &mut Told) -> Result<(), Fault> {
        let word = arguments.word().unwrap_or(b"");
        let (asked, method) = meaning(&REQUESTS, word).ok_or(Fault::UnknownWord)?;
        let session = self.session.take();
        let ask = Ask {
            side: asked.side(),
            method,
            asked,
            number: arguments.number()?,
            has_session: session.is_some(),
            is_repeat: false,
        };
        let request = ClientRequest::of(told.alloc(), &ask, PLACES)?;
        match put_request(&mut told.text, &request.text(session.as_deref(), None)) {
            Ok(()) => Ok(()),
            Err(RequestFault::OutOfMemory) => Err(Fault::OutOfMemory),
            Err(fault) => Ok(tell_refused(told, fault)?),
        }
    }
}
