//! Cases of URLs, and of the URIs of a session and its tracks.

use crate::telling::{tell_place, tell_refused};
use base_syntax::Bytes;
use case_texts::{Arguments, Fault, Told, meaning};
use rtsp_auth::Credentials;
use source_urls::{ControlFault, Source, UrlFault, base_of, control_uri, read_source, read_target};
use std::alloc::{AllocError, Global};

/// What a word of a case of URLs asks for.
#[derive(Clone, Copy, Drop)]
enum UrlWord {
    Source,
    Password,
    Target,
    ContentBase,
    ContentLocation,
    Base,
    Control,
}

const WORDS: [(&str, UrlWord); 7] = [
    ("source", UrlWord::Source),
    ("password", UrlWord::Password),
    ("target", UrlWord::Target),
    ("content-base", UrlWord::ContentBase),
    ("content-location", UrlWord::ContentLocation),
    ("base", UrlWord::Base),
    ("control", UrlWord::Control),
];

/// The user of the last source, the header fields of the next base, and the base.
#[derive(Drop)]
pub struct UrlCase {
    user: Option<Bytes>,
    content_base: Option<Vec<u8>>,
    content_location: Option<Vec<u8>>,
    base: Vec<u8>,
}

impl UrlCase {
    /// No source, no header field, and an empty base.
    pub fn new(alloc: Global) -> UrlCase {
        UrlCase {
            user: None,
            content_base: None,
            content_location: None,
            base: Vec::new(alloc),
        }
    }

    pub fn call(
        &mut self,
        word: &[u8],
        arguments: &mut Arguments<'_>,
        told: &mut Told,
    ) -> Result<(), Fault> {
        let word = meaning(&WORDS, word).ok_or(Fault::UnknownWord)?;
        let text = arguments.text(told.alloc())?;
        match word {
            UrlWord::Source => self.read_source(&text, told),
            UrlWord::Password => self.tell_credentials(&text, told),
            UrlWord::Target => tell_target(&text, told),
            UrlWord::ContentBase => {
                self.content_base = Some(text);
                Ok(())
            }
            UrlWord::ContentLocation => {
                self.content_location = Some(text);
                Ok(())
            }
            UrlWord::Base => Ok(self.set_base(&text, told)?),
            UrlWord::Control => tell_control(&self.base, &text, told),
        }
    }

    /// `source TEXT`.
    fn read_source(&mut self, text: &[u8], told: &mut Told) -> Result<(), Fault> {
        match read_source(told.alloc(), text) {
            Ok(source) => {
                tell_source(&source, told)?;
                self.user = source.user;
                Ok(())
            }
            Err(UrlFault::OutOfMemory) => Err(Fault::OutOfMemory),
            Err(fault) => Ok(tell_refused(told, fault)?),
        }
    }

    /// `password TEXT`: whether there are credentials of the user of the last source with this password.
    fn tell_credentials(&self, text: &[u8], told: &mut Told) -> Result<(), Fault> {
        let alloc = told.alloc();
        let user = match &self.user {
            Some(user) => Bytes::from_slice(alloc, user.as_slice())?,
            None => return Err(Fault::TooEarly),
        };
        let password = Bytes::from_slice(alloc, text)?;
        match Credentials::new(user, password, Bytes::empty(alloc)) {
            Ok(_) => Ok(told.fact(b"accepted")?),
            Err(fault) => Ok(tell_refused(told, fault)?),
        }
    }

    /// `base TEXT`: the base of controls, by the header fields that were given and the URI of the request. The fields are then forgotten.
    fn set_base(&mut self, request: &[u8], told: &mut Told) -> Result<(), AllocError> {
        let content_base = self.content_base.take();
        let content_location = self.content_location.take();
        let base = base_of(
            content_base.as_deref(),
            content_location.as_deref(),
            request,
        );
        self.base = Vec::from_slice(told.alloc(), base)?;
        told.fact(base)
    }
}

/// Tells the user of a source, if it has one, and its place.
fn tell_source(source: &Source, told: &mut Told) -> Result<(), AllocError> {
    if let Some(user) = &source.user {
        told.named(b"user", user.as_slice())?;
    }
    tell_place(
        told,
        source.host.as_slice(),
        source.port,
        source.uri.as_slice(),
    )
}

/// `target TEXT`.
fn tell_target(text: &[u8], told: &mut Told) -> Result<(), Fault> {
    match read_target(told.alloc(), text) {
        Ok(target) => Ok(tell_place(
            told,
            target.host.as_slice(),
            target.port,
            target.uri.as_slice(),
        )?),
        Err(UrlFault::OutOfMemory) => Err(Fault::OutOfMemory),
        Err(fault) => Ok(tell_refused(told, fault)?),
    }
}

/// `control TEXT`.
fn tell_control(base: &[u8], control: &[u8], told: &mut Told) -> Result<(), Fault> {
    match control_uri(told.alloc(), base, Some(control)) {
        Ok(uri) => Ok(told.fact(uri.as_slice())?),
        Err(ControlFault::OutOfMemory) => Err(Fault::OutOfMemory),
        Err(fault) => Ok(tell_refused(told, fault)?),
    }
}
