//! Cases of passwords: challenges, and the answers to them.

use crate::telling::{tell_refused, word_of};
use base_syntax::Bytes;
use case_texts::{Arguments, Fault, Told, meaning};
use rtsp_auth::{
    Attempt, Challenge, ChoiceFault, Credentials, FieldFault, Request, choose, response,
};
use std::alloc::{AllocError, Global};
use std::mem;

/// What a word of a case of passwords asks for.
#[derive(Clone, Copy, Drop)]
enum AuthWord {
    User,
    Password,
    Request,
    Field,
    Choose,
    Begin,
    Answer,
    Authorization,
    Response,
}

const WORDS: [(&str, AuthWord); 9] = [
    ("user", AuthWord::User),
    ("password", AuthWord::Password),
    ("request", AuthWord::Request),
    ("field", AuthWord::Field),
    ("choose", AuthWord::Choose),
    ("begin", AuthWord::Begin),
    ("answer", AuthWord::Answer),
    ("authorization", AuthWord::Authorization),
    ("response", AuthWord::Response),
];

/// The host that credentials are for.
const HOST: &[u8] = b"door";

/// What is in a buffer before a field's value is written behind it.
const BEFORE: &[u8] = b"before";

/// Where a request goes.
#[derive(Drop)]
struct Place {
    uri: Vec<u8>,
    host: Vec<u8>,
}

impl Place {
    /// Returns the request.
    fn request(&self) -> Request<'_> {
        Request {
            method: b"GET",
            uri: &self.uri,
            host: &self.host,
        }
    }
}

/// A connection, the next request on it, and the fields of the next reply.
#[derive(Drop)]
pub struct AuthCase {
    /// The user of the next password.
    user: Vec<u8>,
    credentials: Option<Credentials>,
    place: Place,
    fields: Vec<Bytes>,
    attempt: Attempt,
}

impl AuthCase {
    /// A connection on which no request was sent, the user of RFC 7616, 3.9.1, and no credentials.
    pub fn new(alloc: Global) -> Result<AuthCase, AllocError> {
        let place = Place {
            uri: Vec::from_slice(alloc, b"/dir/index.html")?,
            host: Vec::from_slice(alloc, b"DOOR")?,
        };
        Ok(AuthCase {
            user: Vec::from_slice(alloc, b"Mufasa")?,
            credentials: None,
            place,
            fields: Vec::new(alloc),
            attempt: Attempt::new(),
        })
    }

    pub fn call(
        &mut self,
        word: &[u8],
        arguments: &mut Arguments<'_>,
        told: &mut Told,
    ) -> Result<(), Fault> {
        match meaning(&WORDS, word).ok_or(Fault::UnknownWord)? {
            AuthWord::User => {
                self.user = arguments.text(told.alloc())?;
                Ok(())
            }
            AuthWord::Password => self.set_password(arguments, told),
            AuthWord::Request => self.set_place(arguments, told.alloc()),
            AuthWord::Field => self.add_field(arguments, told.alloc()),
            AuthWord::Choose => self.choose(told),
            AuthWord::Begin => {
                self.attempt.begin();
                Ok(())
            }
            AuthWord::Answer => self.answer(told),
            AuthWord::Authorization => self.tell_authorization(arguments, told),
            AuthWord::Response => self.tell_response(arguments, told),
        }
    }

    /// `password TEXT`: whether there are credentials of the user with this password.
    fn set_password(
        &mut self,
        arguments: &mut Arguments<'_>,
        told: &mut Told,
    ) -> Result<(), Fault> {
        let alloc = told.alloc();
        let password = Bytes::new(arguments.text(alloc)?);
        let user = Bytes::from_slice(alloc, &self.user)?;
        let host = Bytes::from_slice(alloc, HOST)?;
        match Credentials::new(user, password, host) {
            Ok(credentials) => {
                self.credentials = Some(credentials);
                Ok(told.fact(b"accepted")?)
            }
            Err(fault) => Ok(tell_refused(told, fault)?),
        }
    }

    /// `request URI HOST`.
    fn set_place(&mut self, arguments: &mut Arguments<'_>, alloc: Global) -> Result<(), Fault> {
        self.place.uri = word_of(arguments, alloc)?;
        self.place.host = word_of(arguments, alloc)?;
        Ok(())
    }

    /// `field TEXT`.
    fn add_field(&mut self, arguments: &mut Arguments<'_>, alloc: Global) -> Result<(), Fault> {
        let field = Bytes::new(arguments.text(alloc)?);
        Ok(self.fields.push(field)?)
    }

    /// Returns the challenge that is chosen of the fields, which are then forgotten.
    fn challenge(&mut self, alloc: Global) -> Result<Option<Challenge>, ChoiceFault> {
        let fields = mem::replace(&mut self.fields, Vec::new(alloc));
        choose(alloc, &fields)
    }

    /// Returns the challenge that is chosen of the fields, of which none is too long.
    fn plain_challenge(&mut self, alloc: Global) -> Result<Option<Challenge>, Fault> {
        match self.challenge(alloc) {
            Ok(challenge) => Ok(challenge),
            Err(ChoiceFault::OutOfMemory) => Err(Fault::OutOfMemory),
            Err(ChoiceFault::LongField) => Err(Fault::BadUrl),
        }
    }

    /// `choose`.
    fn choose(&mut self, told: &mut Told) -> Result<(), Fault> {
        match self.challenge(told.alloc()) {
            Ok(challenge) => Ok(tell_challenge(&challenge, told)?),
            Err(ChoiceFault::OutOfMemory) => Err(Fault::OutOfMemory),
            Err(fault) => Ok(tell_refused(told, fault)?),
        }
    }

    /// `answer`: whether the challenge of the fields is answered.
    fn answer(&mut self, told: &mut Told) -> Result<(), Fault> {
        let Some(challenge) = self.plain_challenge(told.alloc())? else {
            return Ok(told.fact(b"none")?);
        };
        let Some(credentials) = &self.credentials else {
            return Err(Fault::TooEarly);
        };
        let is_answered = self
            .attempt
            .answer(challenge, credentials, &self.place.request());
        Ok(told.truth(is_answered)?)
    }

    /// `authorization CNONCE`.
    fn tell_authorization(
        &mut self,
        arguments: &mut Arguments<'_>,
        told: &mut Told,
    ) -> Result<(), Fault> {
        let cnonce = word_of(arguments, told.alloc())?;
        let Some(credentials) = &self.credentials else {
            return Err(Fault::TooEarly);
        };
        let mut text = Vec::from_slice(told.alloc(), BEFORE)?;
        let request = self.place.request();
        let put = self
            .attempt
            .put_authorization(&mut text, credentials, &request, &cnonce);
        tell_put(put, &text, told)
    }

    /// `response COUNT CNONCE`: the digits of the answer to the challenge of the fields.
    fn tell_response(
        &mut self,
        arguments: &mut Arguments<'_>,
        told: &mut Told,
    ) -> Result<(), Fault> {
        let alloc = told.alloc();
        let count = arguments.number()?;
        let cnonce = word_of(arguments, alloc)?;
        let challenge = self.plain_challenge(alloc)?;
        let (Some(Challenge::Digest(challenge)), Some(credentials)) = (
            &challenge,
            &self.credentials,
        ) else {
            return Err(Fault::TooEarly);
        };
        let request = self.place.request();
        let digits = response(alloc, challenge, credentials, &request, count, &cnonce)?;
        Ok(told.fact(digits.as_bytes())?)
    }
}

fn tell_challenge(challenge: &Option<Challenge>, told: &mut Told) -> Result<(), AllocError> {
    match challenge {
        None => told.fact(b"none"),
        Some(Challenge::Basic) => told.fact(b"basic"),
        Some(Challenge::Digest(digest)) => told.named(b"digest", digest.nonce.as_slice()),
    }
}

/// Tells the value that was written behind other text, `none` if there is none, or why it can't be. `changed` if the text isn't as it was.
fn tell_put(put: Result<bool, FieldFault>, text: &[u8], told: &mut Told) -> Result<(), Fault> {
    let Some(value) = text.strip_prefix(BEFORE) else {
        return Ok(told.fact(b"changed")?);
    };
    match put {
        Ok(true) => return Ok(told.fact(value)?),
        Ok(false) => told.fact(b"none")?,
        Err(FieldFault::OutOfMemory) => return Err(Fault::OutOfMemory),
        Err(fault) => tell_refused(told, fault)?,
    }
    if value.is_empty() {
        return Ok(());
    }
    Ok(told.fact(b"changed")?)
}
