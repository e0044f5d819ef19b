//! Making a try of a pull.

use crate::telling::word_of;
use base_syntax::Bytes;
use case_texts::{Arguments, Fault};
use pull_session::{PullOptions, PullSession};
use rtsp_auth::Credentials;
use source_urls::{read_source, read_target};
use std::alloc::Global;

/// The target of each try.
const TARGET: &[u8] = b"rtsp://127.0.0.1:8554/door";

/// The user that a password is of.
const USER: &[u8] = b"admin";

/// What the client draws for each try.
const CNONCE: &[u8] = b"0a4f113b";

const OPTIONS: PullOptions = PullOptions {
    takes_audio: true,
    takes_video: true,
    silent: 10_000,
};

/// Makes a try: `pull URL` or `pull URL PASSWORD`.
pub fn made(arguments: &mut Arguments<'_>, alloc: Global) -> Result<PullSession, Fault> {
    let url = word_of(arguments, alloc)?;
    let Ok(target) = read_target(alloc, TARGET) else {
        return Err(Fault::BadUrl);
    };
    let Ok(source) = read_source(alloc, &url) else {
        return Err(Fault::BadUrl);
    };
    let credentials = credentials_for(arguments, source.host.as_slice(), alloc)?;
    let cnonce = Bytes::from_slice(alloc, CNONCE)?;
    Ok(PullSession::new(alloc, source, target, credentials, cnonce, OPTIONS))
}

/// Returns the credentials of the password that is given, if there is one.
fn credentials_for(
    arguments: &mut Arguments<'_>,
    host: &[u8],
    alloc: Global,
) -> Result<Option<Credentials>, Fault> {
    if arguments.is_empty() {
        return Ok(None);
    }
    let password = Bytes::new(word_of(arguments, alloc)?);
    let user = Bytes::from_slice(alloc, USER)?;
    let host = Bytes::from_slice(alloc, host)?;
    match Credentials::new(user, password, host) {
        Ok(credentials) => Ok(Some(credentials)),
        Err(_) => Err(Fault::BadUrl),
    }
}
