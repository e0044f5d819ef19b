//! What is wrong with the URLs of a command line.
use base_syntax::Bytes;
use pull_plan::PullSettings;
use rtsp_auth::{Credentials, CredentialsFault};
use source_urls::{Source, UrlFault, read_source, read_target};
use std::alloc::Global;
use std::fmt;

/// What is wrong with the URLs of a command line. No part of a URL is repeated, since it can have a password.
#[derive(Clone, Copy, Debug, PartialEq, Eq, Drop)]
pub enum UrlLine {
    Source(UrlFault),
    Target(UrlFault),
    /// A password file is given, and the source's URL has no user.
    NoUser,
    /// The user of the source's URL can't be sent.
    User(CredentialsFault),
}

impl fmt::Display for UrlLine {
    fn fmt<W: fmt::Write>(&self, f: &mut fmt::Formatter<W>) -> fmt::Result {
        match *self {
            UrlLine::Source(fault) => write!(f, "relay: pull: SOURCE: {fault}"),
            UrlLine::Target(fault) => write!(f, "relay: pull: TARGET: {fault}"),
            UrlLine::User(fault) => write!(f, "relay: pull: SOURCE: {fault}"),
            UrlLine::NoUser => {
                write!(
                    f,
                    "relay: pull: SOURCE: no user in URL, and --password-file is given"
                )
            }
        }
    }
}

/// Reads the URLs of a command line. An error says what is wrong with the first bad one.
pub fn read_urls(alloc: Global, settings: &PullSettings) -> Result<(), UrlLine> {
    let source = read_source(alloc, settings.source.as_str().as_bytes()).map_err(UrlLine::Source)?;
    read_target(alloc, settings.target.as_str().as_bytes()).map_err(UrlLine::Target)?;
    if settings.password_file.is_none() {
        return Ok(());
    }
    let Source {
        user,
        host: _,
        port: _,
        uri: _,
    } = source;
    match user {
        Some(user) => check_user(alloc, user),
        None => Err(UrlLine::NoUser),
    }
}

/// Fails if a user name can't be sent, whatever the password is.
fn check_user(alloc: Global, user: Bytes) -> Result<(), UrlLine> {
    match Credentials::new(user, Bytes::empty(alloc), Bytes::empty(alloc)) {
        Ok(_) => Ok(()),
        Err(fault) => Err(UrlLine::User(fault)),
    }
}
