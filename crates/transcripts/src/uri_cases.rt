//! Calls over URIs, paths and names.

use case_texts::{Arguments, Fault, Told, meaning, resolved};
use mounts::{
    Uri, UriFault, ends_in_track, is_name, read_uri, resource_text, rest_after, track_number,
};

/// What a word asks of URIs, paths and names.
#[derive(Clone, Copy, Drop)]
enum UriWord {
    Text(TextWord),
    Rest,
    TrackNumber,
}

/// What is asked of one text.
#[derive(Clone, Copy, Drop)]
enum TextWord {
    Uri,
    Base,
    Name,
    EndsInTrack,
}

const WORDS: [(&str, UriWord); 6] = [
    ("uri", UriWord::Text(TextWord::Uri)),
    ("base", UriWord::Text(TextWord::Base)),
    ("name", UriWord::Text(TextWord::Name)),
    ("ends-in-track", UriWord::Text(TextWord::EndsInTrack)),
    ("rest", UriWord::Rest),
    ("track-number", UriWord::TrackNumber),
];

/// Calls what a word names, of URIs, paths and names.
pub fn call_uris(word: &[u8], arguments: &mut Arguments<'_>, told: &mut Told) -> Result<(), Fault> {
    match meaning(&WORDS, word).ok_or(Fault::UnknownWord)? {
        UriWord::Text(word) => {
            let text = arguments.text(told.alloc())?;
            tell_text(word, &text, told)
        }
        UriWord::Rest => call_rest(arguments, told),
        UriWord::TrackNumber => call_track_number(arguments, told),
    }
}

/// Tells what a word asks of a text.
fn tell_text(word: TextWord, text: &[u8], told: &mut Told) -> Result<(), Fault> {
    match word {
        TextWord::Uri => tell_uri(text, told),
        TextWord::Base => tell_base(text, told),
        TextWord::Name => Ok(told.truth(is_name(text))?),
        TextWord::EndsInTrack => Ok(told.truth(ends_in_track(text))?),
    }
}

/// `rest NAME PATH`.
fn call_rest(arguments: &mut Arguments<'_>, told: &mut Told) -> Result<(), Fault> {
    let name = resolved(told.alloc(), arguments.word().unwrap_or(b""))?;
    let path = arguments.text(told.alloc())?;
    tell_rest(&path, &name, told)
}

/// `track-number COUNT TEXT`.
fn call_track_number(arguments: &mut Arguments<'_>, told: &mut Told) -> Result<(), Fault> {
    let count = arguments.number_to(16)? as usize;
    let number = track_number(&arguments.text(told.alloc())?, count);
    Ok(told.number(number.map(|number| number as u64))?)
}

/// Tells the path and the query of a URI.
fn tell_uri(text: &[u8], told: &mut Told) -> Result<(), Fault> {
    match read_uri(told.alloc(), text) {
        Ok(Uri::Star) => told.fact(b"star")?,
        Ok(Uri::At(target)) => {
            told.named(b"path", target.path.as_slice())?;
            if let Some(query) = &target.query {
                told.named(b"query", query.as_slice())?;
            }
        }
        Err(UriFault::BadUri) => told.fact(b"bad")?,
        Err(UriFault::OutOfMemory) => return Err(Fault::OutOfMemory),
    }
    Ok(())
}

/// Tells the text of a URI without query and fragment, and the base of its relative URLs.
fn tell_base(text: &[u8], told: &mut Told) -> Result<(), Fault> {
    match read_uri(told.alloc(), text) {
        Ok(Uri::Star) => told.fact(b"star")?,
        Ok(Uri::At(target)) => {
            told.named(b"resource", resource_text(text))?;
            told.named(b"base", target.base.as_slice())?;
        }
        Err(UriFault::BadUri) => told.fact(b"bad")?,
        Err(UriFault::OutOfMemory) => return Err(Fault::OutOfMemory),
    }
    Ok(())
}

/// Tells what a path says after a mount's name.
fn tell_rest(path: &[u8], name: &[u8], told: &mut Told) -> Result<(), Fault> {
    match rest_after(path, name) {
        None => told.fact(b"other")?,
        Some(None) => told.fact(b"name")?,
        Some(Some(rest)) => told.named(b"rest", rest)?,
    }
    Ok(())
}
