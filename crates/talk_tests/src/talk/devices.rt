//! Talks over devices in memory.
ghost use Rattle.std.specs.Prelude.{◌≡◌};

use interleaved::{ListSink, ListSource, Source};
use relay_talk::{TalkEnd, run_talk};
use session_state::{Moments, Words};
use session_words::FixedWord;
use std::alloc::Global;
use std::collections::hash_map::RandomState;
use std::process::Abort;
use std::test::Fail;

/// The environment of a talk.
#[derive(Clone, Copy)]
pub(crate) struct Host {
    pub alloc: Global,
    pub hasher: RandomState,
    /// The word of each session identifier.
    pub word: u32,
}

pub(crate) fn made_host(rt: &HostRuntime, word: u32) -> Result<Host, Fail> {
    Ok(Host {
        alloc: rt.alloc(),
        hasher: RandomState::new(rt)?,
        word,
    })
}

/// A clock that is always at 0.
#[derive(Drop)]
pub(crate) struct Still;

impl Moments for Still {
    ghost gives = { λ _ moment _. moment ≡ 0 };

    fn now(&mut self) -> u64 {
        0
    }
}

/// How the bytes of a talk come and go: at most `piece` bytes a read, up to a place at which the source fails, into a sink
/// with this room.
#[derive(Clone, Copy, Debug)]
pub(crate) struct Devices {
    pub piece: usize,
    pub fail_at: Option<usize>,
    pub room: usize,
}

/// Devices that don't fail.
pub(crate) fn in_pieces(piece: usize) -> Devices {
    Devices {
        piece,
        fail_at: None,
        room: 100_000,
    }
}

/// The outcome of a talk.
#[derive(Drop)]
pub(crate) struct Outcome {
    pub end: TalkEnd,
    /// What it wrote.
    pub written: Vec<u8>,
    /// How many bytes it left unread.
    pub left: u64,
}

/// Returns the outcome of a talk of this input, with these words, by a clock that is always at 0.
pub(crate) fn outcome_of<V: Words>(
    host: Host,
    input: &[u8],
    devices: Devices,
    words: &mut V,
) -> Result<Outcome, Fail> {
    outcome_at(host, input, devices, words, &mut Still)
}

/// Returns the outcome of a talk of this input, with these words and at these moments.
pub(crate) fn outcome_at<V: Words, N: Moments>(
    host: Host,
    input: &[u8],
    devices: Devices,
    words: &mut V,
    moments: &mut N,
) -> Result<Outcome, Fail> {
    let bytes = Vec::from_slice(host.alloc, input)?;
    let source = ListSource::new(bytes, devices.piece.max(1), devices.fail_at);
    let mut sink = ListSink::new(host.alloc, devices.room)?;
    let (end, last) = run_talk(host.alloc, host.hasher, source, &mut sink, words, moments);
    Ok(Outcome {
        end,
        written: sink.into_vec(),
        left: last.left(),
    })
}

/// Asserts that a talk of this input writes this text, and has this end.
pub(crate) fn expect_talk(
    rt: &impl Abort,
    host: Host,
    input: &[u8],
    devices: Devices,
    want: &[u8],
    want_end: &TalkEnd,
) -> Result<(), Fail> {
    let outcome = outcome_of(host, input, devices, &mut FixedWord(host.word))?;
    assert!(rt;
        outcome.written.as_slice() == want && outcome.end == *want_end,
        "{devices:?} {input:?}"
    );
    Ok(())
}
