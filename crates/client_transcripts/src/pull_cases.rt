//! Cases of a try of a pull, between servers whose texts a case has.

use crate::pull_making::made;
use crate::pull_words::{PullWord, ToldWord, TryWord, side_of, word_named};
use crate::telling::{tell_place, tell_printed};
use case_texts::{Arguments, Fault, Told};
use pull_session::{BLOCK_BYTES, PullSession};
use rtsp_client::{End, Side};
use std::alloc::{AllocError, Global};

/// A try, once one was made.
#[derive(Drop)]
pub struct PullCase {
    session: Option<PullSession>,
    clock: Clock,
}

/// The moment of a try, and how the source is read.
#[derive(Drop)]
struct Clock {
    /// The moment, in milliseconds.
    now: u64,
    /// How many times the next input comes.
    times: u32,
    /// The block that was exchanged last, if the source is read in blocks.
    block: Option<Vec<u8>>,
}

impl PullCase {
    /// No try.
    pub fn new() -> PullCase {
        PullCase {
            session: None,
            clock: Clock {
                now: 0,
                times: 1,
                block: None,
            },
        }
    }

    /// Bytes come of the source (1) or of the target (2).
    pub fn take_in(&mut self, from: u32, bytes: &[u8], alloc: Global) -> Result<(), Fault> {
        let side = match from {
            1 => Side::Source,
            2 => Side::Target,
            _ => return Err(Fault::BadConnection),
        };
        match &mut self.session {
            Some(session) => read(session, &mut self.clock, side, bytes, alloc),
            None => Err(Fault::TooEarly),
        }
    }

    pub fn call(
        &mut self,
        word: &[u8],
        arguments: &mut Arguments<'_>,
        told: &mut Told,
    ) -> Result<(), Fault> {
        match word_named(word)? {
            PullWord::Pull => {
                let session = made(arguments, told.alloc())?;
                self.session = Some(session);
                Ok(())
            }
            // Nothing is between two inputs but their border.
            PullWord::Feed => Ok(()),
            PullWord::Times => {
                self.clock.times = arguments.number()?;
                Ok(())
            }
            PullWord::Try(word) => match &mut self.session {
                Some(session) => call_try(session, &mut self.clock, word, arguments, told),
                None => Err(Fault::TooEarly),
            },
        }
    }
}

/// Bytes of a side come, the number of times that was given for them.
fn read(
    session: &mut PullSession,
    clock: &mut Clock,
    side: Side,
    bytes: &[u8],
    alloc: Global,
) -> Result<(), Fault> {
    let times = clock.times;
    clock.times = 1;
    for _ in 0..times {
        if side == Side::Source && clock.block.is_some() {
            clock.block = Some(read_block(session, bytes, clock.now, alloc)?);
        } else {
            session.read(side, bytes, clock.now);
        }
    }
    Ok(())
}

/// Bytes of the source come in a block. Returns the block that is exchanged for it.
fn read_block(
    session: &mut PullSession,
    bytes: &[u8],
    now: u64,
    alloc: Global,
) -> Result<Vec<u8>, Fault> {
    if bytes.len() > BLOCK_BYTES {
        return Err(Fault::BadNumber);
    }
    let mut block = Vec::from_slice(alloc, bytes)?;
    block.resize(BLOCK_BYTES, 0)?;
    session.read_block(&mut block, bytes.len(), now);
    Ok(block)
}

fn call_try(
    session: &mut PullSession,
    clock: &mut Clock,
    word: TryWord,
    arguments: &mut Arguments<'_>,
    told: &mut Told,
) -> Result<(), Fault> {
    match word {
        TryWord::Waiting => {
            let side = side_of(arguments)?;
            Ok(take_waiting(session, side, clock.now, told)?)
        }
        TryWord::Fewer => {
            let side = side_of(arguments)?;
            let bound = arguments.number()? as usize;
            Ok(told.truth(session.waiting(side).len() < bound)?)
        }
        TryWord::Took => {
            let side = side_of(arguments)?;
            session.took(side, arguments.number()? as usize, clock.now);
            Ok(())
        }
        TryWord::Passes => {
            clock.now = clock.now.saturating_add(u64::from(arguments.number()?));
            session.advance(clock.now);
            Ok(())
        }
        TryWord::Closed => {
            let side = side_of(arguments)?;
            session.lose(side, End::StreamEnded { side }, clock.now);
            Ok(())
        }
        TryWord::Lost => {
            let side = side_of(arguments)?;
            session.lose(side, End::ConnectionLost { side }, clock.now);
            Ok(())
        }
        TryWord::Stop => {
            session.stop(clock.now);
            Ok(())
        }
        TryWord::Redirected => {
            session.redirected();
            Ok(())
        }
        TryWord::Blocks => Ok(begin_blocks(session, clock, told.alloc())?),
        TryWord::Swap => swap(session, clock, arguments, told),
        TryWord::Told(word) => tell_try(session, clock.now, word, arguments, told),
    }
}

/// `waiting SIDE`: what waits for a side after what is due was sent. It is taken.
fn take_waiting(
    session: &mut PullSession,
    side: Side,
    now: u64,
    told: &mut Told,
) -> Result<(), AllocError> {
    session.advance(now);
    let waiting = session.waiting(side);
    told.text.extend_from_slice(waiting)?;
    let count = waiting.len();
    session.took(side, count, now);
    Ok(())
}

/// `blocks`: gives a block. From now on what comes of the source comes in blocks.
fn begin_blocks(
    session: &mut PullSession,
    clock: &mut Clock,
    alloc: Global,
) -> Result<(), AllocError> {
    clock.block = Some(Vec::new(alloc));
    let block = vec![in alloc; 0; BLOCK_BYTES]?;
    session.give_block(block);
    Ok(())
}

/// `swap COUNT`: exchanges the block that was exchanged last. Tells the length of the one that comes, and this number of its first bytes.
fn swap(
    session: &mut PullSession,
    clock: &mut Clock,
    arguments: &mut Arguments<'_>,
    told: &mut Told,
) -> Result<(), Fault> {
    let count = arguments.number()? as usize;
    let Some(block) = &mut clock.block else {
        return Err(Fault::TooEarly);
    };
    session.swap_block(block);
    let len = block.len();
    let head = format!(in told.alloc(); "{len}")?;
    Ok(told.named(head.as_bytes(), &block[..count.min(len)])?)
}

fn tell_try(
    session: &PullSession,
    now: u64,
    word: ToldWord,
    arguments: &mut Arguments<'_>,
    told: &mut Told,
) -> Result<(), Fault> {
    match word {
        ToldWord::Reason => Ok(tell_reason(session, told)?),
        ToldWord::Over => {
            let later = now.saturating_add(u64::from(arguments.number_or(0)?));
            Ok(told.truth(session.is_over(later))?)
        }
        ToldWord::Reads => Ok(told.truth(session.may_read_source())?),
        ToldWord::Redirect => Ok(tell_redirect(session, told)?),
        ToldWord::Account => Ok(tell_account(session, told)?),
    }
}

/// `reason`: why the try ends.
fn tell_reason(session: &PullSession, told: &mut Told) -> Result<(), AllocError> {
    match session.reason() {
        Some(reason) => tell_printed(told, reason),
        None => told.fact(b"none"),
    }
}

/// `redirect`: the place that a redirect names.
fn tell_redirect(session: &PullSession, told: &mut Told) -> Result<(), AllocError> {
    match session.redirect() {
        Some(place) => tell_place(
            told,
            place.host.as_slice(),
            place.port,
            place.uri.as_slice(),
        ),
        None => told.fact(b"none"),
    }
}

/// `account`: what became of the frames.
fn tell_account(session: &PullSession, told: &mut Told) -> Result<(), AllocError> {
    let account = session.account();
    let came = account.came();
    let sent = account.sent();
    let unknown = account.unknown_channel();
    let before = account.before_recording();
    let unsent = account.unsent();
    let line = format!(in told.alloc();
        "came {came} sent {sent} unknown {unknown} before {before} unsent {unsent}"
    )?;
    told.fact(line.as_bytes())
}
