//! One connection, from its first byte to its end.
ghost use Rattle.std.specs.Prelude.{◌≡◌, ◌<◌, ℕ, List, None, true, length, take, IfOk, IfErr, OnErr, OnOk, string_bytes};
ghost use Rattle.std.specs.Io.KnownBytes.{Appends};
ghost use Rattle.rtsp_message.specs.Reply.{plain_text};
ghost use Rattle.session_state.specs.Lookups.{is_open};
ghost use Rattle.relay_talk.specs.Exchange.{Draws, IsAnswer, given_with};
ghost use Rattle.relay_talk.specs.Publishing.{AnswersPublishing};
ghost use Rattle.relay_talk.specs.Seat.{PassAfterAnswer, SeatAfterAnswer};
ghost use Rattle.relay_talk.specs.Taking.{TakesWith, TalksOn, talk_state};
ghost use Rattle.relay_talk.specs.Talk.{DoesTalk, IsTalked, Talks, exit_status, exit_line, status_of as fixed_status};

use crate::talker::Talker;
use interleaved::{Sink, Source, WriteCut, write_all};
use publisher::InStop;
use rtsp_message::{Fault, Intake, Request, Status, put_plain};
use session_state::{Moments, Words};
use std::alloc::{AllocError, Global};
use std::collections::hash_map::RandomState;

/// How a talk ended.
#[derive(Clone, Copy, Debug, PartialEq, Eq)]
pub enum TalkEnd {
    /// The reader is at its end.
    Done,
    StreamFault(Fault),
    ReadFailed,
    WriteFailed,
    /// The reader was refused memory, or the connection before anything was read.
    OutOfMemory,
}

/// Answers the requests of one connection, in order, to its end.
///
/// Its history stands in a book of its own, whose mounts have one seat and a ring each. A word and a moment are asked for once a
/// message; where the session has expired by then, it ends first. What comes in while the session records is published; other
/// frames are dropped. A fault of the stream, a failed device,
/// and memory that runs out in the reader or at the connection's coming, end it. Where memory is refused for a ring or a reply,
/// 503 stands in the reply's place. The reader is given back, as far as it was read.
pub fn run_talk<R: Source + Drop, W: Sink, V: Words, N: Moments>(
    alloc: Global,
    hasher: RandomState,
    reader: R,
    writer: &mut W,
    words: &mut V,
    moments: &mut N,
) -> (TalkEnd, R)
    ensures { Talks R.incoming R.failed W.written W.failed (Draws V.gives N.gives) reader result.1 (words.old, moments.old) (words.new, moments.new) writer.old writer.new result.0 }
{
    let Ok(mut talker) = Talker::connect(alloc, hasher) else {
        if let Err(_) = write_plain(writer, Status::ServiceUnavailable, None) {
            return (TalkEnd::WriteFailed, reader);
        }
        return (TalkEnd::OutOfMemory, reader);
    };
    let mut intake = Intake::new(alloc, reader);
    let end = talker.answer_all(&mut intake, writer, words, moments);
    talker.leave();
    (end, intake.into_source())
}

impl Talker {
    /// Answers the messages of an intake to its end, and publishes the frames that come in while the session records. Each answer
    /// is written before more is read: no clause says so, `prompt_tests` of `talk_tests` show it.
    pub fn answer_all<R: Source + Drop, W: Sink, V: Words, N: Moments>(
        &mut self,
        intake: &mut Intake<R>,
        writer: &mut W,
        words: &mut V,
        moments: &mut N,
    ) -> TalkEnd
        requires open { is_open 1 self.old.book.history ≡ true }
        requires seats { self.old.book.seats ≡ 1 }
        ensures talks { TalksOn R.incoming R.failed W.written W.failed (Draws V.gives N.gives) intake.old intake.new (words.old, moments.old) (words.new, moments.new) (talk_state self.old) (talk_state self.new) writer.old writer.new result }
        ensures open { is_open 1 self.new.book.history ≡ true }
        ensures seats { self.new.book.seats ≡ 1 }
    {
        loop {
            match self.next_message(intake) {
                InStop::Message(request) => {
                    if let Err(_) = answer_message(self, words, moments, writer, &request) {
                        return TalkEnd::WriteFailed;
                    }
                }
                InStop::End => return TalkEnd::Done,
                InStop::Fault(fault) => {
                    if let Err(_) = write_plain(writer, status_of(fault), None) {
                        return TalkEnd::WriteFailed;
                    }
                    return TalkEnd::StreamFault(fault);
                }
                InStop::ReadFailed => return TalkEnd::ReadFailed,
                InStop::OutOfMemory => {
                    if let Err(_) = write_plain(writer, Status::ServiceUnavailable, None) {
                        return TalkEnd::WriteFailed;
                    }
                    return TalkEnd::OutOfMemory;
                }
            }
        }
    }
}

/// Answers a message, with a word and at a moment of its own, by which its session may have expired.
fn answer_message<W: Sink, V: Words, N: Moments>(
    talker: &mut Talker,
    words: &mut V,
    moments: &mut N,
    writer: &mut W,
    request: &Request,
) -> Result<(), WriteCut>
    requires seats { talker.old.book.seats ≡ 1 }
    requires open { is_open 1 talker.old.book.history ≡ true }
    ensures ok { OnOk result ((text : List ℕ) × TakesWith (Draws V.gives N.gives) (words.old, moments.old) (words.new, moments.new) (talk_state talker.old) request.now (talk_state talker.new) text × Appends (W.written writer.old) (W.written writer.new) text) }
    ensures cut { IfErr result (λ cut. (text : List ℕ) × TakesWith (Draws V.gives N.gives) (words.old, moments.old) (words.new, moments.new) (talk_state talker.old) request.now (talk_state talker.new) text × (cut.written < length text) × Appends (W.written writer.old) (W.written writer.new) (take cut.written text)) }
    ensures failed { IfErr result (λ _. W.failed writer.new ≡ true) }
    ensures kept { talker.new.book.seats ≡ 1 }
{
    let word = words.word();
    let now = moments.now();
    talker.hear(now);
    answer(talker, word, now, writer, request)
}

/// Writes the reply to a request, or 503 where memory is refused for it.
fn answer<W: Sink>(
    talker: &mut Talker,
    word: u32,
    now: u64,
    writer: &mut W,
    request: &Request,
) -> Result<(), WriteCut>
    requires seats { talker.old.book.seats ≡ 1 }
    requires open { is_open 1 talker.old.book.history ≡ true }
    ensures ok { OnOk result ((text : List ℕ) × IsAnswer talker.old.book.history request.now (given_with word now) talker.new.book.history text × Appends (W.written writer.old) (W.written writer.new) text) }
    ensures cut { IfErr result (λ cut. (text : List ℕ) × IsAnswer talker.old.book.history request.now (given_with word now) talker.new.book.history text × (cut.written < length text) × Appends (W.written writer.old) (W.written writer.new) (take cut.written text)) }
    ensures failed { IfErr result (λ _. W.failed writer.new ≡ true) }
    ensures publishing { AnswersPublishing talker.old.book.history request.now (given_with word now) talker.new.book.history talker.old.publishing talker.new.publishing }
    ensures seat { SeatAfterAnswer talker.old.book request.now (given_with word now) talker.new.book.history talker.old.seat talker.new.seat }
    ensures back { PassAfterAnswer talker.old.book request.now (given_with word now) talker.old.seat talker.new.book }
    ensures kept { talker.new.book.seats ≡ 1 }
    ensures heard { talker.new.heard ≡ talker.old.heard }
{
    match talker.reply_bytes(word, now, request) {
        Some(text) => write_all(writer, text.as_slice()),
        None => write_plain(writer, Status::ServiceUnavailable, request.cseq),
    }
}

/// Writes a reply that has no field but CSeq. It takes no memory.
fn write_plain<W: Sink>(writer: &mut W, status: Status, cseq: Option<u32>) -> Result<(), WriteCut>
    ensures ok { OnOk result (Appends (W.written writer.old) (W.written writer.new) (plain_text status cseq)) }
    ensures cut { IfErr result (λ cut. (cut.written < length (plain_text status cseq)) × Appends (W.written writer.old) (W.written writer.new) (take cut.written (plain_text status cseq))) }
    ensures failed { IfErr result (λ _. W.failed writer.new ≡ true) }
{
    let mut text = [0; 128];
    let len = put_plain(&mut text, status, cseq);
    write_all(writer, &text[..len])
}

/// What the fixed text after a fault says.
fn status_of(fault: Fault) -> Status
    ensures { result ≡ fixed_status fault }
{
    match fault {
        Fault::BadLine | Fault::BadHeader | Fault::BadLength => Status::BadRequest,
        Fault::HeadTooLong | Fault::BodyTooLong => Status::RequestEntityTooLarge,
    }
}

/// The exit status of a talk, and the line that stands on standard error after it: empty at status 0.
pub fn talk_end(alloc: Global, end: &TalkEnd) -> Result<(u8, String), AllocError>
    ensures status { IfOk result (λ r. r.0 ≡ exit_status end.now) }
    ensures line { IfOk result (λ r. string_bytes r.1 ≡ exit_line end.now) }
{
    match end {
        TalkEnd::Done => Ok((0, String::new(alloc))),
        TalkEnd::StreamFault(fault) => {
            let number = fault.number();
            Ok((1, format!(in alloc; "relay: stream fault {number}")?))
        }
        TalkEnd::ReadFailed => Ok((1, String::from_str(alloc, "relay: read failed")?)),
        TalkEnd::WriteFailed => Ok((1, String::from_str(alloc, "relay: write failed")?)),
        TalkEnd::OutOfMemory => Ok((1, String::from_str(alloc, "relay: out of memory")?)),
    }
}

/// How a task ended: the exit status, and the line for standard error, which is empty at status 0.
#[derive(Debug, Drop)]
pub struct Ended {
    pub status: u8,
    pub line: String,
}

/// Answers one connection, and tells how that ended. The only error is that memory runs out for the line, with the connection
/// answered.
pub fn do_talk<R: Source + Drop, W: Sink, V: Words, N: Moments>(
    alloc: Global,
    hasher: RandomState,
    reader: R,
    writer: &mut W,
    words: &mut V,
    moments: &mut N,
) -> Result<Ended, AllocError>
    ensures ok { IfOk result (λ ended. DoesTalk R.incoming R.failed W.written W.failed (Draws V.gives N.gives) reader (words.old, moments.old) (words.new, moments.new) writer.old writer.new ended.status (string_bytes ended.line)) }
    ensures err { OnErr result (IsTalked R.incoming R.failed W.written W.failed (Draws V.gives N.gives) reader (words.old, moments.old) (words.new, moments.new) writer.old writer.new) }
{
    let (end, _last) = run_talk(alloc, hasher, reader, writer, words, moments);
    let (status, line) = talk_end(alloc, &end)?;
    Ok(Ended { status, line })
}
