//! What a case is run over.

use crate::book_cases::{BookCase, Cutting};
use crate::client_cases::ClientCase;
use crate::description_cases::tell_description;
use crate::header_cases::HeaderCase;
use crate::kind::Topic;
use crate::log_cases::LogCase;
use crate::mount_cases::MountCase;
use crate::network_cases::call_networks;
use crate::reply_cases::call_reply;
use crate::ring_cases::RingCase;
use crate::server_stream_cases::ServerStreamCase;
use crate::source_cases::SourceCase;
use crate::steps_cases::StepsCase;
use crate::stream_cases::StreamCase;
use base_syntax::cut;
use case_texts::{Arguments, Fault, Input, Told};
use std::alloc::{AllocError, Global};
use std::collections::hash_map::RandomState;

/// What a case is run over.
#[derive(Drop)]
pub enum Subject {
    Book(BookCase),
    Stream(StreamCase),
    ServerStream(ServerStreamCase),
    Client(ClientCase),
    Reply,
    Sdp,
    SourceSdp(SourceCase),
    Header(HeaderCase),
    Mounts(MountCase),
    Networks,
    Log(LogCase),
    Ring(RingCase),
    Steps(StepsCase),
}

impl Subject {
    /// That of a case that begins. Each mount of a book has one seat.
    pub fn new(
        alloc: Global,
        hasher: RandomState,
        cutting: Cutting,
        topic: Topic,
    ) -> Result<Subject, AllocError> {
        Ok(match topic {
            Topic::Book => Subject::Book(BookCase::new(alloc, hasher, 1, cutting)),
            Topic::Stream => Subject::Stream(StreamCase::new(alloc)),
            Topic::ServerStream => Subject::ServerStream(ServerStreamCase::new(alloc)),
            Topic::Client => Subject::Client(ClientCase::new()),
            Topic::Reply => Subject::Reply,
            Topic::Sdp => Subject::Sdp,
            Topic::SourceSdp => Subject::SourceSdp(SourceCase::new()),
            Topic::Header => Subject::Header(HeaderCase::new()),
            Topic::Mounts => Subject::Mounts(MountCase::new(alloc, hasher)?),
            Topic::Networks => Subject::Networks,
            Topic::Log => Subject::Log(LogCase::new()),
            Topic::Ring => Subject::Ring(RingCase::new(alloc)),
            Topic::Steps => Subject::Steps(StepsCase::new()),
        })
    }

    /// Runs a step, and tells what comes out.
    pub fn run(&mut self, input: &Input, told: &mut Told) -> Result<(), Fault> {
        match input {
            Input::Block { from, bytes } => self.take_in(from.unwrap_or(0), bytes, told),
            Input::Call(line) => {
                let (word, behind) = cut(line, b' ');
                let mut arguments = Arguments::new(behind);
                self.call(word, &mut arguments, told)?;
                arguments.end()
            }
            Input::End => match self {
                Subject::Stream(case) => Ok(case.read_again(told)?),
                Subject::ServerStream(case) => Ok(case.read_again(told)?),
                _ => Ok(()),
            },
        }
    }

    /// Takes in the bytes of lines.
    fn take_in(&mut self, from: u32, bytes: &[u8], told: &mut Told) -> Result<(), Fault> {
        match self {
            Subject::Book(case) => case.ask(u64::from(from), bytes, told),
            Subject::Stream(case) => Ok(case.feed(bytes, told)?),
            Subject::ServerStream(case) => Ok(case.feed(bytes, told)?),
            Subject::Sdp => Ok(tell_description(bytes, told)?),
            Subject::SourceSdp(case) => Ok(case.describe(bytes, told)?),
            Subject::Mounts(case) => Ok(case.describe(bytes)?),
            Subject::Steps(case) => Ok(case.tell(bytes, told)?),
            Subject::Client(_)
            | Subject::Reply
            | Subject::Header(_)
            | Subject::Networks
            | Subject::Log(_)
            | Subject::Ring(_) => Err(Fault::NoInput),
        }
    }

    fn call(
        &mut self,
        word: &[u8],
        arguments: &mut Arguments<'_>,
        told: &mut Told,
    ) -> Result<(), Fault> {
        match self {
            Subject::Book(case) => case.call(word, arguments, told),
            // Nothing is between two pieces but their border.
            Subject::Stream(_) | Subject::ServerStream(_) if word == b"feed".as_slice() => Ok(()),
            Subject::Client(case) => case.call(word, arguments, told),
            Subject::SourceSdp(case) => case.call(word, arguments, told),
            Subject::Reply => call_reply(word, arguments, told),
            Subject::Header(case) => case.call(word, arguments, told),
            Subject::Mounts(case) => case.call(word, arguments, told),
            Subject::Networks => call_networks(word, arguments, told),
            Subject::Log(case) => case.call(word, arguments, told),
            Subject::Ring(case) => case.call(word, arguments, told),
            Subject::Steps(case) => case.call(word, arguments),
            Subject::Stream(_) | Subject::ServerStream(_) | Subject::Sdp => {
                Err(Fault::UnknownWord)
            }
        }
    }
}
