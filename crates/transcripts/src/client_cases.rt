//! Cases of a client of RTSP servers.

use crate::client_told::{tell_ask, tell_end, tell_turn};
use case_texts::{Arguments, Fault, Told, meaning};
use rtsp_client::{Client, End, FrameFate, ReplyFacts, ReplyHeaders, Side};
use std::alloc::{AllocError, Global};

/// What a word asks of a client.
#[derive(Clone, Copy, Drop)]
enum ClientWord {
    Next,
    Field(FieldWord),
    Reply,
    Described,
    BadDescription,
    Redirected,
    Password,
    Stop,
    Closed,
    Ticks,
    Frame,
    Cut,
    Sent,
    Account,
    Counts,
    EndOf,
}

/// A field of the next reply.
#[derive(Clone, Copy, Drop)]
enum FieldWord {
    Session,
    Transport,
    Public,
}

const WORDS: [(&str, ClientWord); 18] = [
    ("next", ClientWord::Next),
    ("session", ClientWord::Field(FieldWord::Session)),
    ("transport", ClientWord::Field(FieldWord::Transport)),
    ("public", ClientWord::Field(FieldWord::Public)),
    ("reply", ClientWord::Reply),
    ("described", ClientWord::Described),
    ("bad-description", ClientWord::BadDescription),
    ("redirected", ClientWord::Redirected),
    ("password", ClientWord::Password),
    ("stop", ClientWord::Stop),
    ("closed", ClientWord::Closed),
    ("ticks", ClientWord::Ticks),
    ("frame", ClientWord::Frame),
    ("cut", ClientWord::Cut),
    ("sent", ClientWord::Sent),
    ("account", ClientWord::Account),
    ("counts", ClientWord::Counts),
    ("why", ClientWord::EndOf),
];

/// A client, and the fields of the next reply.
#[derive(Drop)]
pub struct ClientCase {
    client: Client,
    session: Option<Vec<u8>>,
    transport: Option<Vec<u8>>,
    public: Option<Vec<u8>>,
}

impl ClientCase {
    /// Both connections are open, and nothing was sent.
    pub fn new() -> ClientCase {
        ClientCase {
            client: Client::new(),
            session: None,
            transport: None,
            public: None,
        }
    }

    /// Calls what a word names.
    pub fn call(
        &mut self,
        word: &[u8],
        arguments: &mut Arguments<'_>,
        told: &mut Told,
    ) -> Result<(), Fault> {
        match meaning(&WORDS, word).ok_or(Fault::UnknownWord)? {
            ClientWord::Next => self.next(arguments, told),
            ClientWord::Field(field) => self.set_field(field, arguments, told.alloc()),
            ClientWord::Reply => self.reply(arguments, told),
            ClientWord::Described => {
                self.client.described(arguments.number()? as usize);
                Ok(())
            }
            ClientWord::BadDescription => {
                self.client.description_is_bad();
                Ok(())
            }
            ClientWord::Redirected => {
                self.client.redirected();
                Ok(())
            }
            ClientWord::Password => self.answer_challenge(arguments),
            ClientWord::Stop => tell_turn(self.client.stops(), told),
            ClientWord::Closed => self.close(arguments),
            ClientWord::Ticks => self.tick(arguments, told),
            ClientWord::Frame => self.take_frame(arguments, told),
            ClientWord::Cut => {
                self.client.cut_frame();
                Ok(())
            }
            ClientWord::Sent => self.send(arguments),
            ClientWord::Account => Ok(self.tell_account(told)?),
            ClientWord::Counts => self.tell_counts(arguments, told),
            ClientWord::EndOf => tell_end(self.client.end(), told),
        }
    }

    /// `next NOW`.
    fn next(&mut self, arguments: &mut Arguments<'_>, told: &mut Told) -> Result<(), Fault> {
        match self.client.next(u64::from(arguments.number()?)) {
            Some(ask) => Ok(tell_ask(&ask, told)?),
            None => Ok(told.fact(b"none")?),
        }
    }

    /// `session TEXT`, `transport TEXT`, `public TEXT`.
    fn set_field(
        &mut self,
        field: FieldWord,
        arguments: &mut Arguments<'_>,
        alloc: Global,
    ) -> Result<(), Fault> {
        let text = Some(arguments.text(alloc)?);
        match field {
            FieldWord::Session => self.session = text,
            FieldWord::Transport => self.transport = text,
            FieldWord::Public => self.public = text,
        }
        Ok(())
    }

    /// `reply SIDE NOW STATUS`, `reply SIDE NOW STATUS CSEQ`.
    fn reply(&mut self, arguments: &mut Arguments<'_>, told: &mut Told) -> Result<(), Fault> {
        let side = side_of(arguments)?;
        let now = u64::from(arguments.number()?);
        let status = arguments.short()?;
        let cseq = if arguments.is_empty() {
            None
        } else {
            Some(arguments.number()?)
        };
        let facts = self.facts(told.alloc(), cseq, status)?;
        tell_turn(self.client.replied(side, facts, now), told)
    }

    /// The facts of a reply with the fields that were set, which are then forgotten.
    fn facts(
        &mut self,
        alloc: Global,
        cseq: Option<u32>,
        status: u16,
    ) -> Result<ReplyFacts, AllocError> {
        let session = self.session.take();
        let transport = self.transport.take();
        let public = self.public.take();
        ReplyFacts::of(
            alloc,
            ReplyHeaders {
                cseq,
                status,
                session: session.as_deref(),
                transport: transport.as_deref(),
                public: public.as_deref(),
            },
        )
    }

    /// `password yes`, `password no`.
    fn answer_challenge(&mut self, arguments: &mut Arguments<'_>) -> Result<(), Fault> {
        let has_password = arguments.word() == Some(b"yes".as_slice());
        self.client.answers_challenge(has_password);
        Ok(())
    }

    /// `closed SIDE`.
    fn close(&mut self, arguments: &mut Arguments<'_>) -> Result<(), Fault> {
        let side = side_of(arguments)?;
        self.client.ended(End::StreamEnded { side });
        Ok(())
    }

    /// `ticks SIDE NOW`.
    fn tick(&mut self, arguments: &mut Arguments<'_>, told: &mut Told) -> Result<(), Fault> {
        let side = side_of(arguments)?;
        let now = u64::from(arguments.number()?);
        tell_turn(self.client.ticks(side, now), told)
    }

    /// `frame CHANNEL TEXT`.
    fn take_frame(&mut self, arguments: &mut Arguments<'_>, told: &mut Told) -> Result<(), Fault> {
        let channel = arguments.byte()?;
        let payload = arguments.text(told.alloc())?;
        match self.client.frame(channel, &payload) {
            FrameFate::Waits { channel } => {
                Ok(told.fact(format!(in told.alloc(); "to {channel}")?.as_bytes())?)
            }
            FrameFate::UnknownChannel => Ok(told.fact(b"unknown channel")?),
            FrameFate::BeforeRecording => Ok(told.fact(b"before recording")?),
            FrameFate::Unsent => Ok(told.fact(b"unsent")?),
        }
    }

    /// `sent FRAMES NOW`.
    fn send(&mut self, arguments: &mut Arguments<'_>) -> Result<(), Fault> {
        let frames = u64::from(arguments.number()?);
        let now = u64::from(arguments.number()?);
        self.client.sent(frames, now);
        Ok(())
    }

    fn tell_account(&self, told: &mut Told) -> Result<(), AllocError> {
        let account = self.client.account();
        let came = account.came();
        let sent = account.sent();
        let unknown = account.unknown_channel();
        let before = account.before_recording();
        let unsent = account.unsent();
        let line = format!(in told.alloc();
            "came {came} sent {sent} unknown {unknown} before {before} unsent {unsent}"
        )?;
        told.fact(line.as_bytes())
    }

    /// `counts TRACK`.
    fn tell_counts(&self, arguments: &mut Arguments<'_>, told: &mut Told) -> Result<(), Fault> {
        let track = arguments.number_to(15)? as usize;
        let Some(counts) = self.client.counts().of_track(track) else {
            return Ok(told.fact(b"none")?);
        };
        let missing = counts.missing();
        let late = counts.late();
        let restarts = counts.restarts();
        let line = format!(in told.alloc(); "missing {missing} late {late} restarts {restarts}")?;
        Ok(told.fact(line.as_bytes())?)
    }
}

/// Takes a side.
fn side_of(arguments: &mut Arguments<'_>) -> Result<Side, Fault> {
    const SIDES: [(&str, Side); 2] = [("source", Side::Source), ("target", Side::Target)];
    meaning(&SIDES, arguments.word().unwrap_or(b"")).ok_or(Fault::UnknownWord)
}
