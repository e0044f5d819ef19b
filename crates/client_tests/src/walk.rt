//! A client in a random exchange, beside what its table of replies says.
ghost use Rattle.std.specs.Prelude.{◌<◌};

use crate::draws::{EVENTS, STATUSES, TRANSPORTS};
use crate::outcome::{Finding, Outcome, unless};
use crate::table::is_by_table;
use rand::rngs::SmallRng;
use rand_core::{Rng, SeedableRng};
use rtsp_client::{
    Ask, Asked, Client, FrameFate, Method, ReplyFacts, ReplyHeaders, Side, StatusClass, Turn,
    Verdict,
};
use std::alloc::{AllocError, Global};

/// A random exchange.
#[derive(Drop)]
pub(crate) struct Walk {
    client: Client,
    rng: SmallRng,
    now: u64,
    /// The number of the last request of each side.
    numbers: [u32; 2],
    /// What waits for its reply at each side, and since when.
    waiting: [Option<Asked>; 2],
    sent_at: [u64; 2],
    is_described: bool,
    is_recording: bool,
    /// Which tracks of the description are set up, in their order.
    kept: Vec<usize>,
    /// Which of them is asked for.
    track: usize,
    frames: u64,
    /// How many frames went on.
    gone_on: u64,
}

/// The place of a side among the two.
fn place_of(side: Side) -> usize
    ensures { result < 2 }
{
    match side {
        Side::Source => 0,
        Side::Target => 1,
    }
}

impl Walk {
    fn new(alloc: Global, seed: u64) -> Walk {
        Walk {
            client: Client::new(),
            rng: SmallRng::seed_from_u64(seed),
            now: 0,
            numbers: [0; 2],
            waiting: [None; 2],
            sent_at: [0; 2],
            is_described: false,
            is_recording: false,
            kept: Vec::new(alloc),
            track: 0,
            frames: 0,
            gone_on: 0,
        }
    }

    /// Runs an exchange.
    pub(crate) fn run(alloc: Global, seed: u64) -> Result<Outcome, AllocError> {
        let mut walk = Walk::new(alloc, seed);
        let mut finding = None;
        for _ in 0..EVENTS {
            if finding.is_none() {
                finding = walk.step(alloc)?;
            }
        }
        Ok(Outcome {
            finding: finding.or(walk.close()),
            gone_on: walk.gone_on,
        })
    }

    /// Draws a number below a limit.
    fn draw(&mut self, limit: u64) -> u64
        requires { 0 < limit }
        ensures { result < limit }
    {
        self.rng.next_u64() % limit
    }

    /// One random event.
    fn step(&mut self, alloc: Global) -> Result<Option<Finding>, AllocError> {
        let passes = self.draw(300);
        self.now = self.now.saturating_add(passes);
        match self.draw(8) {
            0 | 1 | 2 => Ok(self.send()),
            3 | 4 | 5 => self.reply(alloc),
            6 => Ok(self.frame()),
            _ => Ok(self.tick()),
        }
    }

    /// Sends what is due, until nothing is.
    fn send(&mut self) -> Option<Finding> {
        for _ in 0..4 {
            let is_over = self.client.end().is_some();
            let Some(ask) = self.client.next(self.now) else {
                return None;
            };
            if is_over {
                return Some(Finding::BadOrder);
            }
            let finding = self.sent(&ask);
            if finding.is_some() {
                return finding;
            }
        }
        Some(Finding::BadNumber)
    }

    /// Notes a request, and tells what is wrong with it.
    fn sent(&mut self, ask: &Ask) -> Option<Finding> {
        let place = place_of(ask.side);
        let next = self.numbers[place].saturating_add(1);
        if ask.number != next || self.waiting[place].is_some() {
            return Some(Finding::BadNumber);
        }
        self.numbers[place] = next;
        self.waiting[place] = Some(ask.asked);
        if let (Asked::SetUp, Method::SetUp { track, .. }) = (ask.asked, ask.method) {
            self.track = track;
        }
        self.sent_at[place] = self.now;
        let is_early = match ask.asked {
            Asked::SetUp | Asked::Announce => !self.is_described,
            Asked::Play => !self.is_recording || ask.method != Method::Play,
            _ => false,
        };
        if is_early {
            Some(Finding::BadOrder)
        } else {
            None
        }
    }

    /// A reply comes: mostly to what waits, or else to something else.
    fn reply(&mut self, alloc: Global) -> Result<Option<Finding>, AllocError> {
        let side = if self.draw(2) == 0 {
            Side::Source
        } else {
            Side::Target
        };
        let status = STATUSES[(self.draw(64) as usize).min(63)];
        let transport = TRANSPORTS[(self.draw(16) as usize).min(15)];
        let place = place_of(side);
        let number = match self.draw(16) {
            0 | 1 => None,
            2 => Some(self.numbers[place].saturating_add(1)),
            _ => Some(self.numbers[place]),
        };
        let facts = ReplyFacts::of(
            alloc,
            ReplyHeaders {
                cseq: number,
                status,
                session: Some(b"session"),
                transport: Some(transport.as_bytes()),
                public: None,
            },
        )?;
        let is_taken = number.is_none() || number == Some(self.numbers[place]);
        let asked = if is_taken { self.waiting[place] } else { None };
        let was_over = self.client.end().is_some();
        let turn = self.client.replied(side, facts, self.now);
        self.answered(side, asked, status, was_over, turn)
    }

    /// Compares what a reply led to with what the table says, and goes on.
    fn answered(
        &mut self,
        side: Side,
        asked: Option<Asked>,
        status: u16,
        was_over: bool,
        turn: Turn,
    ) -> Result<Option<Finding>, AllocError> {
        let Some(asked) = asked else {
            return Ok(unless(turn == Turn::PassesOver, Finding::BadTurn));
        };
        if was_over {
            return Ok(unless(turn == Turn::PassesOver, Finding::BadTurn));
        }
        let verdict = Verdict::of(asked, StatusClass::of(status));
        if verdict != Verdict::Waits {
            self.waiting[place_of(side)] = None;
        }
        if verdict == Verdict::GoesOn && asked == Asked::Record {
            self.is_recording = true;
        }
        if verdict == Verdict::GoesOn && asked == Asked::SetUp {
            self.kept.push(self.track)?;
        }
        if !is_by_table(asked, verdict, turn, self.client.end().is_some()) {
            return Ok(Some(Finding::BadTurn));
        }
        self.follow(turn);
        Ok(None)
    }

    /// Does what a turn says.
    fn follow(&mut self, turn: Turn) {
        match turn {
            Turn::ReadsDescription => {
                let tracks = 1 + self.draw(4) as usize;
                self.client.described(tracks);
                self.is_described = true;
            }
            Turn::Redirects => {
                self.client.redirected();
                self.numbers[0] = 0;
                self.is_described = false;
                self.kept.clear();
            }
            Turn::Challenged => {
                let has_password = self.draw(8) > 0;
                self.client.answers_challenge(has_password);
            }
            _ => {}
        }
    }

    /// A frame comes on a random channel.
    fn frame(&mut self) -> Option<Finding> {
        let channel = self.draw(12) as u8;
        self.frames = self.frames.saturating_add(1);
        let fate = self.client.frame(channel, b"\x80\x60\x00\x01aaaassss");
        if let FrameFate::Waits { .. } = fate {
            self.gone_on = self.gone_on.saturating_add(1);
        }
        // What an end by channels leaves isn't followed here.
        if self.client.end().is_some() {
            return unless(!matches!(fate, FrameFate::Waits { .. }), Finding::BadFrame);
        }
        unless(fate == self.fate_of(channel), Finding::BadFrame)
    }

    /// What has to become of a frame: each track has the channels that were asked for.
    fn fate_of(&self, channel: u8) -> FrameFate {
        let track = usize::from(channel / 2);
        let Some(place) = self.kept.iter().position(|kept| *kept == track) else {
            return FrameFate::UnknownChannel;
        };
        if !self.is_recording {
            return FrameFate::BeforeRecording;
        }
        let first = u8::try_from(place).unwrap_or(255).saturating_mul(2);
        FrameFate::Waits {
            channel: first.saturating_add(channel % 2),
        }
    }

    /// Time passes, and frames are sent.
    fn tick(&mut self) -> Option<Finding> {
        let source = self.tick_at(Side::Source);
        let finding = source.or(self.tick_at(Side::Target));
        let frames = self.draw(3);
        self.client.sent(frames, self.now);
        finding
    }

    /// Time passes for a side: after ten seconds without a reply the client ends, unless the request kept a session alive.
    fn tick_at(&mut self, side: Side) -> Option<Finding> {
        let place = place_of(side);
        let was_over = self.client.end().is_some();
        let is_late = self.now.saturating_sub(self.sent_at[place]) >= 10_000;
        let turn = self.client.ticks(side, self.now);
        let Some(asked) = self.waiting[place] else {
            return unless(turn == Turn::GoesOn, Finding::BadTurn);
        };
        if was_over || !is_late {
            return unless(turn == Turn::GoesOn, Finding::BadTurn);
        }
        self.waiting[place] = None;
        let ends = !matches!(asked, Asked::KeepAlive(_));
        unless(matches!(turn, Turn::Ends(_)) == ends, Finding::BadTurn)
    }

    /// Whether the account closes at the end.
    fn close(&self) -> Option<Finding> {
        let account = self.client.account();
        let counted = account
            .sent()
            .saturating_add(account.unknown_channel())
            .saturating_add(account.before_recording())
            .saturating_add(account.unsent());
        unless(
            account.came() == self.frames && counted == self.frames,
            Finding::BadAccount,
        )
    }
}
