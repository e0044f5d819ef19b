//! Carries out an answer of the book: what its request begins or ends.
use crate::frame_notes::Publishing;
use crate::replying::ReplyWritten;
use crate::serving::Connection;
use admission::Gate;
use interleaved::Sink;
use mount_signals::MountSignal;
use pacing::Back;
use relay_accounts::ConnectionEnd;
use relay_fanout::{Maker, MountFeed, Seat, SeatHold};
use rtsp_message::Reply;
use session_lock::Answer;
use session_state::{Act, Moments, Words};
use sockets::HangUp;
use std::sync::Wait;
use std::thread::Threads;
use std::time::{Clock, Duration};

impl<R, M, V, G, W, H, N> Connection<R, M, V, G, W, H, N>
where
    R: Threads + Wait + Clock + Copy + Send + 'static,
    M: Maker + Drop,
    M::Out: 'static,
    V: Words + Drop,
    G: Gate + Drop,
    W: Sink + Drop + Send + 'static,
    H: HangUp + Drop + Send + Sync + 'static,
    N: Moments + Drop,
{
    /// Does what an answer asks for, and writes its reply. Frames come after the reply to their PLAY, and have stopped
    /// before the reply to a PAUSE or TEARDOWN.
    pub(crate) fn carry_out(
        &mut self,
        answer: Answer<Seat<M::Pass>>,
        publishing: Option<Publishing<R, MountFeed<R, M::In>>>,
    ) -> Result<(), ConnectionEnd> {
        self.take_up(answer.act, answer.pass, publishing);
        self.reply_to(answer.act, &answer.reply)
    }

    /// Takes up the mount that was opened, or the seat that was taken.
    fn take_up(
        &mut self,
        act: Act,
        pass: Option<Seat<M::Pass>>,
        publishing: Option<Publishing<R, MountFeed<R, M::In>>>,
    ) {
        match act {
            Act::Open => self.publishing = publishing,
            Act::Play { mount, seat } => self.attach(mount, seat, pass),
            Act::None | Act::Stop { .. } | Act::Record | Act::End => {}
        }
    }

    /// Writes a reply, after what its request begins or ends for others and before the frames of a PLAY.
    fn reply_to(&mut self, act: Act, reply: &Reply) -> Result<(), ConnectionEnd> {
        let done = self.act(act)?;
        let has_ended = self.session.is_none();
        if has_ended && self.left.is_none() {
            self.close_account();
        }
        let written = self.write_reply(reply, done);
        if has_ended {
            self.close_account();
        }
        let written = written?;
        match act {
            Act::Play { .. } => self.start_frames(written),
            _ => Ok(()),
        }
    }

    /// A RECORD was accepted. The mount is among those that are recorded from its first one on.
    pub(crate) fn record(&mut self) {
        let now = self.clock.watch().heard.now();
        let (Some(publishing), Some(session)) = (&mut self.publishing, &self.session) else {
            return;
        };
        let feed = &mut publishing.feed;
        feed.signal().recorded(&self.rt);
        if self.mount.is_none() {
            feed.signal().begin(&self.rt, now);
            self.events.recorded(
                &self.rt,
                self.alloc,
                session.mount,
                &self.part,
                feed.signal(),
            );
        }
        if !feed.is_registered() {
            let added = self
                .shared
                .recording
                .add(&self.rt, session.mount, feed.signal());
            feed.set_registered(added.is_ok());
            self.mount = Some(session.mount);
        }
    }

    fn attach(&mut self, mount: u64, seat: usize, pass: Option<Seat<M::Pass>>) {
        let Some(Seat { pass, signal }) = pass else {
            return;
        };
        self.is_over = false;
        let back = self.packets_back(&signal);
        let tap = self.shared.maker.attach(pass, back);
        let attached = signal.attached(seat, tap);
        self.player.put(&self.rt, attached);
        let now = self.clock.watch().heard.now();
        self.events.plays(&self.rt, self.alloc, mount, &self.part, seat, &signal, now);
        self.frames = Some(SeatHold::new(mount, seat, signal));
    }

    /// Returns how many packets before the end of its mount's log a player starts.
    fn packets_back(&mut self, signal: &MountSignal) -> u64 {
        let milliseconds = match self.shared.maker.back() {
            Back::Packets(count) => return count,
            Back::Milliseconds(0) => return 0,
            Back::Milliseconds(milliseconds) => milliseconds,
        };
        let now = self.clock.watch().heard.now();
        let keep = self.shared.maker.keep();
        let (start, is_first) = signal.start(&self.rt, now, milliseconds, keep);
        if is_first {
            self.events
                .shortened(&self.rt, self.part.as_ref(), milliseconds, &start);
        }
        start.packets
    }

    /// Starts the frames of a PLAY, whose reply was written.
    fn start_frames(&mut self, _written: ReplyWritten) -> Result<(), ConnectionEnd> {
        let (Some(frames), Some(session)) = (&mut self.frames, &self.session) else {
            return Ok(());
        };
        let channels = session.channels.copy();
        let after_end = self.shared.after_end;
        if let Some(writers) = &self.writers {
            return match frames.give(&self.rt, &self.player, writers, channels, after_end) {
                Ok(()) => Ok(()),
                Err(_) => Err(ConnectionEnd::NoThread),
            };
        }
        if !self.shared.gate.may_start() {
            return Err(ConnectionEnd::NoThread);
        }
        let is_direct = self.shared.maker.is_direct();
        match frames.start(
            self.rt,
            self.alloc,
            &self.player,
            channels,
            after_end,
            is_direct,
        ) {
            Ok(()) => Ok(()),
            Err(_) => Err(ConnectionEnd::NoThread),
        }
    }

    /// The mount has ended: no packet comes any more.
    pub(crate) fn end_mount(&mut self) {
        if let Some(publishing) = self.publishing.take() {
            let Publishing { feed, notes: _ } = publishing;
            self.counts.add_missing(feed.signal().missing(&self.rt));
            self.counts.add_wait(feed.end());
            self.events.ended(&self.rt, &self.counts);
        }
        if let Some(mount) = self.mount.take() {
            self.shared.recording.remove(&self.rt, mount);
        }
    }
}
