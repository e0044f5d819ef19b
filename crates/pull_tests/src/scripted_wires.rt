//! The connections of a try to a source and a target that do what a script says.
ghost use Rattle.std.specs.Prelude.{◌≤◌, length};
ghost use Rattle.relay_pull.specs.Moving.{IsWithin};

use crate::pending::Pending;
use crate::script::{
    CHALLENGE, DESCRIPTION, DONE, NOT_FOUND, Opening, PUBLIC, RECORDED, SET_UP, Script,
};
use crate::seen::{Seen, places_of};
use relay_pull::{Moved, Wires};
use rtsp_client::Side;
use std::alloc::Global;
use std::io::ErrorKind;

/// How many frames are sent before each read at most: those of 1,404 bytes that fit into one.
const MOST_FRAMES: u32 = 46;

/// After how many milliseconds a slow target takes its next byte.
const SLOWNESS: u64 = 10_000;

/// The connections of a try to a source and a target that do what a script says.
#[derive(Drop)]
pub(crate) struct ScriptedWires<'a> {
    seen: &'a Seen,
    script: Script,
    /// The nonce of the source's challenges.
    nonce: u8,
    source: Pending,
    target: Pending,
    /// How many requests each side had.
    source_asked: usize,
    target_asked: usize,
    /// When PLAY was written.
    played: Option<u64>,
    /// How many frames the source has sent.
    sent: u64,
    /// The sequence number of the next packet.
    number: u16,
    /// Whether the source has ended its stream.
    has_ended: bool,
    /// When a slow target took its last byte.
    taken: u64,
}

impl<'a> ScriptedWires<'a> {
    /// Nothing was written.
    pub(crate) fn new(
        alloc: Global,
        seen: &'a Seen,
        script: Script,
        nonce: u8,
    ) -> ScriptedWires<'a> {
        ScriptedWires {
            seen,
            script,
            nonce,
            source: Pending::new(alloc),
            target: Pending::new(alloc),
            source_asked: 0,
            target_asked: 0,
            played: None,
            sent: 0,
            number: 1_000,
            has_ended: false,
            taken: 0,
        }
    }

    /// Returns when a frame is due, counted from 0. `None` before PLAY.
    fn due(&self, place: u64) -> Option<u64> {
        let first = self.played?.saturating_add(self.script.first_after);
        Some(first.saturating_add(place.saturating_mul(self.script.apart)))
    }

    /// The source sends a frame if one is due. Returns whether one was.
    fn send_due(&mut self) -> bool {
        let Some(due) = self.due(self.sent) else {
            return false;
        };
        if self.sent >= self.script.frames || due > self.seen.now() {
            return false;
        }
        self.send_frame();
        self.sent = self.sent.saturating_add(1);
        true
    }

    /// The source sends the frames that are due, as many as a read takes.
    fn send_all_due(&mut self) {
        for _ in 0..MOST_FRAMES {
            if !self.send_due() {
                return;
            }
        }
    }

    /// The source sends the next packet on channel 0.
    fn send_frame(&mut self) {
        for left_out in self.script.left_out {
            if *left_out == self.number {
                self.number = self.number.wrapping_add(1);
            }
        }
        let length = self.script.payload.saturating_add(12);
        let [high, low] = length.to_be_bytes();
        self.source.put(&[0x24, 0, high, low, 0x80, 0x60]);
        self.source.put(&self.number.to_be_bytes());
        self.source.put(&[0, 0, 0, 9, 0, 0, 0, 7]);
        self.source.put_same(self.script.payload, 7);
        self.number = self.number.wrapping_add(1);
    }

    /// The source ends its stream if its script says so at this moment. Returns whether it does.
    fn end_source(&mut self) -> bool {
        let last = self.due(self.script.frames.saturating_sub(1));
        let (Some(last), Some(after)) = (last, self.script.ends_after) else {
            return false;
        };
        let has_sent = self.sent >= self.script.frames;
        if self.has_ended || !has_sent || self.seen.now() < last.saturating_add(after) {
            return false;
        }
        self.has_ended = true;
        true
    }

    /// Reads what the source has sent, or its end.
    fn read_source(&mut self, buf: &mut [u8]) -> Moved
        ensures { IsWithin result (length buf.new) }
    {
        match self.source.read(buf) {
            Moved::Bytes(count) => Moved::Bytes(count),
            _ => {
                if self.end_source() {
                    Moved::Ended
                } else {
                    Moved::Later
                }
            }
        }
    }

    /// The source has one more request.
    fn ask_source(&mut self) {
        let place = self.source_asked;
        self.source_asked = place.saturating_add(1);
        match (self.script.opening, place) {
            (_, 0) => self.source.put(PUBLIC),
            (Opening::NotFound, _) => self.source.put(NOT_FOUND),
            (Opening::Locked, _) => self.challenge(),
            (_, 1) => self.source.put(DESCRIPTION),
            (_, 2) => self.source.put(SET_UP),
            (_, 3) => self.play(),
            (_, _) => self.go_on(),
        }
    }

    /// The source asks for a password.
    fn challenge(&mut self) {
        let [front, back] = CHALLENGE;
        self.source.put(front);
        self.source.put(&[self.nonce]);
        self.source.put(back);
    }

    /// The source plays from this moment on.
    fn play(&mut self) {
        self.source.put(DONE);
        self.played = Some(self.seen.now());
        self.taken = self.seen.now();
    }

    /// The source has a request after PLAY.
    fn go_on(&mut self) {
        self.seen.asks_after_play(self.sent);
        if self.script.replies {
            self.source.put(DONE);
        }
    }

    /// The target has one more request.
    fn ask_target(&mut self) {
        let place = self.target_asked;
        self.target_asked = place.saturating_add(1);
        if place < 3 {
            self.target.put(RECORDED);
        } else if self.script.replies {
            self.target.put(DONE);
        }
    }

    /// Returns how many of this number of bytes a side takes now.
    fn room(&mut self, side: Side, most: usize) -> usize
        ensures { result ≤ most }
    {
        if side == Side::Source || !self.script.is_slow || self.played.is_none() {
            return most;
        }
        if self.seen.now() < self.taken.saturating_add(SLOWNESS) {
            return 0;
        }
        self.taken = self.seen.now();
        most.min(1)
    }

    /// A side takes these bytes. All of a request are taken at once, unless the target is slow.
    fn take(&mut self, side: Side, bytes: &[u8]) {
        self.seen.writes(side, bytes);
        for _ in 0..places_of(bytes, b"\r\n\r\n") {
            match side {
                Side::Source => self.ask_source(),
                Side::Target => self.ask_target(),
            }
        }
    }
}

impl Wires for ScriptedWires<'_> {
    fn read(&mut self, side: Side, buf: &mut [u8]) -> Moved {
        if side == Side::Target {
            return self.target.read(buf);
        }
        self.send_all_due();
        self.read_source(buf)
    }

    fn write(&mut self, side: Side, bytes: &[u8]) -> Moved {
        let count = self.room(side, bytes.len());
        if count == 0 {
            return Moved::Later;
        }
        self.take(side, &bytes[..count]);
        Moved::Bytes(count)
    }

    fn failure(&self, _side: Side) -> Option<ErrorKind> {
        None
    }

    fn wait(&mut self, milliseconds: u64) {
        self.seen.passes(milliseconds);
    }
}
