//! A mount and its players without connections, whose sockets are in memory, for tests.
use cursor::Left;
use interleaved::{TryWrite, Writing};
use mount_signals::{MountSignal, WakeSignal};
use packet_ring::{Pass, Publisher, Subscriber};
use relay_accounts::FrameEnd;
use relay_fanout::{Maker, RingMaker, SeatHold, SendSide, TapPlace, Waits, Writers, WritingSide};
use std::alloc::Global;
use std::io::Write;
use std::process::Abort;
use std::sync::atomic::Ordering;
use std::sync::{Arc, Mutex, Wait};
use std::thread::{JoinHandle, Threads};
use std::time::{Clock, Duration};
use std::{io, thread};
use test_kit::{Bytes, Count, HangUps, count};
use transport_header::{ChannelPair, TrackChannels};

/// The most bytes of a packet's frame.
pub(crate) const LONGEST: usize = 16;

/// How many packets a ring keeps.
pub(crate) const KEEP: u64 = 64;

/// A mount without players, and one writer for them, which doesn't run yet.
#[derive(Drop)]
pub(crate) struct Mount<R: Wait + Clock + Drop> {
    pub(crate) maker: RingMaker,
    pub(crate) publisher: Publisher,
    pub(crate) passes: Vec<Pass>,
    pub(crate) wake_signal: Arc<WakeSignal, Global>,
    pub(crate) signal: Arc<MountSignal, Global>,
    pub(crate) writers: Arc<Writer<R>, Global>,
}

impl<R: Wait + Clock + Abort + Copy + Drop> Mount<R> {
    /// A mount of `seats` seats, whose players are given up `most` milliseconds after its end.
    pub(crate) fn new(rt: &R, alloc: Global, seats: usize, most: u64) -> Mount<R> {
        let wake_signal = Arc::new(alloc, WakeSignal::new()).expect(rt, "memory");
        let theirs = Arc::try_clone(&wake_signal).expect(rt, "a count of its users");
        let signal = MountSignal::new(alloc, seats, theirs).expect(rt, "memory");
        let signal = Arc::new(alloc, signal).expect(rt, "memory");
        let theirs = Arc::try_clone(&wake_signal).expect(rt, "a count of its users");
        let waits = Waits {
            stall: Some(most),
            end: most,
        };
        let writers = Writers::new(alloc, 1, theirs, waits).expect(rt, "memory");
        let writers = Arc::new(alloc, writers).expect(rt, "memory");
        let maker = RingMaker::new(KEEP as usize, seats.min(1024), LONGEST);
        let (publisher, passes) = maker.make(alloc).expect(rt, "memory");
        Mount {
            maker,
            publisher,
            passes,
            wake_signal,
            signal,
            writers,
        }
    }

    /// A player in the last seat that is free, each write to which takes `wait` milliseconds.
    pub(crate) fn seat(&mut self, rt: R, alloc: Global, wait: u64) -> Seated<R> {
        let pass = self.passes.pop().expect(&rt, "a seat");
        let tap = self.maker.attach(pass, 0);
        Seated::new(rt, alloc, &self.signal, self.passes.len(), tap, wait)
    }
}

impl<R: Threads + Wait + Clock + Abort + Copy + Drop + Send + Sync + 'static> Mount<R> {
    /// Starts the writer.
    pub(crate) fn start_writer(&self, rt: R, alloc: Global) -> JoinHandle<()> {
        let theirs = Arc::try_clone(&self.writers).expect(&rt, "a count of its users");
        thread::spawn(&rt, move || theirs.write_all(&rt, alloc, 0)).expect(&rt, "memory")
    }
}

/// Keeps what is written for the threads that share it, up to its room, each write after `wait` milliseconds, and once as many may
/// go on. Counts the writes that came, and those that took any byte.
#[derive(Drop)]
pub(crate) struct Valve<R> {
    rt: R,
    bytes: Bytes,
    room: Count,
    came: Count,
    may_go_on: Count,
    writes: Count,
    wait: u64,
}

impl<R: Wait + Clock> Write for Valve<R> {
    fn write(&mut self, buf: &[u8]) -> io::Result<usize> {
        let before = self.came.fetch_add(1, Ordering::SeqCst);
        for _ in self.rt.forever() {
            if self.may_go_on.load(Ordering::SeqCst) > before {
                break;
            }
            thread::sleep(&self.rt, Duration::from_millis(1));
        }
        if self.wait > 0 {
            thread::sleep(&self.rt, Duration::from_millis(self.wait));
        }
        let room = self.room.load(Ordering::SeqCst);
        let front = buf.len().min(usize::try_from(room).unwrap_or(usize::MAX));
        self.room.fetch_sub(front as u64, Ordering::SeqCst);
        self.writes
            .fetch_add(u64::from(front > 0), Ordering::SeqCst);
        self.bytes.lock(&self.rt).extend_from_slice(&buf[..front])?;
        Ok(front)
    }

    fn flush(&mut self) -> io::Result<()> {
        Ok(())
    }
}

impl<R: Wait + Clock> TryWrite for Valve<R> {}

pub(crate) type Player<R> = SendSide<Subscriber, Writing<Valve<R>>, HangUps>;

pub(crate) type Writer<R> = Writers<Subscriber, Writing<Valve<R>>, HangUps>;

/// A player in its seat, and what is shared with its socket.
#[derive(Drop)]
pub(crate) struct Seated<R: Wait + Clock + Drop> {
    pub(crate) player: Arc<Player<R>, Global>,
    pub(crate) frames: SeatHold,
    pub(crate) bytes: Bytes,
    pub(crate) room: Count,
    /// How many writes came.
    pub(crate) came: Count,
    /// How many of them may go on: all, unless it is set.
    pub(crate) may_go_on: Count,
    pub(crate) writes: Count,
    /// How often its connection was hung up.
    pub(crate) hang_ups: Count,
}

/// Track 0 on channels 0 and 1.
fn one_track() -> TrackChannels {
    let mut channels = TrackChannels::new();
    let pair = ChannelPair {
        first: 0,
        second: 1,
    };
    if channels.may_have(0, pair) {
        channels.set(0, pair);
    }
    channels
}

impl<R: Wait + Clock + Abort + Copy + Drop> Seated<R> {
    /// Nothing sends its frames yet, and its socket takes nothing.
    fn new(
        rt: R,
        alloc: Global,
        signal: &Arc<MountSignal, Global>,
        seat: usize,
        tap: Subscriber,
        wait: u64,
    ) -> Seated<R> {
        let bytes = Arc::new(alloc, Mutex::new(Vec::new(alloc))).expect(&rt, "memory");
        let room = count(alloc).expect(&rt, "memory");
        let came = count(alloc).expect(&rt, "memory");
        let may_go_on = count(alloc).expect(&rt, "memory");
        may_go_on.store(u64::MAX, Ordering::SeqCst);
        let writes = count(alloc).expect(&rt, "memory");
        let socket = Valve {
            rt,
            bytes: Arc::try_clone(&bytes).expect(&rt, "a count of its users"),
            room: Arc::try_clone(&room).expect(&rt, "a count of its users"),
            came: Arc::try_clone(&came).expect(&rt, "a count of its users"),
            may_go_on: Arc::try_clone(&may_go_on).expect(&rt, "a count of its users"),
            writes: Arc::try_clone(&writes).expect(&rt, "a count of its users"),
            wait,
        };
        let line = WritingSide::new(alloc, Writing::new(socket));
        let hang_ups = count(alloc).expect(&rt, "memory");
        let theirs = Arc::try_clone(&hang_ups).expect(&rt, "a count of its users");
        let player = SendSide::new(line, HangUps(theirs));
        player.put(&rt, signal.attached(seat, tap));
        let signal = Arc::try_clone(signal).expect(&rt, "a count of its users");
        Seated {
            player: Arc::new(alloc, player).expect(&rt, "memory"),
            frames: SeatHold::new(1, seat, signal),
            bytes,
            room,
            came,
            may_go_on,
            writes,
            hang_ups,
        }
    }

    /// Its socket takes `bytes` bytes from now on, or, for `None`, more than there can be.
    pub(crate) fn let_on(&self, bytes: Option<u64>) {
        self.room.store(bytes.unwrap_or(1 << 40), Ordering::SeqCst);
    }

    /// A writer sends its frames.
    pub(crate) fn give_to(&mut self, rt: &R, writers: &Writer<R>) {
        let given = self
            .frames
            .give(rt, &self.player, writers, one_track(), None);
        given.expect(rt, "memory");
    }
}

impl<R: Threads + Wait + Clock + Abort + Copy + Drop + Send + Sync + 'static> Seated<R> {
    /// A thread of its own sends its frames.
    pub(crate) fn start(&mut self, rt: R, alloc: Global) {
        let started = self
            .frames
            .start(rt, alloc, &self.player, one_track(), None, false);
        assert!(rt; started.is_ok());
    }

    /// Takes it from the writer or thread that sends its frames. Returns where its tap is then.
    pub(crate) fn stop(mut self, rt: &R, writers: &Writer<R>) -> TapPlace<Subscriber> {
        let _ = self.end(rt, writers);
        self.player.take(rt)
    }

    /// Takes it from the writer or thread that sends its frames. Returns how these ended.
    pub(crate) fn end(&mut self, rt: &R, writers: &Writer<R>) -> FrameEnd {
        self.frames.join(rt, &*self.player, Some(writers)).end
    }

    /// Returns the account of a player whose mount has ended, after its frames have ended.
    pub(crate) fn account(self, rt: &R, writers: &Writer<R>) -> Option<Left> {
        match self.stop(rt, writers) {
            TapPlace::Left(left) => Some(left),
            _ => None,
        }
    }
}
