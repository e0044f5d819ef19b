//! A seat that a connection is attached to.
ghost use Rattle.std.specs.Prelude.{◌≡◌, ◌↔◌, IsTrue};
ghost use Rattle.relay_fanout.specs.SeatHolds.{HasThread};

use crate::mount::leave::Leave;
use crate::sending::coming::Place;
use crate::sending::frame_thread::Sending;
use crate::sending::send_side::SendSide;
use crate::sending::sent_frames::SentFrames;
use crate::sending::writers::{NoWriter, Writers};
use cursor::Lend;
use interleaved::Sink;
use mount_signals::MountSignal;
use sockets::HangUp;
use std::alloc::{AllocError, Global};
use std::sync::{Arc, Wait};
use std::thread::{JoinHandle, Threads};
use std::time::{Clock, Duration};
use std::{mem, thread};
use transport_header::TrackChannels;

/// What sends the frames of a seat.
#[derive(Drop)]
enum Sender {
    /// Nothing yet.
    Nobody,
    Thread(JoinHandle<SentFrames>),
    /// The writer with which it has this place.
    Writer(Place),
}

/// A seat that a connection is attached to, and what sends the packets that it takes.
pub struct SeatHold {
    /// The mount's number.
    pub mount: u64,
    pub seat: usize,
    pub signal: Arc<MountSignal, Global>,
    sender: Sender,
}

impl Drop for SeatHold {
    fn drop(self) {
        let SeatHold {
            mount: _,
            seat: _,
            signal: _,
            sender: _,
        } = self;
    }
}

impl SeatHold {
    /// Nothing is sent yet.
    pub fn new(mount: u64, seat: usize, signal: Arc<MountSignal, Global>) -> SeatHold
        ensures seat { (result.mount ≡ mount) × (result.seat ≡ seat) × (result.signal ≡ signal) }
        ensures nobody { ¬ (HasThread result) }
    {
        SeatHold {
            mount,
            seat,
            signal,
            sender: Sender::Nobody,
        }
    }

    /// Starts a thread of its own, which may fail if there is no memory or no thread. If `is_direct`, it writes packets from
    /// where they lie in the ring.
    pub fn start<R, T, W, H>(
        &mut self,
        rt: R,
        alloc: Global,
        player: &Arc<SendSide<T, W, H>, Global>,
        channels: TrackChannels,
        after_end: Option<Duration>,
        is_direct: bool,
    ) -> Result<(), AllocError>
    where
        R: Threads + Wait + Clock + Copy + Send + 'static,
        T: Lend + Leave + Drop + Send + 'static,
        W: Sink + Drop + Send + 'static,
        H: HangUp + Drop + Send + Sync + 'static,
    {
        let player = Arc::try_clone(player)?;
        let sending = Sending {
            signal: Arc::try_clone(&self.signal)?,
            seat: self.seat,
            channels,
            after_end,
            is_direct,
        };
        let thread = thread::spawn(&rt, move || player.send(&rt, alloc, &sending))?;
        self.sender = Sender::Thread(thread);
        Ok(())
    }

    /// Gives the seat to a writer.
    pub fn give<T, W, H>(
        &mut self,
        rt: &impl Wait,
        player: &Arc<SendSide<T, W, H>, Global>,
        writers: &Writers<T, W, H>,
        channels: TrackChannels,
        after_end: Option<Duration>,
    ) -> Result<(), NoWriter>
    where
        T: Lend + Leave + Drop,
        W: Sink + Drop,
        H: HangUp + Drop,
    {
        let Ok(signal) = Arc::try_clone(&self.signal) else {
            return Err(NoWriter);
        };
        let put_in = player.play(rt, signal, self.seat, channels, after_end);
        self.sender = Sender::Writer(writers.add(rt, player, &self.signal, put_in)?);
        Ok(())
    }

    /// Returns whether a thread was started that isn't joined.
    pub fn has_thread(&self) -> bool
        ensures { IsTrue result ↔ HasThread self.now }
    {
        matches!(self.sender, Sender::Thread(_))
    }

    /// Returns which seat it is.
    pub fn seat(&self) -> usize
        ensures { result ≡ self.now.seat }
    {
        self.seat
    }

    /// Returns the number of the mount, the seat and the signal of its packets.
    pub fn into_seat(self) -> (u64, usize, Arc<MountSignal, Global>)
        ensures { (result.0 ≡ self.mount) × (result.1 ≡ self.seat) × (result.2 ≡ self.signal) }
    {
        let SeatHold {
            mount,
            seat,
            signal,
            sender: _,
        } = self;
        (mount, seat, signal)
    }

    /// Takes the seat from the thread or writer that sends its frames, waits for the end of the thread or of the writer's look,
    /// and returns how the frames ended.
    pub fn join<R, T, W, H>(
        &mut self,
        rt: &R,
        player: &SendSide<T, W, H>,
        writers: Option<&Writers<T, W, H>>,
    ) -> SentFrames
    where
        R: Threads + Wait,
        T: Lend + Leave + Drop,
        W: Sink + Drop,
        H: HangUp + Drop,
    {
        match mem::replace(&mut self.sender, Sender::Nobody) {
            Sender::Thread(thread) => thread.join(rt),
            Sender::Writer(place) => {
                if let Some(writers) = writers {
                    writers.remove(rt, place);
                }
                player.stop_playing(rt)
            }
            // A player may have been put in for which no writer had a place. No frame thread runs.
            Sender::Nobody => player.stop_playing(rt),
        }
    }
}
