//! A player at a writer, whose socket takes nothing, or almost nothing, for a while.
use crate::fanout::packets::{number_in, small_frames};
use crate::fanout::stage::{KEEP, LONGEST, Mount, Seated};
use crate::fanout::unreadable::Unreadable;
use cursor::{Feed, Left};
use mount_signals::MountSignal;
use relay_accounts::FrameEnd;
use relay_fanout::{Maker, MountFeed, TapPlace};
use std::alloc::Global;
use std::process::Abort;
use std::sync::atomic::Ordering;
use std::sync::{Arc, Wait};
use std::thread;
use std::thread::{JoinHandle, Threads};
use std::time::{Clock, Duration};
use test_kit::has_come;

/// How many packets are published before the player is first looked at, and how many while its socket takes nothing.
const BEFORE: u16 = 3;

const MEANWHILE: u16 = 10_000;

/// How many bytes a packet's frame has.
const FRAME: usize = LONGEST;

/// How many bytes the frames have before the player is first looked at.
const FIRST: usize = BEFORE as usize * FRAME;

/// A player at the writer of its mount.
#[derive(Drop)]
struct Stage<R: Wait + Clock + Drop> {
    mount: Mount<R>,
    seated: Seated<R>,
    writer: JoinHandle<()>,
}

/// A player for which the packets of these frames were published before its writer looked at it. Its socket has taken five
/// bytes of them. It is given up `most` milliseconds after its mount's end.
fn staged<R>(rt: R, alloc: Global, most: u64, frames: &[u8]) -> Stage<R>
where
    R: Threads + Wait + Clock + Abort + Copy + Drop + Send + Sync + 'static,
{
    let mut mount = Mount::new(&rt, alloc, 1, most);
    let mut seated = mount.seat(rt, alloc, 0);
    publish(&rt, &mut mount.publisher, &mount.signal, frames);
    seated.let_on(Some(5));
    seated.give_to(&rt, &mount.writers);
    let writer = mount.start_writer(rt, alloc);
    assert!(rt; has_come(&rt, &seated.bytes, 5, frames.get(..5).unwrap_or(b"")));
    Stage {
        mount,
        seated,
        writer,
    }
}

/// Publishes the packets of these frames, and wakes the player at each.
fn publish<F: Feed>(rt: &impl Abort, feed: &mut F, signal: &MountSignal, frames: &[u8]) {
    for frame in frames.chunks_exact(FRAME) {
        assert!(rt; feed.publish(0, frame.get(4..).unwrap_or(b"")).is_ok());
        signal.wake();
    }
}

/// Returns whether these are the frames before the player was first looked at, and then the last that the ring keeps.
fn are_first_and_last(frames: &[u8]) -> bool {
    let skipped = BEFORE + MEANWHILE - KEEP as u16;
    let mut want = 0u16;
    for frame in frames.chunks_exact(FRAME) {
        if want == BEFORE {
            want = skipped;
        }
        if number_in(frame) != want {
            return false;
        }
        want = want.wrapping_add(1);
    }
    want == BEFORE + MEANWHILE
}

/// While bytes wait that its socket didn't take, here all but five of the first frame, a player takes nothing from its ring.
/// The ring counts what the player loses. Then the player goes on after the lost packets.
fn goes_on_behind_its_rest<R>(rt: R, alloc: Global)
where
    R: Threads + Wait + Clock + Abort + Copy + Drop + Send + Sync + 'static,
{
    let packets = small_frames(alloc, BEFORE + MEANWHILE).expect(&rt, "memory");
    let first = packets.as_slice().get(..FIRST).unwrap_or(b"");
    let then = packets.as_slice().get(FIRST..).unwrap_or(b"");
    let Stage {
        mut mount,
        seated,
        writer,
    } = staged(rt, alloc, 20_000, first);
    publish(&rt, &mut mount.publisher, &mount.signal, then);
    seated.let_on(None);
    let last = then.len().saturating_sub(FRAME);
    assert!(rt; has_come(&rt, &seated.bytes, 6, then.get(last..).unwrap_or(b"")));
    let bytes = Arc::try_clone(&seated.bytes).expect(&rt, "a count of its users");
    // The five bytes, what is left of the first frames, and sixteen packets at a time.
    assert!(rt; seated.writes.load(Ordering::SeqCst) <= 3 + KEEP / 16);
    let left = match seated.stop(&rt, &mount.writers) {
        TapPlace::Attached(tap) => Some(mount.maker.detach(tap).1),
        _ => None,
    };
    mount.writers.stop();
    writer.join(&rt);
    assert!(rt; are_first_and_last(bytes.lock(&rt).as_slice()));
    let want = Left {
        taken: u64::from(BEFORE) + KEEP,
        lost: u64::from(MEANWHILE) - KEEP,
        left: 0,
    };
    assert!(rt; left == Some(want));
}

#[test]
fn a_player_with_a_rest_takes_nothing_until_it_is_gone(rt: HostRuntime) {
    goes_on_behind_its_rest(rt, rt.alloc());
}

/// A clock that can't be read gives nobody up, and a socket that is to be tried later is tried at the next look.
#[test]
fn a_clock_that_fails_for_good_gives_no_player_up(rt: HostRuntime) {
    goes_on_behind_its_rest(Unreadable { rt }, rt.alloc());
}

/// A player whose socket takes five bytes is at a writer before another one. If memory for the writer's buffers is refused, at most the player
/// is given up at whose look that is, and its connection is hung up once: the other one is sent all, and so is the first if it wasn't given up.
fn costs_no_other<R>(rt: R, alloc: Global)
where
    R: Threads + Wait + Clock + Abort + Copy + Drop + Send + Sync + 'static,
{
    let packets = small_frames(alloc, BEFORE).expect(&rt, "memory");
    let mut mount = Mount::new(&rt, alloc, 2, 20_000);
    let mut cut = mount.seat(rt, alloc, 0);
    let mut other = mount.seat(rt, alloc, 0);
    for seated in [&cut, &other] {
        let reserved = seated.bytes.lock(&rt).reserve(FIRST);
        reserved.expect(&rt, "memory");
    }
    publish(&rt, &mut mount.publisher, &mount.signal, packets.as_slice());
    cut.let_on(Some(5));
    other.let_on(None);
    cut.give_to(&rt, &mount.writers);
    other.give_to(&rt, &mount.writers);
    let writer = mount.start_writer(rt, alloc);
    assert!(rt; has_come(&rt, &other.bytes, FIRST, packets.as_slice()));
    assert!(rt;
        packets
            .as_slice()
            .starts_with(cut.bytes.lock(&rt).as_slice())
    );
    let hang_ups = cut.hang_ups.load(Ordering::SeqCst);
    cut.let_on(None);
    assert!(rt; hang_ups > 0 || has_come(&rt, &cut.bytes, FIRST, packets.as_slice()));
    let is_given_up = cut.end(&rt, &mount.writers) == FrameEnd::OutOfMemory;
    assert!(rt; hang_ups == u64::from(is_given_up));
    assert!(rt; other.hang_ups.load(Ordering::SeqCst) == 0);
    let _ = cut.stop(&rt, &mount.writers);
    let _ = other.stop(&rt, &mount.writers);
    mount.writers.stop();
    writer.join(&rt);
}

#[test]
fn a_player_without_a_buffer_costs_no_other(rt: HostRuntime) {
    costs_no_other(rt, rt.alloc());
}

/// How many packets are published while the socket takes almost nothing.
const LATE: u16 = 10;

/// After how many milliseconds a player is given up after its mount's end.
const MOST: u64 = 1_500;

/// How many milliseconds are between two bytes that the socket takes. `SINGLY` of them take more than `MOST`, and are fewer
/// than the bytes that wait.
const PAUSE: u64 = 60;

const SINGLY: usize = 40;

/// After its mount's end, a player that takes a byte now and then is sent what it had taken from its ring, and leaves the other
/// packets of the ring.
fn is_given_up_after_its_mounts_end<R>(rt: R, alloc: Global)
where
    R: Threads + Wait + Clock + Abort + Copy + Drop + Send + Sync + 'static,
{
    let packets = small_frames(alloc, BEFORE + LATE).expect(&rt, "memory");
    let first = packets.as_slice().get(..FIRST).unwrap_or(b"");
    let then = packets.as_slice().get(FIRST..).unwrap_or(b"");
    let Stage {
        mount,
        seated,
        writer,
    } = staged(rt, alloc, MOST, first);
    let Mount {
        maker: _,
        publisher,
        passes: _,
        wake_signal,
        signal,
        writers,
    } = mount;
    let theirs = Arc::try_clone(&signal).expect(&rt, "a count of its users");
    let mut feed = MountFeed::new(rt, publisher, theirs, wake_signal, KEEP);
    publish(&rt, &mut feed, &signal, then);
    let _waited = feed.end();
    for _ in 0..SINGLY {
        thread::sleep(&rt, Duration::from_millis(PAUSE));
        seated.room.fetch_add(1, Ordering::SeqCst);
    }
    seated.let_on(None);
    assert!(rt; has_come(&rt, &seated.bytes, FIRST, first));
    let bytes = Arc::try_clone(&seated.bytes).expect(&rt, "a count of its users");
    let left = seated.account(&rt, &writers);
    writers.stop();
    writer.join(&rt);
    assert!(rt; bytes.lock(&rt).as_slice() == first);
    let want = Left {
        taken: u64::from(BEFORE),
        lost: 0,
        left: u64::from(LATE),
    };
    assert!(rt; left == Some(want));
}

#[test]
fn a_player_that_takes_too_long_after_its_mounts_end_leaves_the_rest(rt: HostRuntime) {
    is_given_up_after_its_mounts_end(rt, rt.alloc());
}
