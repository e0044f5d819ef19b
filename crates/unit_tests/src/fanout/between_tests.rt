//! Packets that come between a look at the ring and the sleep behind it.
use crate::fanout::packets::small_frames;
use crate::fanout::stage::{KEEP, LONGEST, Mount};
use cursor::Feed;
use relay_fanout::MountFeed;
use std::alloc::Global;
use std::process::Abort;
use std::sync::atomic::{AtomicU64, Ordering};
use std::sync::{Arc, Wait};
use std::thread;
use std::thread::Threads;
use std::time::{Clock, Duration};
use test_kit::has_come;

/// How many packets are published, each while the write of the one before is held.
const PACKETS: u16 = 10;

/// Waits until a count is `least`, for at most ten seconds. Returns whether it is.
fn has_counted<R: Clock>(rt: &R, count: &AtomicU64, least: u64) -> bool {
    for _ in 0..10_000u32 {
        if count.load(Ordering::SeqCst) >= least {
            return true;
        }
        thread::sleep(rt, Duration::from_millis(1));
    }
    false
}

/// A packet is written once the ring was found empty behind it. While that write is held, the next packet is published and the
/// players are woken: who sends has read the words that it sleeps on before, and doesn't sleep yet. So that packet is written only if
/// the wake-up is counted, and if the words were read before the look at the ring.
fn comes_between_look_and_sleep<R>(rt: R, alloc: Global, has_thread: bool)
where
    R: Threads + Wait + Clock + Abort + Copy + Drop + Send + Sync + 'static,
{
    let packets = small_frames(alloc, PACKETS).expect(&rt, "memory");
    let mut mount = Mount::new(&rt, alloc, 1, 20_000);
    let mut seated = mount.seat(rt, alloc, 0);
    seated.let_on(None);
    seated.may_go_on.store(0, Ordering::SeqCst);
    let writer = mount.start_writer(rt, alloc);
    if has_thread {
        seated.start(rt, alloc);
    } else {
        seated.give_to(&rt, &mount.writers);
    }
    let Mount {
        maker: _,
        publisher,
        passes: _,
        wake_signal,
        signal,
        writers,
    } = mount;
    let mut feed = MountFeed::new(rt, publisher, signal, wake_signal, KEEP);
    let mut published = 0u64;
    for frame in packets.as_slice().chunks_exact(LONGEST) {
        assert!(&rt; feed.publish(0, frame.get(4..).unwrap_or(b"")).is_ok());
        seated.may_go_on.store(published, Ordering::SeqCst);
        published = published.wrapping_add(1);
        assert!(&rt; has_counted(&rt, &seated.came, published), "{published}");
    }
    seated.may_go_on.store(u64::MAX, Ordering::SeqCst);
    let _waited = feed.end();
    assert!(&rt; has_come(&rt, &seated.bytes, packets.len(), packets.as_slice()));
    let left = seated.account(&rt, &writers);
    writers.stop();
    writer.join(&rt);
    assert!(&rt; left.is_some_and(|left| left.taken == u64::from(PACKETS)));
}

#[test]
fn a_packet_comes_before_a_writer_sleeps(rt: HostRuntime) {
    comes_between_look_and_sleep(rt, rt.alloc(), false);
}

#[test]
fn a_packet_comes_before_a_frame_thread_sleeps(rt: HostRuntime) {
    comes_between_look_and_sleep(rt, rt.alloc(), true);
}
