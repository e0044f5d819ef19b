//! What is sent together, and what is reported and freed when a player or a mount leaves.
use crate::account_tests::{
    LAST, PACKETS, PUBLIC_END, Stall, accounted, playing, published, recording,
};
use crate::devices::{Manner, Written, flag};
use crate::rings::Rings;
use crate::serving::{SharedRings, Watch, book_of, shared_over};
use crate::words::CountedWords;
use interleaved::Writing;
use mount_signals::WakeSignal;
use packet_ring::Subscriber;
use relay_accounts::ConnectionEnd;
use relay_fanout::{SendSide, WritingSide};
use std::alloc::Global;
use std::process::Abort;
use std::random::RandomSource;
use std::sync::atomic::Ordering;
use std::sync::{Arc, Wait};
use std::thread;
use std::time::Duration;
use test_kit::{Open, count, has_come, wait_for};

/// Lengths of replies: the shortest, lengths about that of the gathering buffer, and longer ones.
const LENGTHS: [usize; 6] = [28, 32_767, 32_768, 32_769, 65_536, 100_000];

/// After each call all of its reply is written, in a write for each 32,768 bytes and at most one more.
#[test]
fn a_reply_of_any_length_is_written_out_at_once(rt: HostRuntime) {
    let alloc = rt.alloc();
    let watch = Watch::new(&rt, alloc);
    let writes = count(alloc).expect(&rt, "memory");
    let manner = Manner::Held {
        free: usize::MAX,
        waits: flag(&rt, alloc),
        let_on: flag(&rt, alloc),
        writes: Arc::try_clone(&writes).expect(&rt, "a count of its users"),
    };
    let bytes = Arc::try_clone(&watch.written).expect(&rt, "a count of its users");
    let sink = Written { rt, bytes, manner };
    let line = WritingSide::new(alloc, Writing::new(sink));
    let player: SendSide<Subscriber, _, _> = SendSide::new(line, Open);
    let wake_signal = WakeSignal::new();
    let mut all = 0usize;
    for len in LENGTHS {
        let text = Vec::from_elem(alloc, b'a', len).expect(&rt, "memory");
        all = all.saturating_add(len);
        let written = player.write(&rt, &wake_signal, text.as_slice());
        assert!(rt; written.is_ok(), "{len} bytes");
        assert!(rt; watch.written.lock(&rt).len() == all, "{len} bytes");
        let most = (len / 32_768).saturating_add(1) as u64;
        assert!(rt; writes.swap(0, Ordering::SeqCst) <= most, "{len} bytes");
    }
}

/// What two connections share, over this ring of one seat.
fn shared<R: RandomSource + Wait + Abort>(
    rt: &R,
    alloc: Global,
    rings: Rings,
) -> SharedRings<CountedWords> {
    shared_over(rt, alloc, book_of(rt, alloc, 1, 2), rings, CountedWords(1))
}

/// Forty packets come while a write to their player makes no progress. Beside its two replies there are that write, and three
/// for what waits, sixteen packets at a time.
#[test]
fn sixteen_waiting_packets_leave_in_one_write(rt: HostRuntime) {
    let alloc = rt.alloc();
    let shared = shared(&rt, alloc, Rings::keeping(&rt, alloc, 1, 64));
    let camera = recording(rt, alloc, &shared, None);
    let stall = Stall::new(&rt, alloc);
    let player = playing(rt, alloc, &shared, &stall);
    assert!(rt; published(&rt, &shared, camera) == PACKETS);
    stall.end();
    assert!(rt; has_come(&rt, &player.watch.written, 0, LAST));
    assert!(rt; stall.writes.load(Ordering::SeqCst) <= 6);
    let (end, counts, _written) = player.end(&rt);
    assert!(rt; end == ConnectionEnd::Done && counts.sent == PACKETS);
}

/// Its mount goes on, so that only the waking thread wakes it for the last packets.
#[test]
fn a_player_that_leaves_is_told_its_losses(rt: HostRuntime) {
    let alloc = rt.alloc();
    let shared = shared(&rt, alloc, Rings::of(&rt, alloc, 1));
    let theirs = Arc::try_clone(&shared).expect(&rt, "a count of its users");
    let waking = thread::spawn(
        &rt,
        move || theirs.wake_players(&rt, Duration::from_millis(1)),
    );
    let waking = waking.expect(&rt, "a thread");
    let stay = flag(&rt, alloc);
    let camera = recording(rt, alloc, &shared, Some(&stay));
    let stall = Stall::new(&rt, alloc);
    let player = playing(rt, alloc, &shared, &stall);
    let replies = player.watch.written.lock(&rt).len();
    camera.watch.let_on.store(true, Ordering::SeqCst);
    assert!(rt; has_come(&rt, &camera.watch.written, 0, PUBLIC_END));
    stall.end();
    assert!(rt; has_come(&rt, &player.watch.written, replies, LAST));
    let accounted = accounted(&rt, player, replies);
    assert!(rt; shared.recorded(&rt) == 1);
    stay.store(true, Ordering::SeqCst);
    assert!(rt; accounted == Some(published(&rt, &shared, camera)));
    shared.stop_waking();
    waking.join(&rt);
}

/// Nothing of the mount's packets is kept for a player that has read them all and asks for no more.
#[test]
fn an_ended_mounts_ring_goes_though_its_player_stays(rt: HostRuntime) {
    let alloc = rt.alloc();
    let rings = Rings::of(&rt, alloc, 1);
    let gone = Arc::try_clone(&rings.gone).expect(&rt, "a count of its users");
    let shared = shared(&rt, alloc, rings);
    let camera = recording(rt, alloc, &shared, None);
    let stall = Stall::new(&rt, alloc);
    let player = playing(rt, alloc, &shared, &stall);
    stall.end();
    let published = published(&rt, &shared, camera);
    assert!(rt; has_come(&rt, &player.watch.written, 0, LAST));
    wait_for(&rt, &gone);
    assert!(rt; gone.load(Ordering::SeqCst));
    let (end, counts, _written) = player.end(&rt);
    assert!(rt; end == ConnectionEnd::Done);
    assert!(rt; counts.sent.checked_add(counts.lost) == Some(published));
}
