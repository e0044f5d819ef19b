//! A publisher, and the players that it is slowed to.
use crate::fanout::stage::{KEEP, Mount, Seated, Writer};
use cursor::{Feed, Left, Refused};
use mount_signals::{MountSignal, WakeSignal};
use packet_ring::Publisher;
use relay_fanout::MountFeed;
use std::alloc::Global;
use std::process::Abort;
use std::sync::{Arc, Wait};
use std::thread;
use std::thread::{JoinHandle, Threads};
use std::time::{Clock, Duration, Instant};
use test_kit::{FRAME, PACKET, has_come};

/// How many packets come at once: more than are kept.
pub(super) const BURST: u64 = 160;

/// How often a test that depends on times is tried at most, because a machine that does other work may be late. It is tried
/// until it passes once, so that only a failure takes this long.
pub(super) const TRIES: u32 = 60;

/// A mount whose players keep up.
#[derive(Drop)]
pub(super) struct Stage<R: Wait + Clock + Drop> {
    pub(super) feed: MountFeed<R, Publisher>,
    pub(super) players: Vec<Seated<R>>,
    pub(super) writers: Arc<Writer<R>, Global>,
    writer: JoinHandle<()>,
}

/// A mount of `seats` seats. Players are in the last of them, one for each of these waits, which is the time of each write to
/// it. Their frames are sent by a writer or by a thread for each player. They have taken the one packet that there is.
pub(super) fn staged<R>(
    rt: R,
    alloc: Global,
    seats: usize,
    waits: &[u64],
    by_writer: bool,
) -> Stage<R>
where
    R: Threads + Wait + Clock + Abort + Copy + Drop + Send + Sync + 'static,
{
    let mut mount = Mount::new(&rt, alloc, seats, 20_000);
    let writer = mount.start_writer(rt, alloc);
    let mut players: Vec<Seated<R>> = Vec::new(alloc);
    for wait in waits {
        let mut player = mount.seat(rt, alloc, *wait);
        player.let_on(None);
        if by_writer {
            player.give_to(&rt, &mount.writers);
        } else {
            player.start(rt, alloc);
        }
        players.push(player).expect(&rt, "memory");
    }
    let Mount {
        maker: _,
        publisher,
        passes: _,
        wake_signal,
        signal,
        writers,
    } = mount;
    let mut feed = MountFeed::new(rt, publisher, signal, wake_signal, KEEP);
    publish(&rt, &mut feed, 1);
    for player in &players {
        assert!(rt; has_come(&rt, &player.bytes, FRAME.len(), FRAME));
    }
    Stage {
        feed,
        players,
        writers,
        writer,
    }
}

/// Publishes `count` packets.
pub(super) fn publish<R: Wait + Clock + Drop>(
    rt: &impl Abort,
    feed: &mut MountFeed<R, Publisher>,
    count: u64,
) {
    for _ in 0..count {
        let published = feed.publish(0, PACKET);
        assert!(rt; !matches!(published, Err(Refused::TooLong)));
    }
}

impl<R> Stage<R>
where
    R: Threads + Wait + Clock + Abort + Copy + Drop + Send + Sync + 'static,
{
    /// Ends the mount. Returns for how many milliseconds packets waited for players, and how many packets these lost.
    pub(super) fn end(self, rt: &R) -> (u64, u64) {
        let Stage {
            feed,
            players,
            writers,
            writer,
        } = self;
        let waited = feed.end();
        assert!(rt; have_ended(rt, &writers));
        let mut lost = 0u64;
        for player in players {
            let left: Left = player
                .account(rt, &writers)
                .expect(rt, "a player that left");
            lost = lost.saturating_add(left.lost);
        }
        writers.stop();
        writer.join(rt);
        (waited, lost)
    }
}

/// Returns whether no writer has a player any more within 10,000 turns of a millisecond.
fn have_ended<R: Wait + Clock + Drop>(rt: &R, writers: &Writer<R>) -> bool {
    for _ in 0..10_000u32 {
        if writers.players(rt) == 0 {
            return true;
        }
        thread::sleep(rt, Duration::from_millis(1));
    }
    false
}

/// Returns how many milliseconds have passed since then.
fn passed<R: Clock + Abort>(rt: &R, began: Instant) -> u64 {
    let now = Instant::now(rt).expect(rt, "a clock");
    u64::try_from(now.duration_since(began).as_millis()).unwrap_or(u64::MAX)
}

/// A burst waits for the player in the last of 1,024 seats, whose writes take longer than that.
fn is_awaited<R>(rt: R, alloc: Global, by_writer: bool) -> bool
where
    R: Threads + Wait + Clock + Abort + Copy + Drop + Send + Sync + 'static,
{
    let mut stage = staged(rt, alloc, 1024, &[200], by_writer);
    publish(&rt, &mut stage.feed, BURST);
    stage.end(&rt).0 > 0
}

#[test]
fn a_burst_waits_for_the_player_in_the_last_seat(rt: HostRuntime) {
    let alloc = rt.alloc();
    for by_writer in [false, true] {
        assert!(rt; (0..TRIES).any(|_| is_awaited(rt, alloc, by_writer)));
    }
}

/// A burst waits for a player whose socket takes all again, after it took nothing until no publisher waited for it.
fn is_awaited_again<R>(rt: R, alloc: Global) -> bool
where
    R: Threads + Wait + Clock + Abort + Copy + Drop + Send + Sync + 'static,
{
    let mut stage = staged(rt, alloc, 1, &[50], true);
    if let Some(player) = stage.players.first() {
        player.let_on(Some(0));
    }
    publish(&rt, &mut stage.feed, 1);
    thread::sleep(&rt, Duration::from_millis(300));
    if let Some(player) = stage.players.first() {
        player.let_on(None);
        assert!(rt; has_come(&rt, &player.bytes, FRAME.len().saturating_mul(2), FRAME));
    }
    thread::sleep(&rt, Duration::from_millis(20));
    publish(&rt, &mut stage.feed, BURST);
    stage.end(&rt).0 > 0
}

#[test]
fn a_player_that_comes_back_is_waited_for_again(rt: HostRuntime) {
    let alloc = rt.alloc();
    assert!(rt; (0..TRIES).any(|_| is_awaited_again(rt, alloc)));
}

/// How long each write to four players takes, in milliseconds. They reach a round's target at four times, and the later ones
/// are later than a publisher waits.
const WAITS: [u64; 4] = [3, 6, 9, 12];

/// Returns for how many milliseconds fifteen bursts wait for these players, and how many milliseconds all of it takes. The
/// players have taken all of a burst before the next one.
fn waited_for_bursts<R>(rt: R, alloc: Global) -> (u64, u64)
where
    R: Threads + Wait + Clock + Abort + Copy + Drop + Send + Sync + 'static,
{
    let mut stage = staged(rt, alloc, WAITS.len(), &WAITS, false);
    let began = Instant::now(&rt).expect(&rt, "a clock");
    for _ in 0..15u32 {
        publish(&rt, &mut stage.feed, KEEP);
        thread::sleep(&rt, Duration::from_millis(60));
    }
    let time = passed(&rt, began);
    (stage.end(&rt).0, time)
}

/// A publisher waits for no longer than twenty milliseconds in any two hundred.
#[test]
fn waits_for_players_are_bounded_in_time(rt: HostRuntime) {
    let alloc = rt.alloc();
    assert!(rt;
        (0..TRIES).any(|_| {
            let (waited, time) = waited_for_bursts(rt, alloc);
            waited > 20 && waited <= (time / 200 + 1) * 20
        })
    );
}

/// Returns for how many milliseconds the packets of a second without a pause wait for a player each write to which takes `wait`
/// milliseconds.
fn waited_without_a_pause<R>(rt: R, alloc: Global, wait: u64) -> u64
where
    R: Threads + Wait + Clock + Abort + Copy + Drop + Send + Sync + 'static,
{
    let mut stage = staged(rt, alloc, 1, &[wait], false);
    let began = Instant::now(&rt).expect(&rt, "a clock");
    for _ in rt.forever() {
        if passed(&rt, began) >= 1_000 {
            break;
        }
        publish(&rt, &mut stage.feed, KEEP);
    }
    stage.end(&rt).0
}

/// The player reaches the round's target later than its publisher waits, and never again takes all.
#[test]
fn a_player_that_falls_behind_is_waited_for_once(rt: HostRuntime) {
    let alloc = rt.alloc();
    assert!(rt;
        (0..TRIES).any(|_| {
            let waited = waited_without_a_pause(rt, alloc, 20);
            waited > 0 && waited <= 20
        })
    );
}

/// A feed of which each publish meets a reader.
#[derive(Drop)]
struct Pinned;

impl Feed for Pinned {
    ghost use Rattle.std.specs.Prelude.{None, ⊤};

    ghost told = { λ _. None };

    ghost packet_bytes = { λ _. 16 };

    ghost may_refuse = { λ _. ⊤ };

    ghost publish_gives = { λ _ _ _ _. ⊤ };

    fn publish(&mut self, _tag: u8, bytes: &[u8]) -> Result<u64, Refused> {
        if bytes.len() > 16 {
            return Err(Refused::TooLong);
        }
        Err(Refused::Pinned { pins: 1 })
    }

    fn packet_bytes(&self) -> usize {
        16
    }

    fn close(self) {}
}

/// Returns for how many milliseconds a publish that meets a reader at each try is tried.
fn tried_for<R: Wait + Clock + Abort + Copy + Drop>(rt: R, alloc: Global) -> u64 {
    let wake_signal = Arc::new(alloc, WakeSignal::new()).expect(&rt, "memory");
    let theirs = Arc::try_clone(&wake_signal).expect(&rt, "a count of its users");
    let signal = MountSignal::new(alloc, 1, theirs).expect(&rt, "memory");
    let signal = Arc::new(alloc, signal).expect(&rt, "memory");
    let mut feed = MountFeed::new(rt, Pinned, signal, wake_signal, KEEP);
    let began = Instant::now(&rt).expect(&rt, "a clock");
    assert!(rt; feed.publish(0, FRAME) == Err(Refused::Pinned { pins: 1 }));
    passed(&rt, began)
}

#[test]
fn a_pinned_publish_is_tried_for_twenty_milliseconds(rt: HostRuntime) {
    let alloc = rt.alloc();
    assert!(rt;
        (0..TRIES).any(|_| {
            let time = tried_for(rt, alloc);
            10 <= time && time <= 40
        })
    );
}
