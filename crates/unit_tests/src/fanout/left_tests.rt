//! A publisher, and players that have left: none of them is awaited any more.
use crate::fanout::pace_tests::{BURST, Stage, TRIES, publish, staged};
use std::alloc::Global;
use std::process::Abort;
use std::sync::Wait;
use std::thread;
use std::thread::Threads;
use std::time::{Clock, Duration};

/// How many milliseconds a write takes to a player that then leaves: fewer than a publisher waits at least for one that stays.
const WRITE: u64 = 2;

/// How many milliseconds a publisher waits at most for it: it looks after half of the 20 milliseconds that it may wait.
const SOON: u64 = 9;

/// How many bursts come after a player that left: none of them may wait, on whatever machine.
const BURSTS: u32 = 5;

impl<R> Stage<R>
where
    R: Threads + Wait + Clock + Abort + Copy + Drop + Send + Sync + 'static,
{
    /// The frames of the player end as those of a connection that goes on.
    fn stop_player(&mut self, rt: &R) {
        let player = self.players.pop().expect(rt, "a player");
        player.player.phase.stop(rt);
        self.feed.signal().wake();
        let _tap = player.stop(rt, &self.writers);
    }
}

/// Returns for how many milliseconds a burst waits for a player whose socket fails meanwhile.
fn waited_for_one_that_leaves<R>(rt: R, alloc: Global) -> u64
where
    R: Threads + Wait + Clock + Abort + Copy + Drop + Send + Sync + 'static,
{
    let mut stage = staged(rt, alloc, 1, &[WRITE], false);
    thread::sleep(&rt, Duration::from_millis(20));
    if let Some(player) = stage.players.first() {
        player.let_on(Some(0));
    }
    publish(&rt, &mut stage.feed, BURST);
    stage.stop_player(&rt);
    stage.end(&rt).0
}

/// It wakes the publisher that waits for it.
#[test]
fn a_player_that_leaves_is_waited_for_no_longer(rt: HostRuntime) {
    let alloc = rt.alloc();
    assert!(rt;
        (0..TRIES).any(|_| {
            let waited = waited_for_one_that_leaves(rt, alloc);
            waited > 0 && waited <= SOON
        })
    );
}

/// Returns for how many milliseconds bursts wait that come after the only player was taken from its thread or writer.
fn waited_for_one_that_left<R>(rt: R, alloc: Global, by_writer: bool) -> u64
where
    R: Threads + Wait + Clock + Abort + Copy + Drop + Send + Sync + 'static,
{
    let mut stage = staged(rt, alloc, 1, &[0], by_writer);
    // So that it has taken all, and keeps up.
    thread::sleep(&rt, Duration::from_millis(20));
    stage.stop_player(&rt);
    publish(&rt, &mut stage.feed, BURST);
    stage.end(&rt).0
}

#[test]
fn a_player_that_left_is_not_waited_for(rt: HostRuntime) {
    let alloc = rt.alloc();
    for by_writer in [false, true] {
        for _ in 0..BURSTS {
            assert!(rt; waited_for_one_that_left(rt, alloc, by_writer) == 0);
        }
    }
}
