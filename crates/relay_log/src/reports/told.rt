//! Which lines a report has room for, and in which order the next report tells of players.
ghost use Rattle.std.specs.Prelude.{◌≡◌, ◌+◌, ◌<◌, ◌≤◌, ◌↔◌, ℕ, IsTrue, length, take, drop, slice_get, IfSome};
ghost use Rattle.relay_accounts.specs.Capped.{capped};
ghost use Rattle.relay_log.specs.Orders.{ComesBefore, has_lost, losers, untold_first};

use crate::limits::REPORT_LINES;
use status::PlayerStatus;

/// How many lines of a report were logged, and how many found no room.
#[derive(Clone, Copy, Debug, PartialEq, Eq, Drop)]
pub(super) struct Told {
    pub(super) lines: usize,
    pub(super) more: u64,
    ghost few: { lines ≤ 100 },
}

impl Told {
    /// Nothing is logged yet.
    pub(super) fn new() -> Told
        ensures lines { result.lines ≡ 0 }
        ensures more { result.more ≡ 0 }
    {
        Told { lines: 0, more: 0 }
    }

    /// Returns whether one more line may be logged. The line is counted either way.
    pub(super) fn has_room(&mut self) -> bool
        ensures room { IsTrue result ↔ (self.old.lines < 100) }
        ensures logged { IsTrue result → (self.new.lines ≡ self.old.lines + 1) × (self.new.more ≡ self.old.more) }
        ensures left_out { (IsTrue result → ⊥) → (self.new.lines ≡ self.old.lines) × (self.new.more ≡ capped (self.old.more + 1)) }
    {
        if self.lines < REPORT_LINES {
            self.lines += 1;
            return true;
        }
        self.more = self.more.saturating_add(1);
        false
    }

    /// Returns the place of the first of these players that has lost packets and finds no room, or how many players there are. Each
    /// before it that has lost packets has a line. The lines are counted, and those that find no room.
    pub(super) fn count_players(&mut self, players: &[PlayerStatus]) -> usize
        ensures within { result ≤ length players.now }
        ensures told { self.new.lines ≡ self.old.lines + losers (take result players.now) }
        ensures full { result < length players.now → self.new.lines ≡ 100 }
        ensures first { result < length players.now → IfSome (slice_get players.now result) (λ player. IsTrue (has_lost player)) }
        ensures more { self.new.more ≡ capped (self.old.more + losers (drop result players.now)) }
    {
        let end = room_ends(players, REPORT_LINES - self.lines);
        self.lines += count_losers(&players[..end]);
        self.more = self
            .more
            .saturating_add(count_losers(&players[end..]) as u64);
        end
    }
}

/// Returns the place of the first of these players that has lost packets and for which there is no room in so many lines, or how
/// many players there are.
fn room_ends(players: &[PlayerStatus], room: usize) -> usize
    ensures within { result ≤ length players.now }
    ensures told { losers (take result players.now) ≤ room }
    ensures full { result < length players.now → losers (take result players.now) ≡ room }
    ensures first { result < length players.now → IfSome (slice_get players.now result) (λ player. IsTrue (has_lost player)) }
{
    let mut left = room;
    for (place, player) in players.iter().enumerate() {
        if !player.has_lost() {
            continue;
        }
        if left == 0 {
            return place;
        }
        left -= 1;
    }
    players.len()
}

/// Counts those of these players that have lost packets.
fn count_losers(players: &[PlayerStatus]) -> usize
    ensures { result ≡ losers players.now }
{
    players.iter().filter(|player| player.has_lost()).count()
}

/// Brings a list into the order of the next report, if the first that found no room is at this place: it begins with that one.
pub(super) fn turn<T>(list: &mut [T], end: usize)
    ensures list { list.new ≡ untold_first end list.old }
    ensures untold_before_told { (untold told : ℕ) → end ≤ untold → untold < length list.old → told < end → ComesBefore list.new (slice_get list.old untold) (slice_get list.old told) }
{
    let end = end.min(list.len());
    list.rotate_left(end);
}
