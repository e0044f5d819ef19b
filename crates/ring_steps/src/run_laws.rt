//! What holds of each run, whatever its script and its schedule.

ghost use Rattle.std.specs.Prelude.{◌≡◌, ◌≤◌, ℕ, List, map};
ghost use Rattle.cursor.specs.Log.{LegalHistory, Log};
ghost use Rattle.cursor.specs.Player.{PlayersReceive};
ghost use Rattle.cursor.specs.Plain.{Plain, PlainRun, empty_plain};
ghost use Rattle.ring_steps.specs.declared.calls.Actor.{Actor};
ghost use Rattle.ring_steps.specs.declared.config.Config.{Config};
ghost use Rattle.ring_steps.specs.Acting.{history_of};
ghost use Rattle.ring_steps.specs.Answers.{packet_of};
ghost use Rattle.ring_steps.specs.Faults.{actors};
ghost use Rattle.ring_steps.specs.RunningOut.{GoesOnWithout};
ghost use Rattle.ring_steps.specs.Runs.{At, Calls, Move, Ran, Turn, start};
ghost use Rattle.ring_steps.specs.Scripts.{IsGoodConfig, IsGoodScript};
ghost use Rattle.ring_steps.specs.Traces.{ActsOnce, MeetsPins, StepsAreFew, TellsAccounts};
ghost use Rattle.ring_steps.specs.Within.{ActsWithin};

/// The events of a run, in the order of their acting steps, are a legal history of the broadcast log,
/// which leads to a log with the packets that the publisher appended.
pub fn acting_order_is_legal()
    ensures { (script : Calls) (keep seats : ℕ) (turns : List Turn) (end : At) → 1 ≤ keep → Ran script (start keep seats) turns end
        → (log : Log) × (log.packets ≡ map packet_of end.ring.log) × LegalHistory keep seats (history_of turns) log }
{}

/// They are those of a plain log too, whose accounts a detachment tells.
pub fn acting_order_is_plain()
    ensures { (script : Calls) (keep seats : ℕ) (turns : List Turn) (end : At) → 1 ≤ keep → Ran script (start keep seats) turns end
        → (plain : Plain) × PlainRun (empty_plain keep seats 0) (history_of turns) plain }
{}

/// So each player receives, in order, the log from its attachment less exactly its losses, and nothing
/// while it is detached.
pub fn players_receive_the_log()
    ensures { (script : Calls) (keep seats : ℕ) (turns : List Turn) (end : At) → 1 ≤ keep → Ran script (start keep seats) turns end
        → PlayersReceive keep (history_of turns) (map packet_of end.ring.log) }
{}

/// Once the script and the actors are given, a run has no choice.
pub fn runs_have_no_choice()
    ensures turns { (script : Calls) (old : At) (turns others : List Turn) (end other : At) → Ran script old turns end → Ran script old others other
        → actors turns ≡ actors others → turns ≡ others }
    ensures end { (script : Calls) (old : At) (turns others : List Turn) (end other : At) → Ran script old turns end → Ran script old others other
        → actors turns ≡ actors others → end ≡ other }
{}

/// A detachment tells the packets that were taken and lost since its seat was attached.
pub fn detachments_tell_their_account()
    ensures { (script : Calls) (keep seats : ℕ) (turns : List Turn) (end : At) → 1 ≤ keep → Ran script (start keep seats) turns end
        → TellsAccounts (history_of turns) }
{}

/// A call acts at a step of its own actor within this very call, from its first step on and not after
/// its answer; and where that is goes by a table. An appended publish acts at its append, a refused one
/// at its failed begin, and a close at its store. An attachment and a detachment act at their load, and
/// so does a take at its first load; but for a take that was answered a loss after a failed pin, which
/// acts at its second load.
pub fn calls_act_within_themselves()
    ensures { (script : Calls) (keep seats : ℕ) (turns : List Turn) (end : At) → Ran script (start keep seats) turns end
        → ActsWithin script turns }
{}

/// Each answered call has one event, with its answer, and no other call has one: in the acting order the
/// events of an actor are its answered calls with their answers, in the order of its script.
pub fn answered_calls_have_one_event()
    ensures { (script : Calls) (keep seats : ℕ) (turns : List Turn) (end : At) → Ran script (start keep seats) turns end
        → ActsOnce script turns end }
{}

/// A take makes at most 4 atomic steps, a publish at most 3, and every other call 1: so many does an
/// actor make from one answer to its next.
pub fn calls_make_few_atomic_steps()
    ensures { (script : Calls) (keep seats : ℕ) (turns : List Turn) (end : At) → Ran script (start keep seats) turns end
        → StepsAreFew turns }
{}

/// A refused publish of a run saw as many pins as seats stood between their pin and unpin in that slot:
/// at least one, and at most all.
pub fn refused_publishes_met_pins()
    ensures { (script : Calls) (keep seats : ℕ) (turns : List Turn) (mid new : At) (t : Turn) → 1 ≤ keep → Ran script (start keep seats) turns mid → Move script mid t new
        → MeetsPins mid.ring t }
{}

/// Nobody waits for an actor that stops: wherever a run stands, and whoever stops there, the others can go on
/// until each of their calls is answered.
pub fn nobody_waits_for_who_stops()
    ensures { (config : Config) (script : Calls) (turns : List Turn) (mid : At) (stopped : Actor) → IsGoodConfig config script → IsGoodScript script
        → Ran script (start config.keep config.seats) turns mid → GoesOnWithout script stopped mid }
{}
