//! The phase of the thread that sends a connection's frames.
ghost use Rattle.std.specs.Prelude.{◌≡◌, ◌↔◌, ◌≤◌, IsTrue};
ghost use Rattle.waking.specs.Phases.{rank, stopped};
ghost use Rattle.waking.specs.declared.phase.Phase.TheVariants.{Running, Ended};

/// The phase of a frame thread. It moves only forward.
#[derive(Clone, Copy, Debug, PartialEq, Eq, Drop)]
pub enum Phase {
    Running,
    /// A stop was requested, and it hasn't ended yet.
    Stopping,
    Ended,
}

impl Phase {
    /// Of a frame thread that is about to be started.
    pub fn new() -> Phase
        ensures { result ≡ Running }
    {
        Phase::Running
    }

    /// Requests the frame thread to stop. It has no effect on one that has ended.
    pub fn stop(&mut self)
        ensures stops { self.new ≡ stopped self.old }
        ensures forward { rank self.old ≤ rank self.new }
    {
        if *self == Phase::Running {
            *self = Phase::Stopping;
        }
    }

    /// The frame thread has nothing more to do.
    pub fn end(&mut self)
        ensures ends { self.new ≡ Ended }
        ensures forward { rank self.old ≤ rank self.new }
    {
        *self = Phase::Ended;
    }

    /// Whether the frame thread may go on.
    pub fn is_running(&self) -> bool
        ensures { IsTrue result ↔ (self.now ≡ Running) }
    {
        *self == Phase::Running
    }

    /// Whether it has ended.
    pub fn has_ended(&self) -> bool
        ensures { IsTrue result ↔ (self.now ≡ Ended) }
    {
        *self == Phase::Ended
    }
}
