//! What a command line asks for, and the exit code of how that went.
ghost use Rattle.std.specs.Prelude.{◌≡◌};
ghost use Rattle.std.specs.Process.{exit_status};
ghost use Rattle.relay_command.specs.Commands.{task_of};

use std::process::ExitCode;

/// What an accepted command line asks for.
#[derive(Clone, Copy, Debug, PartialEq, Eq)]
pub enum Task {
    /// `relay talk`: one connection is answered.
    Talk,
    /// `relay steps`: a ring's schedule is run.
    Steps,
    /// `relay serve`: connections are served.
    Serve,
    /// `relay pass`: a publisher's stream goes through a ring.
    Pass,
    /// `relay pull`: a stream is fetched and published.
    Pull,
}

/// Returns the task that a command's name means. `None` if the program has no such command.
pub fn task_named(name: &str) -> Option<Task>
    ensures { result ≡ task_of name.now }
{
    match name {
        "talk" => Some(Task::Talk),
        "steps" => Some(Task::Steps),
        "serve" => Some(Task::Serve),
        "pass" => Some(Task::Pass),
        "pull" => Some(Task::Pull),
        _ => None,
    }
}

/// Returns the exit code of a status.
pub fn exit_code(status: u8) -> ExitCode
    ensures { exit_status result ≡ status }
{
    ExitCode::from(status)
}
