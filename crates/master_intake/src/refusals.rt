ghost use Rattle.std.specs.Prelude.{◌≡◌};
ghost use Rattle.master_intake.specs.Intakes.{refusal_number};

use executors::Task;
use thiserror::Error;

/// Why a task isn't submitted.
#[derive(Clone, Copy, Debug, PartialEq, Eq, Error)]
pub enum IntakeRefusal {
    /// The master is to stop. Nothing changed.
    #[error("the master is closed")]
    Closed,

    /// The client's lane has no word for the step. Nothing changed.
    #[error("the lane is full")]
    LaneFull,

    /// There was not enough memory: what waits is as it was, and the words of tasks may tell of the task. The session
    /// is to be given up.
    #[error("out of memory")]
    OutOfMemory,
}

impl IntakeRefusal {
    /// Its number, from 1.
    pub fn number(&self) -> u8
        ensures { result ≡ refusal_number self.now }
    {
        match self {
            IntakeRefusal::Closed => 1,
            IntakeRefusal::LaneFull => 2,
            IntakeRefusal::OutOfMemory => 3,
        }
    }
}

/// A task that isn't submitted: why, and the task itself, except after want of memory.
#[derive(Debug, Drop)]
pub struct NotSubmitted {
    pub why: IntakeRefusal,
    pub task: Option<Task>,
}
