ghost use Rattle.std.specs.Prelude.{◌≡◌, length};

use executors::Task;
use plain_data::Items;
use scripts::TaskId;

/// A task that a client submits to a queue.
#[derive(Debug, Drop)]
pub struct Submission {
    /// The step of the client that submits it.
    pub step: u32,

    /// The number of the queue.
    pub queue: u32,
    pub task: Task,

    /// The batches that the client had awaited.
    pub seen: u32,

    /// When it times out, in milliseconds; 2^43 - 1 stands for never.
    pub deadline: u64,
}

/// A task that waits, with which task it is.
#[derive(Debug, Drop)]
pub struct WaitingTask {
    pub id: TaskId,
    pub task: Task,
}

/// An entry of the waiting list. It stays there after its task timed out.
#[derive(Debug, Drop)]
pub struct Waiting {
    /// The number of its queue.
    pub queue: u32,
    pub entry: WaitingTask,
}

/// All that waited in one queue, in the order of submission.
#[derive(Debug, Drop)]
pub struct Taken {
    /// The number of the queue.
    pub queue: u32,
    pub waiting: Items<WaitingTask>,
}

impl Taken {
    /// How many tasks there are.
    pub fn count(&self) -> usize
        ensures { result ≡ length self.now.waiting }
    {
        self.waiting.len()
    }
}
