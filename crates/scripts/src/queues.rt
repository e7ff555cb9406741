use executors::Kind;
use plain_data::Text;

/// How urgent a queue is; the first is served first (Elasticsearch's `Priority`).
#[derive(Clone, Copy, Debug, PartialEq, Eq, PartialOrd, Ord)]
pub enum Priority {
    Immediate,
    Urgent,
    High,
    Normal,
    Low,
    Languid,
}

/// A queue of tasks (Elasticsearch's `MasterServiceTaskQueue`): all that waits in it runs as one batch of its
/// executor.
#[derive(Debug, Drop)]
pub struct QueueSpec {
    pub name: Text,
    pub executor: Kind,
    pub priority: Priority,
}
