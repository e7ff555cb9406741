use executors::TaskRefusal;
use plain_data::{Items, Text};

/// The tasks of one queue that ran together, and what came of it. Times are milliseconds.
#[derive(Debug, Drop)]
pub struct Batch {
    /// The queue's name.
    pub queue: Text,

    /// When it was taken.
    pub at: u64,

    /// Its tasks, in the order in which they were taken.
    pub entries: Items<Entry>,
    pub result: BatchResult,
}

/// A task of a batch.
#[derive(Clone, Copy, Debug, PartialEq, Eq)]
pub struct Entry {
    pub client: u32,
    pub step: u32,

    /// The greatest number of a batch whose end its client had awaited as it submitted the task; 0 if none.
    pub seen: u32,
}

/// What came of a batch.
#[derive(Clone, Copy, Debug, PartialEq, Eq)]
pub enum BatchResult {
    /// A changed state was published under a new version, and committed at `commit`. Of the nodes that accepted it,
    /// some were sent a diff and the others the full state.
    Published {
        version: u64,
        id: u64,
        commit: u64,
        diffs: u64,
        fulls: u64,
        accepted: u64,
    },

    /// The contents agreed with those before, so nothing was published; the version is the state's.
    Unchanged {
        version: u64,
    },

    /// The executor failed the whole batch, for the task at this place and for this cause.
    Failed {
        position: u32,
        refusal: TaskRefusal,
    },

    /// The master was out of office.
    NotMaster,

    /// Too few nodes accepted the state, so it was dropped.
    PublishFailed {
        id: u64,
        diffs: u64,
        fulls: u64,
        accepted: u64,
    },
}
