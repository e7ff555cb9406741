use executors::TaskRefusal;

/// What came of a task that a batch took, or that ended as closed.
#[derive(Clone, Copy, Debug, PartialEq, Eq)]
pub enum Outcome {
    /// It succeeded in a batch whose state was published under this version.
    Ok { version: u64 },

    /// It succeeded in a batch that changed nothing; the version is the state's.
    Unchanged { version: u64 },

    /// The executor refused it.
    Refused { refusal: TaskRefusal },

    /// The executor failed its whole batch, for the task at this place and for this cause.
    BatchFailed { position: u32, refusal: TaskRefusal },

    /// The master was out of office.
    NotMaster,

    /// Its batch's state could not be published.
    PublishFailed,

    /// It still waited as the master stopped.
    Closed,
}

/// How a task ended: in which batch, and what came of it. The batch is 0 exactly for an end as closed.
#[derive(Clone, Copy, Debug, PartialEq, Eq)]
pub struct EndCode {
    pub batch: u32,
    pub outcome: Outcome,
}
