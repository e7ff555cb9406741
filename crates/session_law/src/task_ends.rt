use executors::TaskRefusal;

/// How a task ended. Each task ends once.
#[derive(Clone, Copy, Debug, PartialEq, Eq)]
pub enum TaskEnd {
    /// It succeeded in a batch whose state was published under this version, also where this task alone changed
    /// nothing.
    Ok { version: u64 },

    /// It succeeded in a batch that changed nothing; the version is the state's.
    Unchanged { version: u64 },

    /// The executor refused it.
    Refused { refusal: TaskRefusal },

    /// The executor failed its whole batch, for the task at this place and for this cause.
    BatchFailed { position: u32, refusal: TaskRefusal },

    /// The master was out of office.
    NotMaster,

    /// Its batch's state could not be published.
    PublishFailed,

    /// It still waited at its deadline; both are milliseconds.
    Timeout { deadline: u64, reading: u64 },

    /// It still waited as this step closed what waits. A task that a client submits after its own close step ends so
    /// too, at once.
    Closed { client: u32, step: u32 },
}
