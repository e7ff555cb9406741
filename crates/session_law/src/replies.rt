use crate::TaskEnd;

/// How a task ended, as its client was told.
#[derive(Clone, Copy, Debug, PartialEq, Eq)]
pub struct Reply {
    pub client: u32,
    pub step: u32,

    /// When it was submitted, in milliseconds.
    pub at: u64,
    pub end: TaskEnd,
}

/// How the acknowledgement of a task ended.
#[derive(Clone, Copy, Debug, PartialEq, Eq)]
pub struct AckReply {
    pub client: u32,
    pub step: u32,
    pub end: AckEnd,
}

/// How an acknowledgement ended.
#[derive(Clone, Copy, Debug, PartialEq, Eq)]
pub enum AckEnd {
    /// Each required node applied the state.
    All,

    /// So many required nodes didn't.
    Failed { count: u64 },

    /// It ended at its deadline, as the clock read so; or its state was committed at this reading, too late. Both are
    /// milliseconds.
    Timeout { deadline: u64, reading: u64 },
}
