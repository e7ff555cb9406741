/// One part of a watch: what was shown to it, and how it ended.
#[derive(Clone, Copy, Debug, PartialEq, Eq)]
pub struct Watch {
    pub client: u32,
    pub step: u32,

    /// Which predicate of the step it waited for, from 0.
    pub part: u32,

    /// When the step began, in milliseconds.
    pub at: u64,

    /// The version that a state must be newer than; none lets every state answer that meets the predicate.
    pub last: Option<u64>,

    /// At which of its node's applied states it began, from 0.
    pub place: u64,

    /// How many applied states were shown to it.
    pub shown: u64,
    pub end: WatchEnd,
}

/// How a part of a watch ended.
#[derive(Clone, Copy, Debug, PartialEq, Eq)]
pub enum WatchEnd {
    /// The state of this version answered it.
    Answered { version: u64 },

    /// It still waited at its deadline; both are milliseconds.
    Timeout { deadline: u64, reading: u64 },

    /// It still waited as this step closed what waits, or began after it.
    Closed { client: u32, step: u32 },
}
