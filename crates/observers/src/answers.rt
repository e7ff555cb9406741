/// What came of a try to let a watch time out.
#[derive(Clone, Copy, Debug, PartialEq, Eq)]
pub enum WatchExpiry {
    /// It waited, and is timed out now.
    Won,

    /// A state of this version had answered it.
    Answered { version: u64 },

    /// It had timed out, at this reading in milliseconds.
    TimedBefore { reading: u64 },

    /// The close step had ended it.
    Closed,
}

/// What a client learns of its watch.
#[derive(Clone, Copy, Debug, PartialEq, Eq)]
pub enum WatchPoll {
    /// A state of this version answered it.
    Answered { version: u64 },

    /// It timed out, at this reading in milliseconds.
    Timed { reading: u64 },

    /// The close step ended it.
    Closed,

    /// It waits.
    NotYet,
}

/// What came of a node's try to answer a watch.
#[derive(Clone, Copy, Debug, PartialEq, Eq)]
pub enum AnswerTry {
    /// It waited, and is answered now.
    Won,

    /// It had timed out, at this reading in milliseconds.
    Timed { reading: u64 },

    /// The close step had ended it.
    Closed,
}
