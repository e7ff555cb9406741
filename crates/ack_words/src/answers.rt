/// What came of a try to let an acknowledgement time out.
#[derive(Clone, Copy, Debug, PartialEq, Eq)]
pub enum AckExpiry {
    /// Answers were missing, and its deadline was there: it is timed out now.
    Won,

    /// No answer is missing. It may have timed out before the last one came: `AckPoll` tells which decided it.
    Finished,

    /// Answers are missing, and it had timed out.
    TimedBefore,

    /// Answers are missing, and its deadline, in milliseconds, is still to come.
    NotDue { deadline: u64 },

    /// Nothing was committed for it.
    NotCommitted,
}

/// What a client learns of its acknowledgement.
#[derive(Clone, Copy, Debug, PartialEq, Eq)]
pub enum AckPoll {
    /// Each required node applied the version.
    All,

    /// Each required node answered, and so many of them, at least one, failed.
    Failed { count: u32 },

    /// It timed out before the last answer.
    TimedOut,

    /// Answers are missing, or nothing was committed for it.
    NotYet,
}
