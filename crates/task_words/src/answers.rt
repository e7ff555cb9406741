use crate::end_codes::EndCode;

/// What came of a try to let a task time out.
#[derive(Clone, Copy, Debug, PartialEq, Eq)]
pub enum Expiry {
    /// It waited, and its deadline was there: it is timed out now.
    Won,

    /// It waits, and its deadline, in milliseconds, is still to come.
    NotDue { deadline: u64 },

    /// It wasn't submitted.
    Vacant,

    /// This batch has it.
    Taken { batch: u32 },

    /// It had ended.
    Ended { code: EndCode },

    /// It had timed out, at this moment in milliseconds.
    AlreadyTimed { reading: u64 },
}

/// What a client learns of its task.
#[derive(Clone, Copy, Debug, PartialEq, Eq)]
pub enum TaskPoll {
    /// It ended.
    Ended { code: EndCode },

    /// It timed out, at this moment in milliseconds.
    Timed { reading: u64 },

    /// It waits for a batch, or a batch has it.
    NotYet,
}

/// What came of a batch's try to take a task.
#[derive(Clone, Copy, Debug, PartialEq, Eq)]
pub enum Acquired {
    /// It waited, and the batch has it now. Its client had awaited the batches up to `seen`.
    Mine { seen: u32 },

    /// It had timed out, at this moment in milliseconds.
    Timed { reading: u64 },

    /// It wasn't submitted.
    Vacant,
}
