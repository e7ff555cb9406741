use crate::end_codes::EndCode;

/// How far a task is.
#[derive(Clone, Copy, Debug, PartialEq, Eq)]
pub enum Word {
    /// It wasn't submitted.
    Vacant,

    /// It waits for a batch. Its client had awaited the batches up to `seen`, and the deadline is in milliseconds:
    /// 2^43 - 1 stands for none, since no clock answers that moment.
    Queued { seen: u32, deadline: u64 },

    /// A batch has it, or, for batch 0, the close at the end.
    Taken { seen: u32, batch: u32 },

    /// It ended.
    Ended { code: EndCode },

    /// It timed out, at this moment in milliseconds.
    Timed { reading: u64 },
}
