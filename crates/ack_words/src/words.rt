use crate::countdowns::Countdown;

/// How far an acknowledgement is.
#[derive(Clone, Copy, Debug)]
pub enum AckWord {
    /// It wasn't started.
    Vacant,

    /// Its task is in a batch, of which nothing is committed yet. The deadline is in milliseconds: 2^43 - 1 stands for
    /// none, since no clock answers that moment.
    Started { deadline: u64 },

    /// Its task's version was committed, and the answers to it are counted.
    Counting { deadline: u64, countdown: Countdown },
}
