ghost use Rattle.std.specs.Prelude.{◌≡◌, IfOk, OnOk, OnErr};
ghost use Rattle.master_intake.specs.Turns.{noted};
ghost use Rattle.master_intake.specs.Waitings.{entries_of, left_by, taken_from};

use crate::entries::{Waiting, WaitingTask};
use plain_data::{Items, OutOfMemory};
use std::alloc::Global;

/// The waiting list, in two parts that each keep its order.
#[derive(Drop)]
pub(crate) struct Parted {
    /// All that waits in the queue that is served.
    pub(crate) taken: Items<WaitingTask>,

    /// All that waits elsewhere.
    pub(crate) left: Vec<Waiting>,
}

/// Parts what waits in a queue from all else.
pub(crate) fn part(alloc: Global, waiting: Vec<Waiting>, number: u32) -> Result<Parted, OutOfMemory>
    ensures taken { IfOk result (λ made. made.taken ≡ entries_of (taken_from number waiting.items)) }
    ensures left { IfOk result (λ made. made.left.items ≡ left_by number waiting.items) }
{
    let mut taken = Items::new(alloc);
    let mut left = Vec::new(alloc);
    for next in waiting {
        if next.queue == number {
            taken.push(next.entry)?;
        } else {
            left.push(next)?;
        }
    }
    Ok(Parted { taken, left })
}

/// Notes that something waits in a queue, at the end of the queues where something waits, except where it is noted.
pub(crate) fn note(turns: &mut Vec<u32>, queue: u32) -> Result<(), OutOfMemory>
    ensures ok { OnOk result (turns.new.items ≡ noted turns.old.items queue) }
    ensures err { OnErr result (turns.new.items ≡ turns.old.items) }
{
    if !turns.contains(&queue) {
        turns.push(queue)?;
    }
    Ok(())
}
