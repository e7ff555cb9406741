ghost use Rattle.std.specs.Prelude.{◌≡◌, IfOk};
ghost use Rattle.master_intake.specs.Turns.{next_turn, sooner_turn};
ghost use Rattle.master_intake.specs.Waitings.{priorities_of, rank_at, rank_of};

use plain_data::{Items, OutOfMemory};
use scripts::{Priority, QueueSpec};
use std::alloc::Global;

/// The priorities of queues, by their numbers.
pub(crate) fn priorities_of(
    alloc: Global,
    queues: &[QueueSpec],
) -> Result<Items<Priority>, OutOfMemory>
    ensures { IfOk result (λ made. made ≡ priorities_of queues.now) }
{
    let mut priorities = Items::new(alloc);
    for queue in queues {
        priorities.push(queue.priority)?;
    }
    Ok(priorities)
}

/// The queue that is served next, of those where something waits, which stand in the order of their first entries.
pub(crate) fn next_turn(priorities: &[Priority], turns: &[u32]) -> Option<u32>
    ensures { result ≡ next_turn priorities.now turns.now }
{
    let (first, more) = turns.split_first()?;
    let mut soonest = *first;
    for next in more {
        soonest = sooner_turn(priorities, soonest, *next);
    }
    Some(soonest)
}

/// The one of two queues that is served first: the more urgent and, of equally urgent ones, the one before.
fn sooner_turn(priorities: &[Priority], first: u32, next: u32) -> u32
    ensures { result ≡ sooner_turn priorities.now first next }
{
    if rank_at(priorities, next) < rank_at(priorities, first) {
        next
    } else {
        first
    }
}

/// How urgent a queue is, by its number.
fn rank_at(priorities: &[Priority], number: u32) -> u8
    ensures { result ≡ rank_at priorities.now number }
{
    match priorities.get(number as usize) {
        None => 6,
        Some(priority) => rank_of(*priority),
    }
}

/// How urgent a priority is; 0 is served first.
fn rank_of(priority: Priority) -> u8
    ensures { result ≡ rank_of priority }
{
    match priority {
        Priority::Immediate => 0,
        Priority::Urgent => 1,
        Priority::High => 2,
        Priority::Normal => 3,
        Priority::Low => 4,
        Priority::Languid => 5,
    }
}
