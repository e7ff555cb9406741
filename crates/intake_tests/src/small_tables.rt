ghost use Rattle.std.specs.Prelude.{◌≡◌, [], ◌∷◌, false, IfOk};
ghost use Rattle.task_words.specs.declared.words.Word.{Word};

use plain_data::OutOfMemory;
use std::alloc::Global;
use task_words::PlainTasks;

/// A table for one client with one step, whose task waits until the deadline, and for one queue.
pub fn table_with(alloc: Global, seen: u32, deadline: u64) -> Result<PlainTasks, OutOfMemory>
    ensures { IfOk result (λ made. made ≡ record { words = (Word.Queued seen deadline ∷ []) ∷ []; sizes = 0 ∷ []; stopped = false }) }
{
    let mut table = PlainTasks::create(alloc, [1].as_slice(), 1)?;
    let _queued = table.queued(0, 0, seen, deadline);
    Ok(table)
}
