ghost use Rattle.std.specs.Prelude.{◌≡◌, [], IfOk};
ghost use Rattle.master_run.specs.Events.{CanExpire, all_expired};
ghost use Rattle.task_words.specs.declared.words.Word.{Word};
ghost use Rattle.task_words.specs.Words.{with_word};
ghost use Rattle.master_run.specs.Courses.{id_at};
ghost use Rattle.master_run.specs.Endings.{code_of};
ghost use Rattle.master_run.specs.Servings.{CanEnd, CanEndOne, CanGather, ended_all, gathered};

use crate::endings::code_of;
use master_intake::{Waiting, WaitingTask};
use plain_data::OutOfMemory;
use scripts::TaskId;
use session_law::{Entry, TaskEnd};
use std::alloc::Global;
use task_words::{Acquired, PlainTasks};

/// A batch, by its number, tries to take each of these tasks, in order. It gets those that wait.
pub(crate) fn gather(
    alloc: Global,
    tasks: &mut PlainTasks,
    batch: u32,
    waiting: &[WaitingTask],
) -> Result<Vec<Entry>, OutOfMemory>
    requires { CanGather batch waiting.now tasks.old }
    ensures { IfOk result (λ made. gathered batch waiting.now (record { entries = []; tasks = tasks.old }) ≡ record { entries = made.items; tasks = tasks.new }) }
{
    let mut entries = Vec::new(alloc);
    for next in waiting {
        if let Acquired::Mine { seen } = tasks.acquire(next.id, batch) {
            entries.push(Entry {
                client: next.id.client,
                step: next.id.step,
                seen,
            })?;
        }
    }
    Ok(entries)
}

/// The tasks of a batch end, in order, as it says.
pub(crate) fn end_all(tasks: &mut PlainTasks, batch: u32, entries: &[Entry], ends: &[TaskEnd])
    requires { CanEnd batch entries.now ends.now tasks.old }
    ensures { tasks.new ≡ ended_all batch entries.now ends.now tasks.old }
{
    let mut left = ends;
    for entry in entries {
        let Some((end, more)) = left.split_first() else {
            return;
        };
        end_one(tasks, batch, entry, *end);
        left = more;
    }
}

/// A task of a batch ends.
fn end_one(tasks: &mut PlainTasks, batch: u32, entry: &Entry, end: TaskEnd)
    requires { CanEndOne batch entry.now end tasks.old }
    ensures { tasks.new ≡ with_word (id_at entry.now.client entry.now.step) (Word.Ended (code_of batch end)) tasks.old }
{
    let id = TaskId {
        client: entry.client,
        step: entry.step,
    };
    tasks.end(id, code_of(batch, end));
}

/// Each task that waits times out where its deadline is at most a reading, in milliseconds.
pub(crate) fn expire_all(tasks: &mut PlainTasks, waiting: &[Waiting], reading: u64)
    requires { CanExpire reading waiting.now tasks.old }
    ensures { tasks.new ≡ all_expired reading waiting.now tasks.old }
{
    for next in waiting {
        let id = next.entry.id;
        let _answer = tasks.expire(id.client, id, reading);
    }
}
