ghost use Rattle.std.specs.Prelude.{◌≡◌, ◌<◌, ◌≤◌, ◌-◌, ◌+◌, ◌^◌, [], ◌∷◌, length, IfOk, IfSome, OnOk};
ghost use Rattle.task_words.specs.declared.words.Word.{Word};
ghost use Rattle.task_words.specs.Words.{size_of, vacant_table, with_size, with_word, word_at};
ghost use Rattle.master_intake.specs.Intakes.{refusal_of};

use executors::{Kind, Task};
use master_intake::{NotSubmitted, Submission, Taken, WaitList, Waiting, WaitingTask};
use plain_data::{OutOfMemory, Text};
use scripts::{Priority, QueueSpec, TaskId};
use std::alloc::Global;
use task_words::PlainTasks;

/// Words for one client of five steps and for three queues, to which nothing was submitted.
pub fn vacant_words(alloc: Global) -> Result<PlainTasks, OutOfMemory>
    ensures { IfOk result (λ made. made ≡ vacant_table (5 ∷ []) 3) }
{
    PlainTasks::create(alloc, [5].as_slice(), 3)
}

/// Takes the next batch: whether there is one.
#[tactic(auto, using(crate::proofs::Sizes::sizes_covered))]
pub fn take_some(list: &mut WaitList, tasks: &mut PlainTasks) -> Result<bool, OutOfMemory>
    requires { length list.old.priorities ≤ length tasks.old.sizes }
    ensures { OnOk result (length tasks.new.sizes ≡ length tasks.old.sizes) }
{
    Ok(list.take(tasks)?.is_some())
}

/// A list for three queues of these priorities, in which nothing waits.
pub fn list_for(
    alloc: Global,
    first: Priority,
    second: Priority,
    third: Priority,
) -> Result<WaitList, OutOfMemory>
    ensures { IfOk result (λ made. made ≡ record { priorities = first ∷ second ∷ third ∷ []; waiting = [] }) }
{
    let mut queues = Vec::new(alloc);
    queues.push(queue_of(alloc, first)?)?;
    queues.push(queue_of(alloc, second)?)?;
    queues.push(queue_of(alloc, third)?)?;
    WaitList::create(alloc, queues.as_slice())
}

fn queue_of(alloc: Global, priority: Priority) -> Result<QueueSpec, OutOfMemory>
    ensures { IfOk result (λ made. made.priority ≡ priority) }
{
    Ok(QueueSpec {
        name: Text::from_str(alloc, "q")?,
        executor: Kind::CreateIndex,
        priority,
    })
}

// ---- tasks

/// The task of a step. Its number of shards tells which.
fn task_of(alloc: Global, step: u32) -> Result<Task, OutOfMemory> {
    Ok(Task::CreateIndex {
        index: Text::from_str(alloc, "i")?,
        shards: u64::from(step),
        replicas: 0,
    })
}

fn is_task_of(task: &Task, step: u32) -> bool {
    match task {
        Task::CreateIndex { shards, .. } => *shards == u64::from(step),
        _ => false,
    }
}

// Whether what waits is the task of this step of the first client.
fn is_of(waiting: &WaitingTask, step: u32) -> bool {
    waiting.id == TaskId { client: 0, step } && is_task_of(&waiting.task, step)
}

// ---- submissions

/// Submits the task of a step of the first client to a queue: the client had awaited batch 3, and the deadline is 5. Any
/// refusal counts as want of memory.
pub fn put(
    alloc: Global,
    list: &mut WaitList,
    tasks: &mut PlainTasks,
    step: u32,
    queue: u32,
) -> Result<TaskId, OutOfMemory>
    requires lane { 0 < length tasks.old.words }
    requires vacant { word_at tasks.old (record { client = 0; step = step }) ≡ Word.Vacant }
    requires queue { queue < length list.old.priorities }
    requires size { queue < length tasks.old.sizes }
    requires room { size_of tasks.old queue < 2 ^ 32 - 1 }
    ensures id { IfOk result (λ id. id ≡ record { client = 0; step = step }) }
    ensures list { OnOk result (list.new.priorities ≡ list.old.priorities) }
    ensures tasks { OnOk result (tasks.new ≡ with_size queue (size_of tasks.old queue + 1) (with_word (record { client = 0; step = step }) (Word.Queued 3 5) tasks.old)) }
{
    let submission = Submission {
        step,
        queue,
        task: task_of(alloc, step)?,
        seen: 3,
        deadline: 5,
    };
    match list.submit(tasks, 0, submission) {
        Ok(id) => Ok(id),
        Err(_) => Err(OutOfMemory),
    }
}

/// The same over words of its own.
pub fn put_alone(
    alloc: Global,
    list: &mut WaitList,
    step: u32,
    queue: u32,
) -> Result<(), OutOfMemory>
    requires vacant { word_at (vacant_table (5 ∷ []) 3) (record { client = 0; step = step }) ≡ Word.Vacant }
    requires queue { queue < length list.old.priorities }
    requires size { queue < 3 }
    requires room { size_of (vacant_table (5 ∷ []) 3) queue < 2 ^ 32 - 1 }
    ensures { OnOk result (list.new.priorities ≡ list.old.priorities) }
{
    let mut tasks = vacant_words(alloc)?;
    let _id = put(alloc, list, &mut tasks, step, queue)?;
    Ok(())
}

/// The number of the refusal of a step's task, where the task comes back as it was; 0 where it is submitted, or doesn't
/// come back.
pub fn refusal_told(
    alloc: Global,
    list: &mut WaitList,
    tasks: &mut PlainTasks,
    step: u32,
    queue: u32,
) -> Result<u8, OutOfMemory>
    requires lane { 0 < length tasks.old.words }
    requires vacant { word_at tasks.old (record { client = 0; step = step }) ≡ Word.Vacant }
    requires queue { queue < length list.old.priorities }
    requires size { queue < length tasks.old.sizes }
    requires room { size_of tasks.old queue < 2 ^ 32 - 1 }
    ensures list { list.new.priorities ≡ list.old.priorities }
    ensures tasks { IfSome (refusal_of tasks.old 0 step) (λ _. tasks.new ≡ tasks.old) }
{
    let submission = Submission {
        step,
        queue,
        task: task_of(alloc, step)?,
        seen: 3,
        deadline: 5,
    };
    match list.submit(tasks, 0, submission) {
        Ok(_) => Ok(0),
        Err(refused) => Ok(number_of(&refused, step)),
    }
}

fn number_of(refused: &NotSubmitted, step: u32) -> u8 {
    let is_back = match &refused.task {
        None => false,
        Some(task) => is_task_of(task, step),
    };
    if is_back { refused.why.number() } else { 0 }
}

// ---- what waits, and what is taken

/// Whether just the tasks of these steps wait, each in its queue, in this order.
pub fn is_waiting(waiting: &[Waiting], expected: &[(u32, u32)]) -> bool {
    let mut fits = waiting.len() == expected.len();
    for (next, (step, queue)) in waiting.iter().zip(expected) {
        fits = fits && next.queue == *queue && is_of(&next.entry, *step);
    }
    fits
}

/// Whether these are just the names of these steps of the first client, in this order.
pub fn are_ids_of(ids: &[TaskId], steps: &[u32]) -> bool {
    let mut fits = ids.len() == steps.len();
    for (id, step) in ids.iter().zip(steps) {
        fits = fits && id.client == 0 && id.step == *step;
    }
    fits
}

/// The queue that is taken next, over words of its own; none where nothing waits.
pub fn next_of(alloc: Global, list: &mut WaitList) -> Result<Option<u32>, OutOfMemory>
    requires { length list.old.priorities ≤ 3 }
    ensures { OnOk result (list.new.priorities ≡ list.old.priorities) }
{
    let mut tasks = vacant_words(alloc)?;
    match list.take(&mut tasks)? {
        None => Ok(None),
        Some(taken) => Ok(Some(taken.queue)),
    }
}

/// Whether what is taken next, over words of its own, is of this queue, and has just the tasks of these steps, in this
/// order.
pub fn is_next(
    alloc: Global,
    list: &mut WaitList,
    queue: u32,
    steps: &[u32],
) -> Result<bool, OutOfMemory>
    requires { length list.old.priorities ≤ 3 }
    ensures { OnOk result (list.new.priorities ≡ list.old.priorities) }
{
    let mut tasks = vacant_words(alloc)?;
    match list.take(&mut tasks)? {
        None => Ok(false),
        Some(taken) => Ok(is_batch(&taken, queue, steps)),
    }
}

fn is_batch(taken: &Taken, queue: u32, steps: &[u32]) -> bool {
    let mut fits = taken.queue == queue && taken.count() == steps.len();
    for (next, step) in taken.waiting.as_slice().iter().zip(steps) {
        fits = fits && is_of(next, *step);
    }
    fits
}

/// The order in which three queues of these priorities are taken, where something was submitted to each, to the first one
/// first.
pub fn order_of(
    alloc: Global,
    first: Priority,
    second: Priority,
    third: Priority,
) -> Result<(Option<u32>, Option<u32>, Option<u32>), OutOfMemory> {
    let mut list = list_for(alloc, first, second, third)?;
    put_alone(alloc, &mut list, 0, 0)?;
    put_alone(alloc, &mut list, 1, 1)?;
    put_alone(alloc, &mut list, 2, 2)?;
    let one = next_of(alloc, &mut list)?;
    let two = next_of(alloc, &mut list)?;
    let three = next_of(alloc, &mut list)?;
    Ok((one, two, three))
}
