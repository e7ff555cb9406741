ghost use Rattle.std.specs.Prelude.{◌≡◌, ◌+◌, ◌<◌, ◌^◌, IfOk, IsTrue, length, map};
ghost use Rattle.std.specs.List.{list_all};
ghost use Rattle.std.specs.Option.{option_copied};
ghost use Rattle.executors.specs.Kinds.{accepts};
ghost use Rattle.meta_state.specs.States.{IsRoomy};
ghost use Rattle.meta_state.specs.Versions.{next_of};
ghost use Rattle.session_law.specs.BatchSteps.{all_end, end_of};
ghost use Rattle.session_law.specs.Histories.{task_at, tasks_at};
ghost use Rattle.master_run.specs.Books.{plan_for};
ghost use Rattle.master_run.specs.Plans.{plan_executed, plan_next};
ghost use Rattle.master_run.specs.Rooms.{HasRoom};
ghost use Rattle.master_run.specs.Touching.{AgreeOutsideThese, AreNamesOf, ChangesOnlyThese, KnowsChanges};

use executors::{Executed, Executor, Mark, Task, Verdict, number, touched_by};
use meta_state::{ClusterState, Next, Touched, next_state, next_state_among};
use plain_data::{Items, OutOfMemory};
use scripts::{QueueSpec, Script, Step};
use session_law::{BatchResult, Entry, Stepped, TaskEnd, World};
use std::alloc::Global;

/// What comes of a batch before anything is sent.
#[derive(Debug, Drop)]
pub enum Plan {
    /// Nothing is sent, and this is what came of it.
    Settled(Stepped),

    /// A new state is to be published.
    Proposed(Proposal),
}

/// A new state that an executor made, and how it marked each task.
#[derive(Debug, Drop)]
pub struct Proposal {
    pub new: ClusterState,
    pub marks: Items<Mark>,
}

/// A plan, and the names outside of which a proposed state agrees with the current one, where they are known.
#[derive(Drop)]
pub struct Planned {
    pub plan: Plan,
    pub touched: Option<Touched>,
}

impl Planned {
    /// Lets it go.
    pub(crate) fn close(self) {}

    pub(crate) fn into_plan(self) -> Plan
        ensures { result ≡ self.plan }
    {
        self.plan
    }
}

/// Runs the executor of a queue on the tasks of its entries, on a world that it leaves as it is.
#[tactic(auto, using(executors::proofs::Numbering::tasks_of_numbered), unfolding(crate::specs::Plans::plan_of))]
pub(crate) fn plan_batch(
    alloc: Global,
    script: &Script,
    world: &World,
    queue: &QueueSpec,
    entries: &[Entry],
) -> Result<Planned, OutOfMemory>
    requires room { HasRoom world.now }
    requires few { length entries.now < 2 ^ 32 }
    requires each { length (tasks_at script.now entries.now) ≡ length entries.now }
    requires accepted { IsTrue (list_all (accepts queue.now.executor) (tasks_at script.now entries.now)) }
    ensures plan { IfOk result (λ made. made.plan ≡ plan_for script.now queue.now entries.now world.now) }
    ensures touched { IfOk result (λ made. KnowsChanges made.touched world.now.state made.plan) }
{
    if queue.executor.needs_master() && !world.in_office {
        let stepped = Stepped {
            result: BatchResult::NotMaster,
            ends: all_ended(alloc, TaskEnd::NotMaster, entries)?,
        };
        return Ok(Planned {
            plan: Plan::Settled(stepped),
            touched: None,
        });
    }
    let tasks = copy_tasks(alloc, script, entries)?;
    let touched = names_to_compare(alloc, &world.state, &tasks)?;
    let contexts = number(alloc, tasks)?;
    let executed = queue.executor.execute(alloc, &world.state, contexts)?;
    let plan = settle(alloc, world, entries, executed, &touched)?;
    Ok(Planned { plan, touched })
}

/// The names that the tasks of a batch touch, where they are few beside what a state has. Where they are many, to
/// compare all of it costs less than to look each of them up.
fn names_to_compare(
    alloc: Global,
    state: &ClusterState,
    tasks: &[Task],
) -> Result<Option<Touched>, OutOfMemory>
    ensures { IfOk result (AreNamesOf tasks.now) }
{
    let there = state
        .metadata
        .indices
        .len()
        .saturating_add(state.metadata.settings.len())
        .saturating_add(state.nodes.len());
    if there / COMPARED_PER_NAME < tasks.len() {
        return Ok(None);
    }
    Ok(Some(touched_by(alloc, tasks)?))
}

/// How many pairs of a state are compared in the time that it takes to touch and look up one name.
const COMPARED_PER_NAME: usize = 16;

/// What comes of a batch that its executor ran.
#[tactic(auto, using(crate::proofs::Planning::next_knows))]
fn settle(
    alloc: Global,
    world: &World,
    entries: &[Entry],
    executed: Executed,
    touched: &Option<Touched>,
) -> Result<Plan, OutOfMemory>
    requires room { HasRoom world.now }
    requires touches { ChangesOnlyThese touched.now world.now.state executed }
    ensures plan { IfOk result (λ made. made ≡ plan_executed (length entries.now) world.now executed) }
    ensures knows { IfOk result (KnowsChanges touched.now world.now.state) }
{
    match executed {
        Executed::Failed { position, refusal } => {
            let stepped = Stepped {
                result: BatchResult::Failed { position, refusal },
                ends: all_ended(alloc, TaskEnd::BatchFailed { position, refusal }, entries)?,
            };
            Ok(Plan::Settled(stepped))
        }
        Executed::Made { state, marks } => {
            let next = next_after(&world.state, state, world.proposals + 2, touched);
            propose(alloc, world, marks, next)
        }
    }
}

/// The version rule, over the names that were touched alone where they are known.
fn next_after(prev: &ClusterState, made: ClusterState, id: u64, touched: &Option<Touched>) -> Next
    requires roomy { IsRoomy prev.now }
    requires touches { AgreeOutsideThese touched.now prev.now made }
    ensures { result ≡ next_of prev.now made id }
{
    match touched {
        None => next_state(prev, made, id),
        Some(touched) => next_state_among(prev, made, id, touched),
    }
}

/// What comes of a batch whose executor made a state: it is proposed where it differs from the current one.
fn propose(
    alloc: Global,
    world: &World,
    marks: Items<Mark>,
    next: Next,
) -> Result<Plan, OutOfMemory>
    ensures { IfOk result (λ made. made ≡ plan_next world.now marks next) }
{
    match next {
        Next::Same => {
            let version = world.state.version;
            let stepped = Stepped {
                result: BatchResult::Unchanged { version },
                ends: ended(alloc, TaskEnd::Unchanged { version }, marks.as_slice())?,
            };
            Ok(Plan::Settled(stepped))
        }
        Next::Changed(new) => Ok(Plan::Proposed(Proposal { new, marks })),
    }
}

/// Every task ends in the same way.
pub(crate) fn all_ended(
    alloc: Global,
    end: TaskEnd,
    entries: &[Entry],
) -> Result<Items<TaskEnd>, OutOfMemory>
    ensures { IfOk result (λ made. made ≡ all_end end (length entries.now)) }
{
    let mut ends = Items::new(alloc);
    for _entry in entries {
        ends.push(end)?;
    }
    Ok(ends)
}

/// Each task ends as it was marked, a success as `success` says.
pub(crate) fn ended(
    alloc: Global,
    success: TaskEnd,
    marks: &[Mark],
) -> Result<Items<TaskEnd>, OutOfMemory>
    ensures { IfOk result (λ made. made ≡ map (end_of success) marks.now) }
{
    let mut ends = Items::new(alloc);
    for mark in marks {
        ends.push(end_by_mark(success, mark))?;
    }
    Ok(ends)
}

fn end_by_mark(success: TaskEnd, mark: &Mark) -> TaskEnd
    ensures { result ≡ end_of success mark.now }
{
    match mark.verdict() {
        Verdict::Success => success,
        Verdict::Refused(refusal) => TaskEnd::Refused { refusal },
    }
}

/// The tasks of entries, in order.
fn copy_tasks(alloc: Global, script: &Script, entries: &[Entry]) -> Result<Vec<Task>, OutOfMemory>
    ensures { IfOk result (λ made. made.items ≡ tasks_at script.now entries.now) }
{
    let mut tasks = Vec::new(alloc);
    for entry in entries {
        if let Some(task) = task_of(script, entry) {
            tasks.push(task.copy(alloc)?)?;
        }
    }
    Ok(tasks)
}

/// The task of an entry.
fn task_of<'a>(script: &'a Script, entry: &Entry) -> Option<&'a Task>
    ensures { option_copied result ≡ task_at script.now entry.now }
{
    let steps = script.clients.get(entry.client as usize)?;
    match steps.get(entry.step as usize)? {
        Step::Submit { task, .. } => Some(task),
        _ => None,
    }
}
