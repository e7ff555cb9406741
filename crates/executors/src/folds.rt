ghost use Rattle.std.specs.Prelude.{◌≡◌, List, [], ◌∷◌, ◌++◌, IfOk, IsOkAnd};
ghost use Rattle.meta_state.specs.States.{IsRoomy};
ghost use Rattle.executors.specs.Contexts.{marked};
ghost use Rattle.executors.specs.declared.executions.Executed.TheVariants.{Made};
ghost use Rattle.executors.specs.Attempts.{CanGoOn, attempted, attempted_by};
ghost use Rattle.executors.specs.Executions.{CanRise, folded, made_of, ran_more, ran_none, unless_refused};

use crate::contexts::{Mark, TaskContext, Verdict};
use crate::executions::Executed;
use crate::task_runs::run_task;
use meta_state::ClusterState;
use plain_data::{Items, OutOfMemory};
use std::alloc::Global;

/// The state that the tasks so far left, and their marks.
#[derive(Drop)]
pub(crate) struct Ran {
    state: ClusterState,
    marks: Items<Mark>,
}

impl Ran {
    pub(crate) fn made(self) -> Executed
        ensures { result ≡ made_of self }
    {
        let Ran { state, marks } = self;
        Executed::Made { state, marks }
    }
}

/// Runs the tasks in order, each on the state that those before it left. Every context is spent, whatever the
/// answer.
pub(crate) fn run_all(
    alloc: Global,
    initial: &ClusterState,
    contexts: Vec<TaskContext>,
) -> Result<Ran, OutOfMemory>
    requires { IsRoomy initial.now }
    ensures { IfOk result (λ ran. ran ≡ folded (ran_none initial.now) contexts.items) }
{
    let mut ran = start(alloc, initial);
    let mut left = contexts.into_iter();
    while let Some(context) = left.next() {
        ran = run_context(alloc, ran, context);
    }
    left.destroy_empty();
    ran
}

fn start(alloc: Global, initial: &ClusterState) -> Result<Ran, OutOfMemory>
    ensures { IfOk result (λ ran. ran ≡ ran_none initial.now) }
{
    let state = initial.copy(alloc)?;
    Ok(Ran {
        state,
        marks: Items::new(alloc),
    })
}

/// Runs one task more, unless memory is wanting already, and spends its context.
fn run_context(
    alloc: Global,
    ran: Result<Ran, OutOfMemory>,
    context: TaskContext,
) -> Result<Ran, OutOfMemory>
    requires { IfOk ran (λ before. CanRise before.state) }
    ensures { IfOk result (λ next. IsOkAnd ran (λ before. next ≡ ran_more before context)) }
{
    match ran {
        Err(wanting) => {
            let _ = context.success();
            Err(wanting)
        }
        Ok(before) => {
            let Ran {
                mut state,
                mut marks,
            } = before;
            match run_task(alloc, &mut state, context.task()) {
                Err(wanting) => {
                    let _ = context.success();
                    Err(wanting)
                }
                Ok(verdict) => {
                    marks.push(complete(context, verdict))?;
                    Ok(Ran { state, marks })
                }
            }
        }
    }
}

/// Spends a context as its task was judged.
fn complete(context: TaskContext, verdict: Verdict) -> Mark
    ensures { result ≡ marked context.position verdict }
{
    match verdict {
        Verdict::Success => context.success(),
        Verdict::Refused(refusal) => context.failure(refusal),
    }
}

/// Runs the tasks in order up to the first that is refused, which fails the batch. Every context is spent, whatever
/// the answer.
pub(crate) fn run_atomic(
    alloc: Global,
    initial: &ClusterState,
    contexts: Vec<TaskContext>,
) -> Result<Executed, OutOfMemory>
    requires { IsRoomy initial.now }
    ensures { IfOk result (λ made. made ≡ unless_refused (folded (ran_none initial.now) contexts.items)) }
{
    let mut made = begin(alloc, initial);
    let mut left = contexts.into_iter();
    while let Some(context) = left.next() {
        made = attempt(alloc, made, context);
    }
    left.destroy_empty();
    made
}

fn begin(alloc: Global, initial: &ClusterState) -> Result<Executed, OutOfMemory>
    ensures { IfOk result (λ made. made ≡ made_of (ran_none initial.now)) }
{
    let ran = start(alloc, initial)?;
    Ok(ran.made())
}

/// Runs one task more, unless the batch failed or memory is wanting already, and spends its context.
fn attempt(
    alloc: Global,
    made: Result<Executed, OutOfMemory>,
    context: TaskContext,
) -> Result<Executed, OutOfMemory>
    requires { IfOk made CanGoOn }
    ensures { IfOk result (λ next. IsOkAnd made (λ before. next ≡ attempted before context)) }
{
    match made {
        Err(wanting) => {
            let _ = context.success();
            Err(wanting)
        }
        Ok(Executed::Failed { position, refusal }) => {
            let _ = context.failure(refusal);
            Ok(Executed::Failed { position, refusal })
        }
        Ok(Executed::Made { state, marks }) => attempt_on(alloc, state, marks, context),
    }
}

fn attempt_on(
    alloc: Global,
    state: ClusterState,
    marks: Items<Mark>,
    context: TaskContext,
) -> Result<Executed, OutOfMemory>
    requires { CanRise state }
    ensures { IfOk result (λ next. next ≡ attempted (Made state marks) context) }
{
    let mut state = state;
    match run_task(alloc, &mut state, context.task()) {
        Err(wanting) => {
            let _ = context.success();
            Err(wanting)
        }
        Ok(verdict) => fail_or_go_on(state, marks, context, verdict),
    }
}

fn fail_or_go_on(
    state: ClusterState,
    marks: Items<Mark>,
    context: TaskContext,
    verdict: Verdict,
) -> Result<Executed, OutOfMemory>
    ensures { IfOk result (λ next. next ≡ attempted_by verdict context.position (record { state = state; marks = marks ++ marked context.position verdict ∷ [] })) }
{
    match verdict {
        Verdict::Success => {
            let mut marks = marks;
            marks.push(context.success())?;
            Ok(Executed::Made { state, marks })
        }
        Verdict::Refused(refusal) => {
            let mark = context.failure(refusal);
            Ok(Executed::Failed {
                position: mark.position(),
                refusal,
            })
        }
    }
}
