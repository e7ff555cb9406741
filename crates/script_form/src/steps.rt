ghost use Rattle.std.specs.Prelude.{◌≡◌, ◌≤◌, ◌<◌, [], IfOk, IsTrue, codes, length, slice_get};
ghost use Rattle.std.specs.List.{list_all};
ghost use Rattle.std.specs.Option.{option_copied};
ghost use Rattle.serde_json.specs.View.{view};
ghost use Rattle.scripts.specs.declared.steps.Goal.TheVariants.{Watch};
ghost use Rattle.scripts.specs.ValidSteps.{is_goal, is_pred, is_step, is_positive_time};
ghost use Rattle.script_form.specs.Misfits.{Reads};
ghost use Rattle.script_form.specs.Parts.{optional, positive_of, required, word_of};
ghost use Rattle.script_form.specs.Predicates.{pred_of, thens_of};
ghost use Rattle.script_form.specs.Steps.{await_of, close_of, earlier_of, fit_await, goal_named, look_of, next_watch_of, none_if_zero, read_of, sleep_of, step_as, step_of, submit_of, watch_of, watched_of};

use crate::acks::ack_or_none;
use crate::misfits::{Misfit, against, in_member};
use crate::nodes::node_named_in;
use crate::parts::{
    any_text_in, check_members, check_object, member, positive_in, text_in, time_in, time_or_zero,
    whole_in,
};
use crate::predicates::{outer_pred_in, thens_in};
use crate::queues::queue_named_in;
use crate::rules::Rule;
use crate::tasks::task_in;
use meta_state::{Look, Pred};
use plain_data::Items;
use scripts::{Goal, QueueSpec, ScriptNode, Step};
use serde_json::Value;
use std::alloc::Global;

/// The step that stands after the steps of its client before it.
#[tactic(auto, unfolding(crate::specs::Steps::step_of))]
pub(crate) fn step_in(
    alloc: Global,
    nodes: &[ScriptNode],
    queues: &[QueueSpec],
    before: &[Step],
    value: &Value,
) -> Result<Step, Misfit>
    requires queues { length queues.now ≤ 64 }
    requires before { length before.now < 4096 }
    ensures { Reads (λ s. s) result (step_of nodes.now queues.now before.now (view value.now)) }
{
    check_object(alloc, value)?;
    let word = member(alloc, value, "do")?;
    let word = in_member(alloc, "do", text_in(alloc, word))?;
    step_by_word(alloc, nodes, queues, before, word, value)
}

/// The step that does what a word says.
#[tactic(auto, unfolding(crate::specs::Steps::step_as))]
fn step_by_word(
    alloc: Global,
    nodes: &[ScriptNode],
    queues: &[QueueSpec],
    before: &[Step],
    word: &str,
    value: &Value,
) -> Result<Step, Misfit>
    requires queues { length queues.now ≤ 64 }
    requires before { length before.now < 4096 }
    ensures { Reads (λ s. s) result (step_as nodes.now queues.now before.now word.now (view value.now)) }
{
    match word {
        "submit" => submit_in(alloc, nodes, queues, value),
        "await" => await_in(alloc, before, value),
        "watch" => watch_in(alloc, nodes, value),
        "next" => next_in(alloc, before, value),
        "read" => read_in(alloc, nodes, value),
        "sleep" => sleep_in(alloc, value),
        "close" => close_in(alloc, value),
        _ => in_member(alloc, "do", Err(against(alloc, Rule::Value))),
    }
}

/// A submit of a task to a queue.
#[tactic(auto, unfolding(crate::specs::Steps::submit_of))]
fn submit_in(
    alloc: Global,
    nodes: &[ScriptNode],
    queues: &[QueueSpec],
    value: &Value,
) -> Result<Step, Misfit>
    requires { length queues.now ≤ 64 }
    ensures { Reads (λ s. s) result (submit_of nodes.now queues.now (view value.now)) }
{
    check_members(alloc, value, &["do", "queue", "task", "timeout", "ack"])?;
    let named = member(alloc, value, "queue")?;
    let (queue, executor) = in_member(alloc, "queue", queue_named_in(alloc, queues, named))?;
    let task = member(alloc, value, "task")?;
    let task = in_member(alloc, "task", task_in(alloc, nodes, executor.form(), task))?;
    let timeout = time_or_zero(alloc, value, "timeout")?;
    let ack = ack_or_none(alloc, nodes, value)?;
    Ok(Step::Submit {
        queue,
        task,
        timeout: some_unless_zero(timeout),
        ack,
    })
}

/// A timeout of 0 is none.
fn some_unless_zero(ms: u64) -> Option<u64>
    ensures { result ≡ none_if_zero ms }
{
    if ms == 0 { None } else { Some(ms) }
}

/// An await of what an earlier step began.
#[tactic(auto, unfolding(crate::specs::Steps::await_of))]
fn await_in(alloc: Global, before: &[Step], value: &Value) -> Result<Step, Misfit>
    requires { length before.now < 4096 }
    ensures { Reads (λ s. s) result (await_of before.now (view value.now)) }
{
    check_members(alloc, value, &["do", "step", "for"])?;
    let step = member(alloc, value, "step")?;
    let step = in_member(alloc, "step", earlier_in(alloc, before, step))?;
    let goal = member(alloc, value, "for")?;
    let goal = in_member(alloc, "for", goal_in(alloc, goal))?;
    check_await(alloc, before, step, goal)
}

/// The number of an earlier step.
fn earlier_in(alloc: Global, before: &[Step], value: &Value) -> Result<u32, Misfit>
    requires { length before.now < 4096 }
    ensures { Reads (λ n. n) result (earlier_of before.now (view value.now)) }
{
    let number = whole_in(alloc, value)?;
    if number < before.len() as u64 {
        Ok(number as u32)
    } else {
        Err(against(alloc, Rule::Reference))
    }
}

fn goal_in(alloc: Global, value: &Value) -> Result<Goal, Misfit>
    ensures { Reads (λ g. g) result (word_of goal_named (view value.now)) }
{
    match goal_of_word(text_in(alloc, value)?) {
        None => Err(against(alloc, Rule::Value)),
        Some(goal) => Ok(goal),
    }
}

#[tactic(auto, unfolding(crate::specs::Steps::goal_named))]
fn goal_of_word(word: &str) -> Option<Goal>
    ensures { result ≡ goal_named word.now }
{
    match word {
        "task" => Some(Goal::Task),
        "ack" => Some(Goal::Ack),
        "watch" => Some(Goal::Watch),
        _ => None,
    }
}

/// An await of a step that has to be of the kind that the goal needs.
fn check_await(alloc: Global, before: &[Step], step: u32, goal: Goal) -> Result<Step, Misfit>
    ensures { Reads (λ s. s) result (fit_await before.now step goal) }
{
    if does_suit(goal, before.get(step as usize)) {
        Ok(Step::Await { step, goal })
    } else {
        in_member(alloc, "step", Err(against(alloc, Rule::Reference)))
    }
}

/// Whether a step is of the kind that a goal needs.
fn does_suit(goal: Goal, step: Option<&Step>) -> bool
    ensures { result ≡ is_goal goal (option_copied step.entry) }
{
    match (goal, step) {
        (Goal::Task, Some(Step::Submit { .. })) => true,
        (Goal::Ack, Some(Step::Submit { ack, .. })) => ack.is_some(),
        (Goal::Watch, Some(Step::Watch { .. })) => true,
        (Goal::Watch, Some(Step::Next { .. })) => true,
        _ => false,
    }
}

/// A watch of a node's applied states.
#[tactic(auto, unfolding(crate::specs::Steps::watch_of))]
fn watch_in(alloc: Global, nodes: &[ScriptNode], value: &Value) -> Result<Step, Misfit>
    ensures { Reads (λ s. s) result (watch_of nodes.now (view value.now)) }
{
    check_members(alloc, value, &["do", "node", "pred", "then", "timeout"])?;
    let named = member(alloc, value, "node")?;
    let node = in_member(alloc, "node", node_named_in(alloc, nodes, named))?;
    let pred = pred_at(alloc, value)?;
    let then = thens_or_none(alloc, value)?;
    let timeout = positive_at(alloc, value, "timeout")?;
    Ok(Step::Watch {
        node: node.name.copy()?,
        pred,
        then,
        timeout,
    })
}

/// A watch that goes on where an earlier one ended.
#[tactic(auto, unfolding(crate::specs::Steps::next_watch_of))]
fn next_in(alloc: Global, before: &[Step], value: &Value) -> Result<Step, Misfit>
    requires { length before.now < 4096 }
    ensures { Reads (λ s. s) result (next_watch_of before.now (view value.now)) }
{
    check_members(alloc, value, &["do", "watch", "pred", "then", "timeout"])?;
    let watch = member(alloc, value, "watch")?;
    let watch = in_member(alloc, "watch", watched_in(alloc, before, watch))?;
    let pred = pred_at(alloc, value)?;
    let then = thens_or_none(alloc, value)?;
    let timeout = positive_at(alloc, value, "timeout")?;
    Ok(Step::Next {
        watch,
        pred,
        then,
        timeout,
    })
}

/// The number of an earlier watch.
fn watched_in(alloc: Global, before: &[Step], value: &Value) -> Result<u32, Misfit>
    requires { length before.now < 4096 }
    ensures { Reads (λ n. n) result (watched_of before.now (view value.now)) }
{
    let number = whole_in(alloc, value)?;
    let step = before.get(number as usize);
    if does_suit(Goal::Watch, step) {
        prove!(step.is_some());
        Ok(number as u32)
    } else {
        Err(against(alloc, Rule::Reference))
    }
}

fn pred_at(alloc: Global, value: &Value) -> Result<Pred, Misfit>
    ensures { Reads (λ p. p) result (required (codes "pred") (pred_of 16) (view value.now)) }
{
    in_member(
        alloc,
        "pred",
        outer_pred_in(alloc, member(alloc, value, "pred")?),
    )
}

/// The predicates that are to be met after the first, where there are any.
fn thens_or_none(alloc: Global, value: &Value) -> Result<Items<Pred>, Misfit>
    ensures { Reads (λ ps. ps) result (optional (codes "then") [] thens_of (view value.now)) }
{
    match value.get("then") {
        None => Ok(Items::new(alloc)),
        Some(member) => in_member(alloc, "then", thens_in(alloc, member)),
    }
}

fn positive_at(alloc: Global, value: &Value, key: &str) -> Result<u64, Misfit>
    ensures { Reads (λ n. n) result (required key.now positive_of (view value.now)) }
{
    in_member(alloc, key, positive_in(alloc, member(alloc, value, key)?))
}

/// A look into a node's applied state.
#[tactic(auto, unfolding(crate::specs::Steps::read_of))]
fn read_in(alloc: Global, nodes: &[ScriptNode], value: &Value) -> Result<Step, Misfit>
    ensures { Reads (λ s. s) result (read_of nodes.now (view value.now)) }
{
    check_members(alloc, value, &["do", "node", "index", "alias", "setting"])?;
    let named = member(alloc, value, "node")?;
    let node = in_member(alloc, "node", node_named_in(alloc, nodes, named))?;
    let look = look_in(alloc, value)?;
    Ok(Step::Read {
        node: node.name.copy()?,
        look,
    })
}

/// What is looked at: exactly one of three.
#[tactic(auto, unfolding(crate::specs::Steps::look_of))]
fn look_in(alloc: Global, value: &Value) -> Result<Look, Misfit>
    ensures { Reads (λ l. l) result (look_of (view value.now)) }
{
    let index = value.get("index");
    let alias = value.get("alias");
    let setting = value.get("setting");
    match (index, alias, setting) {
        (Some(name), None, None) => Ok(Look::Index(in_member(
            alloc,
            "index",
            any_text_in(alloc, name),
        )?)),
        (None, Some(name), None) => Ok(Look::Alias(in_member(
            alloc,
            "alias",
            any_text_in(alloc, name),
        )?)),
        (None, None, Some(key)) => Ok(Look::Setting(in_member(
            alloc,
            "setting",
            any_text_in(alloc, key),
        )?)),
        (None, None, None) => Err(against(alloc, Rule::Missing)),
        _ => Err(against(alloc, Rule::Value)),
    }
}

#[tactic(auto, unfolding(crate::specs::Steps::sleep_of))]
fn sleep_in(alloc: Global, value: &Value) -> Result<Step, Misfit>
    ensures { Reads (λ s. s) result (sleep_of (view value.now)) }
{
    check_members(alloc, value, &["do", "ms"])?;
    let ms = member(alloc, value, "ms")?;
    let ms = in_member(alloc, "ms", time_in(alloc, ms))?;
    Ok(Step::Sleep { ms })
}

#[tactic(auto, unfolding(crate::specs::Steps::close_of))]
fn close_in(alloc: Global, value: &Value) -> Result<Step, Misfit>
    ensures { Reads (λ s. s) result (close_of (view value.now)) }
{
    check_members(alloc, value, &["do"])?;
    Ok(Step::Close)
}
