ghost use Rattle.std.specs.Prelude.{◌≡◌, ◌≤◌, IfOk, IfSome, IsTrue, Some, codes, length, refl};
ghost use Rattle.serde_json.specs.View.{view};
ghost use Rattle.scripts.specs.Names.{is_name};
ghost use Rattle.script_form.specs.Misfits.{Reads};
ghost use Rattle.script_form.specs.Naming.{AreNamed, IsNewTo};
ghost use Rattle.script_form.specs.Parts.{optional, word_of};
ghost use Rattle.script_form.specs.Queues.{find_queue, fit_queue, is_queue_name, kind_at, executor_named, queue_after, priority_named, queue_name, queue_named, queue_of, queues_of};
ghost use Rattle.scripts.specs.declared.queues.Priority.TheVariants.{Normal};

use crate::limits::LimitName;
use crate::list_readers::{ListReader, read_each};
use crate::misfits::{Misfit, against, in_member};
use crate::parts::{check_members, member, name_in, text_in, values_up_to};
use crate::rules::Rule;
use executors::Kind;
use plain_data::Items;
use scripts::{Priority, QueueSpec};
use serde_json::Value;
use std::alloc::Global;

/// The queues of a script.
pub(crate) fn queues_in(alloc: Global, value: &Value) -> Result<Items<QueueSpec>, Misfit>
    ensures exact { Reads (λ q. q) result (queues_of (view value.now)) }
    ensures limit { IfOk result (λ queues. length queues ≤ 64) }
{
    let values = values_up_to(alloc, value, 64, LimitName::Queues)?;
    read_each(alloc, &QueueReader, values)
}

/// Reads queues: each has a name of its own.
#[derive(Drop)]
struct QueueReader;

impl ListReader for QueueReader {
    type Item = QueueSpec;

    ghost reads = { λ _. queue_after };

    ghost most = { λ _. 64 };

    fn read_next(
        &self,
        alloc: Global,
        before: &[QueueSpec],
        value: &Value,
    ) -> Result<QueueSpec, Misfit> {
        let queue = queue_in(alloc, value)?;
        check_queue(alloc, before, queue)
    }
}

/// Asks that a queue have a name of its own.
fn check_queue(alloc: Global, before: &[QueueSpec], queue: QueueSpec) -> Result<QueueSpec, Misfit>
    ensures { Reads (λ q. q) result (fit_queue before.now queue) }
{
    if has_queue(before, queue.name.as_str()) {
        in_member(alloc, "name", Err(against(alloc, Rule::Twice)))
    } else {
        Ok(queue)
    }
}

#[tactic(auto, unfolding(crate::specs::Queues::queue_of))]
fn queue_in(alloc: Global, value: &Value) -> Result<QueueSpec, Misfit>
    ensures { Reads (λ q. q) result (queue_of (view value.now)) }
{
    check_members(alloc, value, &["name", "executor", "priority"])?;
    let name = in_member(alloc, "name", name_in(alloc, member(alloc, value, "name")?))?;
    let executor = member(alloc, value, "executor")?;
    let executor = in_member(alloc, "executor", kind_in(alloc, executor))?;
    let priority = priority_or_normal(alloc, value)?;
    Ok(QueueSpec {
        name,
        executor,
        priority,
    })
}

fn has_queue(queues: &[QueueSpec], name: &str) -> bool
    ensures { result ≡ is_queue_name queues.now name.now }
{
    queues.iter().any(|queue| name == queue.name.as_str())
}

fn kind_in(alloc: Global, value: &Value) -> Result<Kind, Misfit>
    ensures { Reads (λ k. k) result (word_of executor_named (view value.now)) }
{
    match kind_of_word(text_in(alloc, value)?) {
        None => Err(against(alloc, Rule::Value)),
        Some(kind) => Ok(kind),
    }
}

#[tactic(auto, unfolding(crate::specs::Queues::executor_named))]
fn kind_of_word(word: &str) -> Option<Kind>
    ensures { result ≡ executor_named word.now }
{
    match word {
        "create_index" => Some(Kind::CreateIndex),
        "delete_index" => Some(Kind::DeleteIndex),
        "index_settings" => Some(Kind::IndexSettings),
        "open_close" => Some(Kind::OpenClose),
        "aliases" => Some(Kind::Aliases),
        "aliases_atomic" => Some(Kind::AliasesAtomic),
        "cluster_settings" => Some(Kind::ClusterSettings),
        "nodes" => Some(Kind::Nodes),
        "reelect" => Some(Kind::Reelect),
        _ => None,
    }
}

fn priority_or_normal(alloc: Global, value: &Value) -> Result<Priority, Misfit>
    ensures { Reads (λ p. p) result (optional (codes "priority") Normal (word_of priority_named) (view value.now)) }
{
    match value.get("priority") {
        None => Ok(Priority::Normal),
        Some(member) => in_member(alloc, "priority", priority_in(alloc, member)),
    }
}

fn priority_in(alloc: Global, value: &Value) -> Result<Priority, Misfit>
    ensures { Reads (λ p. p) result (word_of priority_named (view value.now)) }
{
    match priority_of_word(text_in(alloc, value)?) {
        None => Err(against(alloc, Rule::Value)),
        Some(priority) => Ok(priority),
    }
}

#[tactic(auto, unfolding(crate::specs::Queues::priority_named))]
fn priority_of_word(word: &str) -> Option<Priority>
    ensures { result ≡ priority_named word.now }
{
    match word {
        "IMMEDIATE" => Some(Priority::Immediate),
        "URGENT" => Some(Priority::Urgent),
        "HIGH" => Some(Priority::High),
        "NORMAL" => Some(Priority::Normal),
        "LOW" => Some(Priority::Low),
        "LANGUID" => Some(Priority::Languid),
        _ => None,
    }
}

/// The number and the executor of the queue that a text names.
pub(crate) fn queue_named_in(
    alloc: Global,
    queues: &[QueueSpec],
    value: &Value,
) -> Result<(u32, Kind), Misfit>
    requires { length queues.now ≤ 64 }
    ensures { Reads (λ q. q) result (queue_named queues.now (view value.now)) }
{
    match find(queues, text_in(alloc, value)?) {
        None => Err(against(alloc, Rule::Reference)),
        Some(found) => Ok(found),
    }
}

/// The place in the list of the queue of a name, and its executor.
fn find(queues: &[QueueSpec], name: &str) -> Option<(u32, Kind)>
    requires { length queues.now ≤ 64 }
    ensures { result ≡ find_queue 0 queues.now name.now }
{
    let mut number = 0;
    for queue in queues {
        if name == queue.name.as_str() {
            return Some((number, queue.executor));
        }
        number += 1;
    }
    None
}
