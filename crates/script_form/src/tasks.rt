ghost use Rattle.std.specs.Prelude.{◌≡◌, [], IfOk, IsTrue, Ok};
ghost use Rattle.serde_json.specs.View.{view};
ghost use Rattle.executors.specs.declared.task_forms.TaskForm.TheVariants as form;
ghost use Rattle.scripts.specs.ValidSteps.{is_task_of};
ghost use Rattle.script_form.specs.Misfits.{Reads};
ghost use Rattle.script_form.specs.Parts.{required, word_of};
ghost use Rattle.script_form.specs.Tasks.{addition_named, alias_task_of, cluster_setting_of, creation_of, deletion_of, index_setting_of, joining_named, node_task, node_task_of, opening_of, reelection_of, setting_value_of, task_of};

use crate::misfits::{Misfit, against, in_member};
use crate::nodes::node_named_in;
use crate::parts::{check_members, flag_in, member, text_at, text_in, whole_at, whole_or};
use crate::rules::Rule;
use executors::{Task, TaskForm};
use meta_state::NodeInfo;
use plain_data::Text;
use scripts::ScriptNode;
use serde_json::Value;
use std::alloc::Global;

/// The task of a submit, of the form that its queue's executor takes.
pub(crate) fn task_in(
    alloc: Global,
    nodes: &[ScriptNode],
    form: TaskForm,
    value: &Value,
) -> Result<Task, Misfit>
    ensures { Reads (λ t. t) result (task_of nodes.now form (view value.now)) }
{
    match form {
        TaskForm::CreateIndex => creation_in(alloc, value),
        TaskForm::DeleteIndex => deletion_in(alloc, value),
        TaskForm::IndexSetting => index_setting_in(alloc, value),
        TaskForm::OpenClose => opening_in(alloc, value),
        TaskForm::Alias => alias_task_in(alloc, value),
        TaskForm::ClusterSetting => cluster_setting_in(alloc, value),
        TaskForm::Node => node_task_in(alloc, nodes, value),
        TaskForm::Reelect => reelection_in(alloc, value),
    }
}

#[tactic(auto, unfolding(crate::specs::Tasks::creation_of))]
fn creation_in(alloc: Global, value: &Value) -> Result<Task, Misfit>
    ensures { Reads (λ t. t) result (creation_of (view value.now)) }
{
    check_members(alloc, value, &["index", "shards", "replicas"])?;
    let index = text_at(alloc, value, "index")?;
    let shards = whole_or(alloc, value, "shards", 1)?;
    let replicas = whole_or(alloc, value, "replicas", 1)?;
    Ok(Task::CreateIndex {
        index,
        shards,
        replicas,
    })
}

#[tactic(auto, unfolding(crate::specs::Tasks::deletion_of))]
fn deletion_in(alloc: Global, value: &Value) -> Result<Task, Misfit>
    ensures { Reads (λ t. t) result (deletion_of (view value.now)) }
{
    check_members(alloc, value, &["index"])?;
    let index = text_at(alloc, value, "index")?;
    Ok(Task::DeleteIndex { index })
}

#[tactic(auto, unfolding(crate::specs::Tasks::index_setting_of))]
fn index_setting_in(alloc: Global, value: &Value) -> Result<Task, Misfit>
    ensures { Reads (λ t. t) result (index_setting_of (view value.now)) }
{
    check_members(alloc, value, &["index", "key", "value"])?;
    let index = text_at(alloc, value, "index")?;
    let key = text_at(alloc, value, "key")?;
    let number = whole_at(alloc, value, "value")?;
    Ok(Task::IndexSetting {
        index,
        key,
        value: number,
    })
}

#[tactic(auto, unfolding(crate::specs::Tasks::opening_of))]
fn opening_in(alloc: Global, value: &Value) -> Result<Task, Misfit>
    ensures { Reads (λ t. t) result (opening_of (view value.now)) }
{
    check_members(alloc, value, &["index", "open"])?;
    let index = text_at(alloc, value, "index")?;
    let flag = member(alloc, value, "open")?;
    let opened = in_member(alloc, "open", flag_in(alloc, flag))?;
    Ok(Task::OpenClose { index, opened })
}

#[tactic(auto, unfolding(crate::specs::Tasks::alias_task_of))]
fn alias_task_in(alloc: Global, value: &Value) -> Result<Task, Misfit>
    ensures { Reads (λ t. t) result (alias_task_of (view value.now)) }
{
    check_members(alloc, value, &["index", "alias", "action"])?;
    let index = text_at(alloc, value, "index")?;
    let alias = text_at(alloc, value, "alias")?;
    let action = member(alloc, value, "action")?;
    let add = in_member(alloc, "action", addition_in(alloc, action))?;
    Ok(Task::Alias { index, alias, add })
}

/// Whether an alias is to be added, or removed.
fn addition_in(alloc: Global, value: &Value) -> Result<bool, Misfit>
    ensures { Reads (λ b. b) result (word_of addition_named (view value.now)) }
{
    match addition_of_word(text_in(alloc, value)?) {
        None => Err(against(alloc, Rule::Value)),
        Some(add) => Ok(add),
    }
}

#[tactic(auto, unfolding(crate::specs::Tasks::addition_named))]
fn addition_of_word(word: &str) -> Option<bool>
    ensures { result ≡ addition_named word.now }
{
    match word {
        "add" => Some(true),
        "remove" => Some(false),
        _ => None,
    }
}

#[tactic(auto, unfolding(crate::specs::Tasks::cluster_setting_of))]
fn cluster_setting_in(alloc: Global, value: &Value) -> Result<Task, Misfit>
    ensures { Reads (λ t. t) result (cluster_setting_of (view value.now)) }
{
    check_members(alloc, value, &["key", "value"])?;
    let key = text_at(alloc, value, "key")?;
    let content = member(alloc, value, "value")?;
    let content = in_member(alloc, "value", setting_value_in(alloc, content))?;
    Ok(Task::ClusterSetting {
        key,
        value: content,
    })
}

/// A text, or null for none.
fn setting_value_in(alloc: Global, value: &Value) -> Result<Option<Text>, Misfit>
    ensures { Reads (λ v. v) result (setting_value_of (view value.now)) }
{
    match value.as_str() {
        Some(text) => Ok(Some(Text::from_str(alloc, text)?)),
        None => match value.as_null() {
            Some(()) => Ok(None),
            None => Err(against(alloc, Rule::WrongType)),
        },
    }
}

#[tactic(auto, unfolding(crate::specs::Tasks::node_task_of))]
fn node_task_in(alloc: Global, nodes: &[ScriptNode], value: &Value) -> Result<Task, Misfit>
    ensures { Reads (λ t. t) result (node_task_of nodes.now (view value.now)) }
{
    check_members(alloc, value, &["node", "action"])?;
    let named = member(alloc, value, "node")?;
    let node = in_member(alloc, "node", node_named_in(alloc, nodes, named))?;
    let action = member(alloc, value, "action")?;
    let joins = in_member(alloc, "action", joining_in(alloc, action))?;
    make_node_task(alloc, node, joins)
}

/// The task by which a node joins or leaves.
fn make_node_task(alloc: Global, node: &ScriptNode, joins: bool) -> Result<Task, Misfit>
    ensures { Reads (λ t. t) result (Ok (node_task node.now joins)) }
{
    let name = node.name.copy()?;
    if joins {
        Ok(Task::Join {
            node: NodeInfo {
                name,
                eligible: node.eligible,
            },
        })
    } else {
        Ok(Task::Leave { name })
    }
}

/// Whether a node is to join, or to leave.
fn joining_in(alloc: Global, value: &Value) -> Result<bool, Misfit>
    ensures { Reads (λ b. b) result (word_of joining_named (view value.now)) }
{
    match joining_of_word(text_in(alloc, value)?) {
        None => Err(against(alloc, Rule::Value)),
        Some(joins) => Ok(joins),
    }
}

#[tactic(auto, unfolding(crate::specs::Tasks::joining_named))]
fn joining_of_word(word: &str) -> Option<bool>
    ensures { result ≡ joining_named word.now }
{
    match word {
        "join" => Some(true),
        "leave" => Some(false),
        _ => None,
    }
}

#[tactic(auto, unfolding(crate::specs::Tasks::reelection_of))]
fn reelection_in(alloc: Global, value: &Value) -> Result<Task, Misfit>
    ensures { Reads (λ t. t) result (reelection_of (view value.now)) }
{
    check_members(alloc, value, &[])?;
    Ok(Task::Reelect)
}
