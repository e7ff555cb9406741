ghost use Rattle.std.specs.Prelude.{◌≡◌, IfOk, IsTrue, refl};
ghost use Rattle.std.specs.Option.{option_copied};
ghost use Rattle.serde_json.specs.View.{view};
ghost use Rattle.scripts.specs.Names.{is_name};
ghost use Rattle.scripts.specs.ValidSteps.{is_node_among, is_node_so};
ghost use Rattle.script_form.specs.Misfits.{Reads};
ghost use Rattle.script_form.specs.Naming.{IsNewTo};
ghost use Rattle.script_form.specs.Nodes.{AreLed, AreNodes, find_node, fit_node, is_fit_first, next_node, node_name, node_named, node_of, nodes_of};

use crate::limits::LimitName;
use crate::list_readers::{ListReader, read_each};
use crate::misfits::{Misfit, against, in_member};
use crate::parts::{check_members, flag_or, member, name_in, text_in, values_up_to};
use crate::rules::Rule;
use plain_data::Items;
use scripts::ScriptNode;
use serde_json::Value;
use std::alloc::Global;

/// The nodes of a script.
pub(crate) fn nodes_in(alloc: Global, value: &Value) -> Result<Items<ScriptNode>, Misfit>
    ensures { Reads (λ n. n) result (nodes_of (view value.now)) }
{
    let values = values_up_to(alloc, value, 30, LimitName::Nodes)?;
    if values.is_empty() {
        return Err(against(alloc, Rule::Range));
    }
    read_each(alloc, &NodeReader, values)
}

/// Reads nodes: each has a name of its own, and the first may be the master.
#[derive(Drop)]
struct NodeReader;

impl ListReader for NodeReader {
    type Item = ScriptNode;

    ghost reads = { λ _. next_node };

    ghost most = { λ _. 30 };

    fn read_next(
        &self,
        alloc: Global,
        before: &[ScriptNode],
        value: &Value,
    ) -> Result<ScriptNode, Misfit> {
        let node = node_in(alloc, value)?;
        check_node(alloc, before, node)
    }
}

#[tactic(auto, unfolding(crate::specs::Nodes::node_of))]
fn node_in(alloc: Global, value: &Value) -> Result<ScriptNode, Misfit>
    ensures { Reads (λ n. n) result (node_of (view value.now)) }
{
    check_members(alloc, value, &["name", "eligible", "member"])?;
    let name = in_member(alloc, "name", name_in(alloc, member(alloc, value, "name")?))?;
    let eligible = flag_or(alloc, value, "eligible", true)?;
    let is_member = flag_or(alloc, value, "member", true)?;
    Ok(ScriptNode {
        name,
        eligible,
        member: is_member,
    })
}

/// Asks that a node have a name of its own, and that the first be fit to be the master.
fn check_node(alloc: Global, before: &[ScriptNode], node: ScriptNode) -> Result<ScriptNode, Misfit>
    ensures { Reads (λ n. n) result (fit_node before.now node) }
{
    if before.is_empty() {
        if node.eligible && node.member {
            Ok(node)
        } else {
            Err(against(alloc, Rule::Master))
        }
    } else if has_node(before, node.name.as_str()) {
        in_member(alloc, "name", Err(against(alloc, Rule::Twice)))
    } else {
        Ok(node)
    }
}

fn has_node(nodes: &[ScriptNode], name: &str) -> bool
    ensures { result ≡ is_node_among nodes.now name.now }
{
    nodes.iter().any(|node| name == node.name.as_str())
}

/// The node that a text names.
pub(crate) fn node_named_in<'a>(
    alloc: Global,
    nodes: &'a [ScriptNode],
    value: &Value,
) -> Result<&'a ScriptNode, Misfit>
    ensures { Reads (λ n. n.now) result (node_named nodes.now (view value.now)) }
{
    let text = text_in(alloc, value)?;
    match find(nodes, text.as_bytes()) {
        None => Err(against(alloc, Rule::Reference)),
        Some(node) => Ok(node),
    }
}

/// The node of a name.
pub(crate) fn find<'a>(nodes: &'a [ScriptNode], name: &[u8]) -> Option<&'a ScriptNode>
    ensures { option_copied result ≡ find_node nodes.now name.now }
{
    for node in nodes {
        if name == node.name.as_bytes() {
            return Some(node);
        }
    }
    None
}
