ghost use Rattle.std.specs.Prelude.{◌≡◌, ◌^◌, [], IfOk, IsTrue, None, bytes_eq, codes, map, refl};
ghost use Rattle.std.specs.List.{list_any};
ghost use Rattle.serde_json.specs.View.{view};
ghost use Rattle.scripts.specs.ValidSteps.{are_asked, is_ack, is_if_some, is_time};
ghost use Rattle.script_form.specs.Misfits.{Reads};
ghost use Rattle.script_form.specs.Parts.{each, optional};
ghost use Rattle.script_form.specs.Steps.{ack_of, asked_of, next_asked, some_ack_of, some_time_of};

use crate::list_readers::{ListReader, read_each};
use crate::misfits::{Misfit, against, in_member};
use crate::nodes::node_named_in;
use crate::parts::{check_members, member, time_in, values_of};
use crate::rules::Rule;
use plain_data::{Items, Text};
use scripts::{Ack, ScriptNode};
use serde_json::Value;
use std::alloc::Global;

/// The acknowledgement that a submit asks for, if it does.
pub(crate) fn ack_or_none(
    alloc: Global,
    nodes: &[ScriptNode],
    value: &Value,
) -> Result<Option<Ack>, Misfit>
    ensures { Reads (λ a. a) result (optional (codes "ack") None (some_ack_of nodes.now) (view value.now)) }
{
    match value.get("ack") {
        None => Ok(None),
        Some(member) => Ok(Some(in_member(alloc, "ack", ack_in(alloc, nodes, member))?)),
    }
}

#[tactic(auto, unfolding(crate::specs::Steps::ack_of))]
fn ack_in(alloc: Global, nodes: &[ScriptNode], value: &Value) -> Result<Ack, Misfit>
    ensures { Reads (λ a. a) result (ack_of nodes.now (view value.now)) }
{
    check_members(alloc, value, &["nodes", "timeout"])?;
    let asked = member(alloc, value, "nodes")?;
    let asked = in_member(alloc, "nodes", asked_in(alloc, nodes, asked))?;
    let timeout = time_or_none(alloc, value)?;
    Ok(Ack {
        nodes: asked,
        timeout,
    })
}

/// The timeout, if there is one, in milliseconds.
fn time_or_none(alloc: Global, value: &Value) -> Result<Option<u64>, Misfit>
    ensures { Reads (λ t. t) result (optional (codes "timeout") None some_time_of (view value.now)) }
{
    match value.get("timeout") {
        None => Ok(None),
        Some(member) => Ok(Some(in_member(alloc, "timeout", time_in(alloc, member))?)),
    }
}

/// The nodes that are asked: none for all of them, or a list.
fn asked_in(
    alloc: Global,
    nodes: &[ScriptNode],
    value: &Value,
) -> Result<Option<Items<Text>>, Misfit>
    ensures { Reads (λ a. a) result (asked_of nodes.now (view value.now)) }
{
    match value.as_str() {
        Some("all") => Ok(None),
        Some(_) => Err(against(alloc, Rule::Value)),
        None => Ok(Some(asked_among(alloc, nodes, values_of(alloc, value)?)?)),
    }
}

/// The asked nodes of a list.
fn asked_among(alloc: Global, nodes: &[ScriptNode], values: &[Value]) -> Result<Items<Text>, Misfit>
    ensures { Reads (λ a. a) result (each (next_asked nodes.now) [] (map view values.now)) }
{
    read_each(alloc, &AskedReader { nodes }, values)
}

/// Reads the nodes that are asked: none is asked twice.
#[derive(Drop)]
struct AskedReader<'a> {
    nodes: &'a [ScriptNode],
}

impl<'a> ListReader for AskedReader<'a> {
    type Item = Text;

    ghost reads = { λ r. next_asked r.nodes.now };

    ghost most = { λ _. 2 ^ 64 };

    fn read_next(&self, alloc: Global, before: &[Text], value: &Value) -> Result<Text, Misfit> {
        let node = node_named_in(alloc, self.nodes, value)?;
        if is_among(before, node.name.as_str()) {
            Err(against(alloc, Rule::Twice))
        } else {
            Ok(node.name.copy()?)
        }
    }
}

fn is_among(names: &[Text], name: &str) -> bool
    ensures { result ≡ list_any (bytes_eq name.now) names.now }
{
    names.iter().any(|other| name == other.as_str())
}
