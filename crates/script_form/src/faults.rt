ghost use Rattle.std.specs.Prelude.{◌≡◌, ◌≤◌, IfOk, IsTrue, false, length, refl};
ghost use Rattle.std.specs.List.{list_any};
ghost use Rattle.serde_json.specs.View.{view};
ghost use Rattle.scripts.specs.Scripts.{is_fault, is_master};
ghost use Rattle.scripts.specs.ValidSteps.{is_node_among};
ghost use Rattle.script_form.specs.Faults.{AreFaults, fault_named, fault_of, faults_of, fit_fault, follower_of, is_same_place, next_fault};
ghost use Rattle.script_form.specs.Misfits.{Reads};
ghost use Rattle.script_form.specs.Parts.{word_of};

use crate::limits::LimitName;
use crate::list_readers::{ListReader, read_each};
use crate::misfits::{Misfit, against, in_member};
use crate::nodes::node_named_in;
use crate::parts::{check_members, member, positive_in, text_in, values_up_to};
use crate::rules::Rule;
use plain_data::{Items, Text};
use scripts::{Fault, FaultKind, ScriptNode};
use serde_json::Value;
use std::alloc::Global;

/// The faults of a script.
pub(crate) fn faults_in(
    alloc: Global,
    nodes: &[ScriptNode],
    value: &Value,
) -> Result<Items<Fault>, Misfit>
    ensures { Reads (λ f. f) result (faults_of nodes.now (view value.now)) }
{
    let values = values_up_to(alloc, value, 1024, LimitName::Faults)?;
    read_each(alloc, &FaultReader { nodes }, values)
}

/// Reads faults: no two are at one publication to a node.
#[derive(Drop)]
struct FaultReader<'a> {
    nodes: &'a [ScriptNode],
}

impl<'a> ListReader for FaultReader<'a> {
    type Item = Fault;

    ghost reads = { λ r. next_fault r.nodes.now };

    ghost most = { λ _. 1024 };

    fn read_next(&self, alloc: Global, before: &[Fault], value: &Value) -> Result<Fault, Misfit> {
        let fault = fault_in(alloc, self.nodes, value)?;
        check_fault(alloc, before, fault)
    }
}

/// Asks that no fault be at the same publication to the same node.
fn check_fault(alloc: Global, before: &[Fault], fault: Fault) -> Result<Fault, Misfit>
    ensures { Reads (λ f. f) result (fit_fault before.now fault) }
{
    if has_fault(before, &fault) {
        Err(against(alloc, Rule::Twice))
    } else {
        Ok(fault)
    }
}

fn has_fault(faults: &[Fault], fault: &Fault) -> bool
    ensures { result ≡ list_any (is_same_place fault.now) faults.now }
{
    faults.iter().any(|other| fault.node == other.node && fault.publication == other.publication)
}

#[tactic(auto, unfolding(crate::specs::Faults::fault_of))]
fn fault_in(alloc: Global, nodes: &[ScriptNode], value: &Value) -> Result<Fault, Misfit>
    ensures { Reads (λ f. f) result (fault_of nodes.now (view value.now)) }
{
    check_members(alloc, value, &["node", "publication", "kind"])?;
    let named = member(alloc, value, "node")?;
    let node = in_member(alloc, "node", follower_in(alloc, nodes, named))?;
    let publication = member(alloc, value, "publication")?;
    let publication = in_member(alloc, "publication", positive_in(alloc, publication))?;
    let kind = member(alloc, value, "kind")?;
    let kind = in_member(alloc, "kind", fault_kind_in(alloc, kind))?;
    Ok(Fault {
        node,
        publication,
        kind,
    })
}

/// The name of a node other than the master.
fn follower_in(alloc: Global, nodes: &[ScriptNode], value: &Value) -> Result<Text, Misfit>
    ensures { Reads (λ n. n) result (follower_of nodes.now (view value.now)) }
{
    let node = node_named_in(alloc, nodes, value)?;
    if leads(nodes, node.name.as_str()) {
        Err(against(alloc, Rule::Master))
    } else {
        Ok(node.name.copy()?)
    }
}

/// Whether a name is the master's.
fn leads(nodes: &[ScriptNode], name: &str) -> bool
    ensures { result ≡ is_master nodes.now name.now }
{
    match nodes.first() {
        None => false,
        Some(master) => name == master.name.as_str(),
    }
}

fn fault_kind_in(alloc: Global, value: &Value) -> Result<FaultKind, Misfit>
    ensures { Reads (λ k. k) result (word_of fault_named (view value.now)) }
{
    match fault_kind_of_word(text_in(alloc, value)?) {
        None => Err(against(alloc, Rule::Value)),
        Some(kind) => Ok(kind),
    }
}

#[tactic(auto, unfolding(crate::specs::Faults::fault_named))]
fn fault_kind_of_word(word: &str) -> Option<FaultKind>
    ensures { result ≡ fault_named word.now }
{
    match word {
        "unreachable" => Some(FaultKind::Unreachable),
        "lost_commit" => Some(FaultKind::LostCommit),
        "apply" => Some(FaultKind::Apply),
        _ => None,
    }
}
