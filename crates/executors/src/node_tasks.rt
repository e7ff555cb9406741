ghost use Rattle.std.specs.Prelude.{◌≡◌, IfOk, OnOk};
ghost use Rattle.executors.specs.NodeTasks.{join_refusal, joined_in, leave_refusal, left_in};
ghost use Rattle.executors.specs.TaskRuns.{outcome};

use crate::contexts::Verdict;
use crate::refusals::TaskRefusal;
use meta_state::{ClusterState, NodeInfo};
use plain_data::{OutOfMemory, Text};
use std::alloc::Global;

/// Lets a node join, or refuses to.
pub(crate) fn run_join(
    alloc: Global,
    state: &mut ClusterState,
    node: &NodeInfo,
) -> Result<Verdict, OutOfMemory>
    ensures { IfOk result (λ verdict. (state.new, verdict) ≡ outcome (join_refusal state.old node.now) state.old (joined_in state.old node.now)) }
{
    if let Some(refusal) = why_not_join(state, node) {
        return Ok(Verdict::Refused(refusal));
    }
    join(alloc, state, node)?;
    Ok(Verdict::Success)
}

fn why_not_join(state: &ClusterState, node: &NodeInfo) -> Option<TaskRefusal>
    ensures { result ≡ join_refusal state.now node.now }
{
    if state.nodes.contains_key(&node.name) {
        Some(TaskRefusal::NodeKnown)
    } else {
        None
    }
}

fn join(alloc: Global, state: &mut ClusterState, node: &NodeInfo) -> Result<(), OutOfMemory>
    ensures { OnOk result (state.new ≡ joined_in state.old node.now) }
{
    let joined = node.copy(alloc)?;
    state.nodes.set(node.name.copy()?, joined)
}

/// Lets a node leave, or refuses to.
pub(crate) fn run_leave(state: &mut ClusterState, name: &Text) -> Result<Verdict, OutOfMemory>
    ensures { IfOk result (λ verdict. (state.new, verdict) ≡ outcome (leave_refusal state.old name.now) state.old (left_in state.old name.now)) }
{
    if let Some(refusal) = why_not_leave(state, name) {
        return Ok(Verdict::Refused(refusal));
    }
    state.nodes.remove(name)?;
    Ok(Verdict::Success)
}

fn why_not_leave(state: &ClusterState, name: &Text) -> Option<TaskRefusal>
    ensures { result ≡ leave_refusal state.now name.now }
{
    if !state.nodes.contains_key(name) {
        Some(TaskRefusal::NodeUnknown)
    } else if name == &state.master {
        Some(TaskRefusal::MasterMayNotLeave)
    } else {
        None
    }
}
