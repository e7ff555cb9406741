ghost use Rattle.std.specs.Prelude.{◌≡◌, IfOk, map};
ghost use Rattle.node_apply.specs.Applying.{record_of};
ghost use Rattle.master_run.specs.Appliers.{applied_at, applied_first, did_act};

use node_apply::{ApplyOutcome, NodeApplier};
use plain_data::{Items, OutOfMemory};
use session_law::NodeRec;
use std::alloc::Global;

/// The node of a number applies the first commit that it has left; it answers whether there was one.
pub(crate) fn apply_at(nodes: &mut [NodeApplier], number: usize) -> Result<bool, OutOfMemory>
    ensures { IfOk result (λ acted. (acted, nodes.new) ≡ applied_at number nodes.old) }
{
    if number < nodes.len() {
        apply_one(&mut nodes[number])
    } else {
        Ok(false)
    }
}

/// A node applies the first commit that it has left; it answers whether there was one.
fn apply_one(node: &mut NodeApplier) -> Result<bool, OutOfMemory>
    ensures { IfOk result (λ acted. (acted, node.new) ≡ applied_first node.old) }
{
    let outcome = node.apply_next()?;
    Ok(did_act(outcome))
}

/// Whether there was a commit to apply.
fn did_act(outcome: ApplyOutcome) -> bool
    ensures { result ≡ did_act outcome }
{
    match outcome {
        ApplyOutcome::None => false,
        ApplyOutcome::Applied { .. } | ApplyOutcome::FailedByScript { .. } => true,
    }
}

/// The records of nodes, in order.
pub(crate) fn finish_all(
    alloc: Global,
    nodes: Vec<NodeApplier>,
) -> Result<Items<NodeRec>, OutOfMemory>
    ensures { IfOk result (λ made. made ≡ map record_of nodes.items) }
{
    let mut made = Items::new(alloc);
    let mut left = nodes.into_iter();
    while let Some(node) = left.next() {
        made.push(node.finish())?;
    }
    Ok(made)
}
