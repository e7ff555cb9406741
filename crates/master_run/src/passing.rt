ghost use Rattle.std.specs.Prelude.{◌≡◌, OnOk, map};
ghost use Rattle.std.specs.List.{AllZip};
ghost use Rattle.node_apply.specs.NodeLinks.{passed};
ghost use Rattle.master_run.specs.Passing.{CanPass, passed_each};

use node_apply::{NodeApplier, NodeLink};
use plain_data::OutOfMemory;

/// Passes what each node was handed over its link on to its applier.
pub(crate) fn pass_all(links: &mut [NodeLink], nodes: &mut [NodeApplier]) -> Result<(), OutOfMemory>
    requires { AllZip CanPass links.old nodes.old }
    ensures nodes { OnOk result (nodes.new ≡ passed_each links.old nodes.old) }
    ensures links { OnOk result (links.new ≡ map passed links.old) }
{
    for (place, link) in links.iter_mut().enumerate() {
        link.pass_next(&mut nodes[place])?;
    }
    Ok(())
}
