ghost use Rattle.std.specs.Prelude.{◌≡◌, ◌≤◌, [], ◌∷◌, ◌++◌, IfOk, OnOk, count_by, length};
ghost use Rattle.scripts.specs.Scripts.{IsScript, is_submit, submits};
ghost use Rattle.master_run.specs.Appliers.{applier_for, appliers_for};
ghost use Rattle.master_run.specs.NodeEnds.{link_for, links_for, room_for};

use node_apply::{CommitEnd, CommitStart, NodeApplier, NodeLink, commit_pair};
use plain_data::OutOfMemory;
use publication::Replica;
use scripts::{Script, ScriptNode, Step};
use session_law::{NodeWorld, World};
use std::alloc::Global;

/// For each node of a script the link over which it is handed commits, and what applies them.
#[derive(Drop)]
pub(crate) struct NodeEnds {
    pub(crate) links: Vec<NodeLink>,
    pub(crate) appliers: Vec<NodeApplier>,
}

/// The nodes of a script, of which nothing fails. Each link has room for as many commits as there are submits, and at
/// least one.
pub(crate) fn open_ends(
    alloc: Global,
    script: &Script,
    world: &World,
) -> Result<NodeEnds, OutOfMemory>
    requires { IsScript script.now }
    ensures links { IfOk result (λ made. made.links.items ≡ links_for (room_for script.now) script.now.nodes world.now.nodes) }
    ensures appliers { IfOk result (λ made. made.appliers.items ≡ appliers_for script.now.nodes world.now.nodes) }
{
    let room = count_submits(script).max(1);
    let mut ends = NodeEnds {
        links: Vec::new(alloc),
        appliers: Vec::new(alloc),
    };
    let mut left = world.nodes.as_slice();
    for node in script.nodes.as_slice() {
        let Some((has, more)) = left.split_first() else {
            return Ok(ends);
        };
        open_node(alloc, node, has, room, &mut ends)?;
        left = more;
    }
    Ok(ends)
}

/// Adds the ends of a node that has what it has in a world.
fn open_node(
    alloc: Global,
    node: &ScriptNode,
    has: &NodeWorld,
    room: u32,
    ends: &mut NodeEnds,
) -> Result<(), OutOfMemory>
    ensures links { OnOk result (ends.new.links.items ≡ ends.old.links.items ++ link_for room node.now has.now ∷ []) }
    ensures appliers { OnOk result (ends.new.appliers.items ≡ ends.old.appliers.items ++ applier_for node.now has.now ∷ []) }
{
    let (start, end) = commit_pair(alloc, room)?;
    ends.links.push(open_link(alloc, node, has, start)?)?;
    ends.appliers.push(open_applier(alloc, node, has, end)?)?;
    Ok(())
}

/// The link over which a node is handed commits at this end.
fn open_link(
    alloc: Global,
    node: &ScriptNode,
    has: &NodeWorld,
    start: CommitStart,
) -> Result<NodeLink, OutOfMemory>
    requires { start.commits ≡ [] }
    ensures { IfOk result (λ made. made ≡ link_for start.room node.now has.now) }
{
    let name = node.name.copy()?;
    let replica = Replica::new(has.accepted.copy(alloc)?);
    Ok(NodeLink::create(alloc, name, replica, start, Vec::new(alloc)))
}

/// What applies the commits of a node that finds them at this end.
fn open_applier(
    alloc: Global,
    node: &ScriptNode,
    has: &NodeWorld,
    end: CommitEnd,
) -> Result<NodeApplier, OutOfMemory>
    requires { end ≡ [] }
    ensures { IfOk result (λ made. made ≡ applier_for node.now has.now) }
{
    let name = node.name.copy()?;
    let first = has.accepted.copy(alloc)?;
    NodeApplier::create(alloc, name, first, end, Vec::new(alloc))
}

/// How many submits a script has.
fn count_submits(script: &Script) -> u32
    requires { IsScript script.now }
    ensures { result ≡ submits script.now }
{
    let mut count: u32 = 0;
    for steps in script.clients.as_slice() {
        count += submits_in(steps.as_slice());
    }
    count
}

fn submits_in(steps: &[Step]) -> u32
    requires { length steps.now ≤ 4096 }
    ensures count { result ≡ count_by is_submit steps.now }
    ensures few { result ≤ 4096 }
{
    let mut count: u32 = 0;
    for step in steps {
        if matches!(step, Step::Submit { .. }) {
            count += 1;
        }
    }
    count
}
