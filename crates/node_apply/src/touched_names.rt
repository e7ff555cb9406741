ghost use Rattle.std.specs.Prelude.{◌≡◌, [], IfOk, OnOk};
ghost use Rattle.meta_state.specs.Touches.{AgreeOutside};
ghost use Rattle.node_apply.specs.TouchedNames.{with_names_of, names_in, touched_of, names_of_both, all_names_of};

use crate::putting::all_three;
use meta_state::{ClusterState, Touched};
use plain_data::{Map, NameSet, OutOfMemory};
use state_diff::{Diffable, MapDiff, StateDiff};
use std::alloc::Global;

/// What a diff may change: the names in its parts. It costs as much as the diff is long.
pub(crate) fn touched_by(_alloc: Global, diff: &StateDiff) -> Result<Touched, OutOfMemory>
    ensures { IfOk result (λ made. made ≡ touched_of diff.now) }
{
    let parts = diff.parts();
    let (indices, settings, nodes) = all_three(
        names_in(&parts.indices),
        names_in(&parts.settings),
        names_in(&parts.nodes),
    )?;
    Ok(Touched {
        indices,
        settings,
        nodes,
    })
}

/// All names of two states, for where nothing is known of how they differ. It costs a walk over both.
#[tactic(auto, using(crate::proofs::Touching::agree_outside_made))]
pub(crate) fn touched_all(
    alloc: Global,
    a: &ClusterState,
    b: &ClusterState,
) -> Result<Touched, OutOfMemory>
    ensures made { IfOk result (λ made. made ≡ all_names_of a.now b.now) }
    ensures agree { IfOk result (λ made. AgreeOutside made a.now b.now) }
{
    let (old, new) = (&a.metadata, &b.metadata);
    let (indices, settings, nodes) = all_three(
        names_of_both(alloc, old.indices.by_name(), new.indices.by_name()),
        names_of_both(alloc, &old.settings, &new.settings),
        names_of_both(alloc, &a.nodes, &b.nodes),
    )?;
    Ok(Touched {
        indices,
        settings,
        nodes,
    })
}

// The keys at which a diff of maps does something.
fn names_in<V: Diffable>(diff: &MapDiff<V>) -> Result<NameSet, OutOfMemory>
    ensures { IfOk result (λ made. made ≡ names_in diff.now) }
{
    let mut names = diff.deletes.copy()?;
    add_names_of(&mut names, &diff.diffs)?;
    add_names_of(&mut names, &diff.upserts)?;
    Ok(names)
}

fn names_of_both<V>(alloc: Global, a: &Map<V>, b: &Map<V>) -> Result<NameSet, OutOfMemory>
    ensures { IfOk result (λ made. made ≡ names_of_both a.now b.now) }
{
    let mut names = names_of(alloc, a)?;
    add_names_of(&mut names, b)?;
    Ok(names)
}

/// The keys of a map.
pub(crate) fn names_of<V>(alloc: Global, map: &Map<V>) -> Result<NameSet, OutOfMemory>
    ensures { IfOk result (λ made. made ≡ with_names_of map.now []) }
{
    let mut names = NameSet::new(alloc);
    add_names_of(&mut names, map)?;
    Ok(names)
}

fn add_names_of<V>(names: &mut NameSet, map: &Map<V>) -> Result<(), OutOfMemory>
    ensures { OnOk result (names.new ≡ with_names_of map.now names.old) }
{
    for (key, _) in map.iter() {
        names.insert(key.copy()?)?;
    }
    Ok(())
}
