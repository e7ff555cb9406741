ghost use Rattle.std.specs.Prelude.{◌≡◌, Some, IfOk, OnOk, unwrap_or};
ghost use Rattle.plain_data.specs.Agreements.{with_all};
ghost use Rattle.meta_state.specs.Touches.{AgreeOutside, touched_by_both};
ghost use Rattle.session_law.specs.Changes.{change_between};
ghost use Rattle.node_apply.specs.Commits.{AreLinked, MayDiffer, either_touched};
ghost use Rattle.node_apply.specs.Standing.{IsAt, IsPrepared, IsReadyFor};

use crate::applied_states::{Applied, prepare_all};
use crate::change_lists::change_of;
use crate::changed_events::ChangedEvent;
use crate::commits::{Commit, CommitEnd};
use crate::putting::all_three;
use crate::touched_names::touched_all;
use meta_state::{ClusterState, Touched};
use plain_data::{NameSet, OutOfMemory};
use session_law::Change;
use std::alloc::Global;

/// Prepares the state of the first of some commits, where there is one, and tells what changes with it. The applied state
/// is as far behind the last commit that was taken as `behind` tells.
pub(crate) fn prepare_first(
    alloc: Global,
    applied: &mut Applied,
    missed: &Option<ClusterState>,
    behind: &Option<Touched>,
    commits: &CommitEnd,
) -> Result<Option<Change>, OutOfMemory>
    requires at { IsAt applied.old }
    requires behind { MayDiffer behind.now (Some applied.old.state) (unwrap_or missed.now applied.old.state) }
    requires linked { AreLinked (Some (unwrap_or missed.now applied.old.state)) commits.now }
    ensures state { applied.new.state ≡ applied.old.state }
    ensures at { IsAt applied.new }
    ensures ready { IfOk result (λ change. IsPrepared change applied.old.state applied.new commits.now) }
{
    match commits.first() {
        None => Ok(None),
        Some(next) => Ok(Some(prepare_next(alloc, applied, missed, behind, next)?)),
    }
}

fn prepare_next(
    alloc: Global,
    applied: &mut Applied,
    missed: &Option<ClusterState>,
    behind: &Option<Touched>,
    next: &Commit,
) -> Result<Change, OutOfMemory>
    requires at { IsAt applied.old }
    requires behind { MayDiffer behind.now (Some applied.old.state) (unwrap_or missed.now applied.old.state) }
    requires next { MayDiffer next.now.since (Some (unwrap_or missed.now applied.old.state)) next.now.state }
    ensures state { applied.new.state ≡ applied.old.state }
    ensures at { IsAt applied.new }
    ensures ready { OnOk result (IsReadyFor applied.new next.now.state) }
    ensures change { IfOk result (λ change. change ≡ change_between applied.old.state next.now.state) }
{
    match (missed, next.since()) {
        (None, Some(touched)) => prepare_among(alloc, applied, next.state(), touched),
        _ => {
            let touched = touched_since(alloc, &applied.state, missed, behind, next)?;
            prepare_among(alloc, applied, next.state(), &touched)
        }
    }
}

/// The same where it is known what may have changed since the applied state.
fn prepare_among(
    alloc: Global,
    applied: &mut Applied,
    new: &ClusterState,
    touched: &Touched,
) -> Result<Change, OutOfMemory>
    requires at { IsAt applied.old }
    requires agree { AgreeOutside touched.now applied.old.state new.now }
    ensures state { applied.new.state ≡ applied.old.state }
    ensures at { IsAt applied.new }
    ensures ready { OnOk result (IsReadyFor applied.new new.now) }
    ensures change { IfOk result (λ change. change ≡ change_between applied.old.state new.now) }
{
    prepare_all(applied, new, touched)?;
    let event = ChangedEvent::new(&applied.state, new, touched);
    change_of(alloc, &event)
}

/// What may have changed since the applied state: by the commits that failed, and by the next one.
#[tactic(auto, using(crate::proofs::Linking::agree_by_either))]
fn touched_since(
    alloc: Global,
    state: &ClusterState,
    missed: &Option<ClusterState>,
    behind: &Option<Touched>,
    next: &Commit,
) -> Result<Touched, OutOfMemory>
    requires behind { MayDiffer behind.now (Some state.now) (unwrap_or missed.now state.now) }
    requires next { MayDiffer next.now.since (Some (unwrap_or missed.now state.now)) next.now.state }
    ensures { IfOk result (λ touched. AgreeOutside touched state.now next.now.state) }
{
    match touched_before(alloc, behind, next.since())? {
        Some(touched) => Ok(touched),
        None => touched_all(alloc, state, next.state()),
    }
}

/// What may have changed by the one or by the other, where both are known.
pub(crate) fn touched_before(
    alloc: Global,
    first: &Option<Touched>,
    then: &Option<Touched>,
) -> Result<Option<Touched>, OutOfMemory>
    ensures { IfOk result (λ both. both ≡ either_touched first.now then.now) }
{
    match (first, then) {
        (Some(first), Some(then)) => Ok(Some(touched_union(alloc, first, then)?)),
        _ => Ok(None),
    }
}

pub(crate) fn touched_union(
    alloc: Global,
    first: &Touched,
    then: &Touched,
) -> Result<Touched, OutOfMemory>
    ensures { IfOk result (λ both. both ≡ touched_by_both first.now then.now) }
{
    let (indices, settings, nodes) = all_three(
        names_union(&first.indices, &then.indices),
        names_union(&first.settings, &then.settings),
        names_union(&first.nodes, &then.nodes),
    )?;
    Ok(Touched {
        indices,
        settings,
        nodes,
    })
}

fn names_union(first: &NameSet, then: &NameSet) -> Result<NameSet, OutOfMemory>
    ensures { IfOk result (λ both. both ≡ with_all then.now first.now) }
{
    let mut both = first.copy()?;
    both.include(then)?;
    Ok(both)
}
