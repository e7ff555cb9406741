ghost use Rattle.std.specs.Prelude.{◌≡◌, IfOk, OnOk};
ghost use Rattle.std.specs.Option.{option_copied};
ghost use Rattle.meta_state.specs.Tables.{AgreeBut, aliases_at};
ghost use Rattle.executors.specs.AliasTasks.{add_refusal, added_in, is_aliased_at, remove_refusal, removed_in, with_alias, without_alias};
ghost use Rattle.executors.specs.Executions.{CanRise, CanIndexRise};
ghost use Rattle.executors.specs.IndexTasks.{with_index};
ghost use Rattle.executors.specs.TaskRuns.{alias_outcome, outcome};

use crate::contexts::Verdict;
use crate::refusals::TaskRefusal;
use meta_state::{ClusterState, IndexMetadata, check_index_name};
use plain_data::{OutOfMemory, Text};
use std::alloc::Global;

/// Adds an alias to an index or takes it away, or refuses to.
pub(crate) fn run_alias(
    alloc: Global,
    state: &mut ClusterState,
    index: &Text,
    alias: &Text,
    add: bool,
) -> Result<Verdict, OutOfMemory>
    requires { CanRise state.old }
    ensures { IfOk result (λ verdict. (state.new, verdict) ≡ alias_outcome state.old index.now alias.now add) }
{
    if add {
        run_addition(alloc, state, index, alias)
    } else {
        run_removal(alloc, state, index, alias)
    }
}

fn run_addition(
    alloc: Global,
    state: &mut ClusterState,
    index: &Text,
    alias: &Text,
) -> Result<Verdict, OutOfMemory>
    requires { CanRise state.old }
    ensures { IfOk result (λ verdict. (state.new, verdict) ≡ outcome (add_refusal state.old index.now alias.now) state.old (added_in state.old index.now alias.now)) }
{
    if let Some(refusal) = why_not_add(state, index, alias) {
        return Ok(Verdict::Refused(refusal));
    }
    add_alias(alloc, state, index, alias)?;
    Ok(Verdict::Success)
}

fn why_not_add(state: &ClusterState, index: &Text, alias: &Text) -> Option<TaskRefusal>
    ensures { result ≡ add_refusal state.now index.now alias.now }
{
    if !state.metadata.indices.contains_key(index) {
        Some(TaskRefusal::NotFound)
    } else if check_index_name(alias.as_str()).is_err() {
        Some(TaskRefusal::InvalidName)
    } else if state.metadata.indices.contains_key(alias) {
        Some(TaskRefusal::AliasClash)
    } else {
        None
    }
}

#[tactic(auto, using(crate::proofs::Rising::index_can_rise, meta_state::proofs::Tables::one_alias_more))]
fn add_alias(
    alloc: Global,
    state: &mut ClusterState,
    name: &Text,
    alias: &Text,
) -> Result<(), OutOfMemory>
    requires { CanRise state.old }
    ensures { OnOk result (state.new ≡ added_in state.old name.now alias.now) }
{
    let Some(index) = state.metadata.indices.get(name) else {
        return Ok(());
    };
    if index.aliases.contains(alias) {
        return Ok(());
    }
    let changed = widened(alloc, index, alias)?;
    put_aliased(state, name, changed, alias)
}

fn widened(alloc: Global, index: &IndexMetadata, alias: &Text) -> Result<IndexMetadata, OutOfMemory>
    requires { CanIndexRise index.now }
    ensures { IfOk result (λ made. made ≡ with_alias index.now alias.now) }
{
    let mut made = index.copy(alloc)?;
    made.version += 1;
    made.aliases_version += 1;
    made.aliases.insert(alias.copy()?)?;
    Ok(made)
}

fn run_removal(
    alloc: Global,
    state: &mut ClusterState,
    index: &Text,
    alias: &Text,
) -> Result<Verdict, OutOfMemory>
    requires { CanRise state.old }
    ensures { IfOk result (λ verdict. (state.new, verdict) ≡ outcome (remove_refusal state.old index.now alias.now) state.old (removed_in state.old index.now alias.now)) }
{
    if let Some(refusal) = why_not_remove(state, index, alias) {
        return Ok(Verdict::Refused(refusal));
    }
    remove_alias(alloc, state, index, alias)?;
    Ok(Verdict::Success)
}

fn why_not_remove(state: &ClusterState, index: &Text, alias: &Text) -> Option<TaskRefusal>
    ensures { result ≡ remove_refusal state.now index.now alias.now }
{
    if is_there(state.metadata.indices.get(index), alias) {
        None
    } else {
        Some(TaskRefusal::NotFound)
    }
}

// Whether there is an index and it has the alias.
fn is_there(index: Option<&IndexMetadata>, alias: &Text) -> bool
    ensures { result ≡ is_aliased_at alias.now (option_copied index.entry) }
{
    match index {
        None => false,
        Some(index) => index.aliases.contains(alias),
    }
}

#[tactic(auto, using(crate::proofs::Rising::index_can_rise, meta_state::proofs::Tables::one_alias_less))]
fn remove_alias(
    alloc: Global,
    state: &mut ClusterState,
    name: &Text,
    alias: &Text,
) -> Result<(), OutOfMemory>
    requires { CanRise state.old }
    ensures { OnOk result (state.new ≡ removed_in state.old name.now alias.now) }
{
    let Some(index) = state.metadata.indices.get(name) else {
        return Ok(());
    };
    let changed = narrowed(alloc, index, alias)?;
    put_aliased(state, name, changed, alias)
}

fn narrowed(
    alloc: Global,
    index: &IndexMetadata,
    alias: &Text,
) -> Result<IndexMetadata, OutOfMemory>
    requires { CanIndexRise index.now }
    ensures { IfOk result (λ made. made ≡ without_alias index.now alias.now) }
{
    let mut made = index.copy(alloc)?;
    made.version += 1;
    made.aliases_version += 1;
    made.aliases.remove(alias)?;
    Ok(made)
}

// Puts an index in place of the one that has its name, and its aliases but for one.
fn put_aliased(
    state: &mut ClusterState,
    name: &Text,
    index: IndexMetadata,
    alias: &Text,
) -> Result<(), OutOfMemory>
    requires { AgreeBut alias.now index.aliases (aliases_at name.now state.old.metadata.indices) }
    ensures { OnOk result (state.new ≡ with_index state.old name.now index) }
{
    let name = name.copy()?;
    state
        .metadata
        .indices
        .set_changing_alias(name, index, alias)
}
