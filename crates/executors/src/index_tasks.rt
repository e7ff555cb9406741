ghost use Rattle.std.specs.Prelude.{◌≡◌, IfOk, OnOk};
ghost use Rattle.meta_state.specs.Tables.{aliases_at};
ghost use Rattle.executors.specs.Executions.{CanRise, CanIndexRise};
ghost use Rattle.executors.specs.IndexTasks.{create_refusal, created_in, deleted_in, has_index, index_setting_refusal, is_replicas_key, is_shards_key, missing_refusal, opened_in, replicas_in, with_index, with_opened, with_replicas};
ghost use Rattle.executors.specs.TaskRuns.{outcome};

use crate::contexts::Verdict;
use crate::refusals::TaskRefusal;
use meta_state::{ClusterState, IndexMetadata, check_index_name};
use plain_data::{NameSet, OutOfMemory, Text};
use std::alloc::Global;

/// Creates an index, or refuses to.
pub(crate) fn run_creation(
    alloc: Global,
    state: &mut ClusterState,
    index: &Text,
    shards: u64,
    replicas: u64,
) -> Result<Verdict, OutOfMemory>
    requires { CanRise state.old }
    ensures { IfOk result (λ verdict. (state.new, verdict) ≡ outcome (create_refusal state.old index.now shards replicas) state.old (created_in state.old index.now shards replicas)) }
{
    if let Some(refusal) = why_not_create(state, index, shards, replicas) {
        return Ok(Verdict::Refused(refusal));
    }
    create(alloc, state, index, shards, replicas)?;
    Ok(Verdict::Success)
}

fn why_not_create(
    state: &ClusterState,
    index: &Text,
    shards: u64,
    replicas: u64,
) -> Option<TaskRefusal>
    ensures { result ≡ create_refusal state.now index.now shards replicas }
{
    if check_index_name(index.as_str()).is_err() {
        Some(TaskRefusal::InvalidName)
    } else if state.metadata.indices.contains_key(index) {
        Some(TaskRefusal::Exists)
    } else if state.metadata.has_alias(index) {
        Some(TaskRefusal::AliasClash)
    } else if shards < 1 || 1024 < shards || 1000 < replicas {
        Some(TaskRefusal::BadValue)
    } else {
        None
    }
}

fn create(
    alloc: Global,
    state: &mut ClusterState,
    index: &Text,
    shards: u64,
    replicas: u64,
) -> Result<(), OutOfMemory>
    requires { CanRise state.old }
    ensures { OnOk result (state.new ≡ created_in state.old index.now shards replicas) }
{
    let id = state.metadata.created + 1;
    let made = IndexMetadata {
        id,
        version: 1,
        settings_version: 1,
        aliases_version: 1,
        opened: true,
        shards,
        replicas,
        aliases: NameSet::new(alloc),
    };
    state.metadata.indices.set(index.copy()?, made)?;
    state.metadata.created = id;
    Ok(())
}

/// Deletes an index, whose aliases go with it, or refuses to.
pub(crate) fn run_deletion(state: &mut ClusterState, index: &Text) -> Result<Verdict, OutOfMemory>
    ensures { IfOk result (λ verdict. (state.new, verdict) ≡ outcome (missing_refusal state.old index.now) state.old (deleted_in state.old index.now)) }
{
    if let Some(refusal) = why_not_there(state, index) {
        return Ok(Verdict::Refused(refusal));
    }
    state.metadata.indices.remove(index)?;
    Ok(Verdict::Success)
}

fn why_not_there(state: &ClusterState, index: &Text) -> Option<TaskRefusal>
    ensures { result ≡ missing_refusal state.now index.now }
{
    if state.metadata.indices.contains_key(index) {
        None
    } else {
        Some(TaskRefusal::NotFound)
    }
}

/// Sets how many replicas an index has, or refuses the setting.
pub(crate) fn run_index_setting(
    alloc: Global,
    state: &mut ClusterState,
    index: &Text,
    key: &Text,
    value: u64,
) -> Result<Verdict, OutOfMemory>
    requires { CanRise state.old }
    ensures { IfOk result (λ verdict. (state.new, verdict) ≡ outcome (index_setting_refusal state.old index.now key.now value) state.old (replicas_in state.old index.now value)) }
{
    if let Some(refusal) = why_not_set(state, index, key, value) {
        return Ok(Verdict::Refused(refusal));
    }
    set_replicas(alloc, state, index, value)?;
    Ok(Verdict::Success)
}

fn why_not_set(state: &ClusterState, index: &Text, key: &Text, value: u64) -> Option<TaskRefusal>
    ensures { result ≡ index_setting_refusal state.now index.now key.now value }
{
    let shards = is_shards(key);
    if !state.metadata.indices.contains_key(index) {
        Some(TaskRefusal::NotFound)
    } else if !(shards || is_replicas(key)) {
        Some(TaskRefusal::BadValue)
    } else if shards {
        Some(TaskRefusal::FinalSetting)
    } else if 1000 < value {
        Some(TaskRefusal::BadValue)
    } else {
        None
    }
}

fn is_shards(key: &Text) -> bool
    ensures { result ≡ is_shards_key key.now }
{
    key.as_str() == "index.number_of_shards"
}

fn is_replicas(key: &Text) -> bool
    ensures { result ≡ is_replicas_key key.now }
{
    key.as_str() == "index.number_of_replicas"
}

#[tactic(auto, using(crate::proofs::Rising::index_can_rise, meta_state::proofs::Tables::same_aliases))]
fn set_replicas(
    alloc: Global,
    state: &mut ClusterState,
    name: &Text,
    replicas: u64,
) -> Result<(), OutOfMemory>
    requires { CanRise state.old }
    ensures { OnOk result (state.new ≡ replicas_in state.old name.now replicas) }
{
    let Some(index) = state.metadata.indices.get(name) else {
        return Ok(());
    };
    if index.replicas == replicas {
        return Ok(());
    }
    let changed = resized(alloc, index, replicas)?;
    put_index(state, name, changed)
}

fn resized(
    alloc: Global,
    index: &IndexMetadata,
    replicas: u64,
) -> Result<IndexMetadata, OutOfMemory>
    requires { CanIndexRise index.now }
    ensures { IfOk result (λ made. made ≡ with_replicas index.now replicas) }
{
    let mut made = index.copy(alloc)?;
    made.version += 1;
    made.settings_version += 1;
    made.replicas = replicas;
    Ok(made)
}

/// Opens or closes an index, or refuses to.
pub(crate) fn run_opening(
    alloc: Global,
    state: &mut ClusterState,
    index: &Text,
    opened: bool,
) -> Result<Verdict, OutOfMemory>
    requires { CanRise state.old }
    ensures { IfOk result (λ verdict. (state.new, verdict) ≡ outcome (missing_refusal state.old index.now) state.old (opened_in state.old index.now opened)) }
{
    if let Some(refusal) = why_not_there(state, index) {
        return Ok(Verdict::Refused(refusal));
    }
    set_opened(alloc, state, index, opened)?;
    Ok(Verdict::Success)
}

#[tactic(auto, using(crate::proofs::Rising::index_can_rise, meta_state::proofs::Tables::same_aliases))]
fn set_opened(
    alloc: Global,
    state: &mut ClusterState,
    name: &Text,
    opened: bool,
) -> Result<(), OutOfMemory>
    requires { CanRise state.old }
    ensures { OnOk result (state.new ≡ opened_in state.old name.now opened) }
{
    let Some(index) = state.metadata.indices.get(name) else {
        return Ok(());
    };
    if index.opened == opened {
        return Ok(());
    }
    let changed = turned(alloc, index, opened)?;
    put_index(state, name, changed)
}

fn turned(alloc: Global, index: &IndexMetadata, opened: bool) -> Result<IndexMetadata, OutOfMemory>
    requires { CanIndexRise index.now }
    ensures { IfOk result (λ made. made ≡ with_opened index.now opened) }
{
    let mut made = index.copy(alloc)?;
    made.version += 1;
    made.opened = opened;
    Ok(made)
}

// Puts an index in place of the one that has its name and its aliases.
fn put_index(state: &mut ClusterState, name: &Text, index: IndexMetadata) -> Result<(), OutOfMemory>
    requires { index.aliases ≡ aliases_at name.now state.old.metadata.indices }
    ensures { OnOk result (state.new ≡ with_index state.old name.now index) }
{
    let name = name.copy()?;
    state.metadata.indices.set_keeping_aliases(name, index)
}
