ghost use Rattle.std.specs.Prelude.{◌≡◌, ◌↔◌, ◌&&◌, IfOk, IsTrue, map, nat_lt, true};
ghost use Rattle.std.specs.List.{list_all};
ghost use Rattle.std.specs.Map.{keys_of};
ghost use Rattle.scripts.specs.Names.{are_distinct, is_name};
ghost use Rattle.executors.specs.SettingTasks.{is_key};
ghost use Rattle.report_law.specs.GoodForm.{IsGoodForm, IsNamedState, are_apart, are_listed, are_versions_rising, entry_key, is_apply_before, is_good_alias, is_good_apply, is_good_change, is_good_found, is_good_node, is_good_view, is_index_name, is_name_before, is_named_index, is_named_node};
ghost use Rattle.session_law.specs.Lawful.{AreInOrder, is_ack_before, is_before, is_read_before, is_reply_before, is_rising, is_watch_before};
ghost use Rattle.session_law.specs.NodeLines.{applied_versions};

use crate::apart::are_keys_apart;
use executors::is_setting_key;
use meta_state::{ClusterState, Found, IndexMetadata, Metadata, NodeInfo, check_index_name};
use plain_data::{Items, Map, NameSet, OutOfMemory, Text};
use scripts::is_a_name;
use session_law::{
    AckReply, Apply, ApplyEnd, Batch, Change, Entry, NodeRec, Read, Reply, Session, View, Watch,
};
use std::alloc::Global;

/// Whether a session is of good form, so that its report tells it whole: all its names are names, all its lists are in
/// order, no task stands twice in a batch, and no node has two records. It walks the session once, and looks each entry
/// of a batch, and each node's name, up among those before it: a session of n parts costs n log n steps.
pub fn is_good_form(alloc: Global, session: &Session) -> Result<bool, OutOfMemory>
    ensures { IfOk result (λ good. IsTrue good ↔ IsGoodForm session.now) }
{
    let apart = are_tasks_apart(alloc, session.batches.as_slice())?;
    let distinct = are_nodes_distinct(alloc, session.nodes.as_slice())?;
    let good = apart
        && distinct
        && are_queues_named(session.batches.as_slice())
        && is_in_order(session)
        && are_looks_good(session.reads.as_slice())
        && are_nodes_good(session.nodes.as_slice())
        && is_state_named(&session.last);
    Ok(good)
}

// ---- names

fn may_name_index(name: &Text) -> bool
    ensures { result ≡ is_index_name name.now }
{
    check_index_name(name.as_str()).is_ok()
}

fn are_names_rising(names: &[Text]) -> bool
    ensures { result ≡ is_rising is_name_before names.now }
{
    names.is_sorted_by(|a, b| a < b)
}

fn are_index_names(names: &[Text]) -> bool
    ensures { result ≡ list_all is_index_name names.now }
{
    names.iter().all(|name| may_name_index(name))
}

fn are_node_names(names: &[Text]) -> bool
    ensures { result ≡ list_all is_name names.now }
{
    names.iter().all(|name| is_a_name(name.as_str()))
}

fn are_keys(names: &[Text]) -> bool
    ensures { result ≡ list_all is_key names.now }
{
    names.iter().all(|name| is_setting_key(name))
}

fn are_listed_indices(names: &[Text]) -> bool
    ensures { result ≡ are_listed is_index_name names.now }
{
    are_index_names(names) && are_names_rising(names)
}

fn are_listed_nodes(names: &[Text]) -> bool
    ensures { result ≡ are_listed is_name names.now }
{
    are_node_names(names) && are_names_rising(names)
}

fn are_listed_keys(names: &[Text]) -> bool
    ensures { result ≡ are_listed is_key names.now }
{
    are_keys(names) && are_names_rising(names)
}

// ---- maps and sets, which keep their keys in byte order: only what the keys are is left to ask

#[tactic(auto, using(crate::proofs::Rising::sorted_keys_rise))]
fn keys_rise<V>(pairs: &Map<V>)
    ensures { is_rising is_name_before (keys_of pairs.now) ≡ true }
{
    let _len = pairs.len();
}

fn is_under_index_names<V>(pairs: &Map<V>) -> bool
    ensures { result ≡ are_listed is_index_name (keys_of pairs.now) }
{
    keys_rise(pairs);
    for (name, _) in pairs.iter() {
        if !may_name_index(name) {
            return false;
        }
    }
    true
}

fn are_settings_listed(settings: &Map<Text>) -> bool
    ensures { result ≡ are_listed is_key (keys_of settings.now) }
{
    keys_rise(settings);
    for (key, _) in settings.iter() {
        if !is_setting_key(key) {
            return false;
        }
    }
    true
}

#[tactic(auto, using(crate::proofs::Rising::sorted_keys_rise))]
fn are_aliases_listed(aliases: &NameSet) -> bool
    ensures { result ≡ are_listed is_index_name (keys_of aliases.now) }
{
    let _len = aliases.len();
    for alias in aliases.iter() {
        if !may_name_index(alias) {
            return false;
        }
    }
    true
}

// ---- states

fn is_node_named(name: &Text, node: &NodeInfo) -> bool
    ensures { result ≡ is_named_node (name.now, node.now) }
{
    is_a_name(name.as_str()) && *name == node.name
}

fn are_nodes_named(nodes: &Map<NodeInfo>) -> bool
    ensures { result ≡ (list_all is_named_node nodes.now && is_rising is_name_before (keys_of nodes.now)) }
{
    keys_rise(nodes);
    for (name, node) in nodes.iter() {
        if !is_node_named(name, node) {
            return false;
        }
    }
    true
}

fn is_index_named(name: &Text, index: &IndexMetadata) -> bool
    ensures { result ≡ is_named_index (name.now, index.now) }
{
    may_name_index(name) && are_aliases_listed(&index.aliases)
}

#[tactic(auto, using(crate::proofs::Rising::sorted_keys_rise))]
fn are_indices_named(metadata: &Metadata) -> bool
    ensures { result ≡ (list_all is_named_index metadata.now.indices && is_rising is_name_before (keys_of metadata.now.indices)) }
{
    let _len = metadata.indices.len();
    for (name, index) in metadata.indices.iter() {
        if !is_index_named(name, index) {
            return false;
        }
    }
    true
}

fn is_state_named(state: &ClusterState) -> bool
    ensures { IsTrue result ↔ IsNamedState state.now }
{
    is_a_name(state.cluster.as_str())
        && is_a_name(state.master.as_str())
        && are_nodes_named(&state.nodes)
        && are_indices_named(&state.metadata)
        && are_settings_listed(&state.metadata.settings)
}

// ---- records of nodes

fn are_changes_listed(change: &Change) -> bool
    ensures { result ≡ is_good_change change.now }
{
    are_listed_indices(change.created.as_slice())
        && are_listed_indices(change.deleted.as_slice())
        && are_listed_indices(change.changed.as_slice())
        && are_listed_nodes(change.joined.as_slice())
        && are_listed_nodes(change.left.as_slice())
        && are_listed_keys(change.settings.as_slice())
}

fn is_apply_good(apply: &Apply) -> bool
    ensures { result ≡ is_good_apply apply.now.end }
{
    match &apply.end {
        ApplyEnd::Failed => true,
        ApplyEnd::Applied { change, .. } => are_changes_listed(change),
    }
}

fn are_applies_good(applies: &[Apply]) -> bool
    ensures { result ≡ list_all (λ a. is_good_apply a.end) applies.now }
{
    applies.iter().all(|apply| is_apply_good(apply))
}

fn is_alias_good(alias: &Text, names: &Items<Text>) -> bool
    ensures { result ≡ is_good_alias (alias.now, names.now) }
{
    may_name_index(alias) && are_listed_indices(names.as_slice())
}

fn are_aliases_good(aliases: &Map<Items<Text>>) -> bool
    ensures { result ≡ list_all is_good_alias aliases.now }
{
    for (alias, names) in aliases.iter() {
        if !is_alias_good(alias, names) {
            return false;
        }
    }
    true
}

fn is_view_good(view: &View) -> bool
    ensures { result ≡ is_good_view view.now }
{
    are_aliases_good(&view.aliases)
        && is_under_index_names(&view.aliases)
        && is_under_index_names(&view.indices)
        && are_settings_listed(&view.settings)
}

fn are_numbers_rising(numbers: &[u64]) -> bool
    ensures { result ≡ is_rising nat_lt numbers.now }
{
    numbers.is_sorted_by(|a, b| a < b)
}

fn are_applied_rising(node: &NodeRec) -> bool
    ensures { result ≡ is_rising nat_lt (applied_versions node.now) }
{
    let mut last = node.first;
    for apply in node.applies.as_slice() {
        if apply.end.has_applied() {
            if apply.to <= last {
                return false;
            }
            last = apply.to;
        }
    }
    true
}

fn are_applies_rising(applies: &[Apply]) -> bool
    ensures { result ≡ is_rising is_apply_before applies.now }
{
    applies.is_sorted_by(|a, b| a.to < b.to)
}

fn do_versions_rise(node: &NodeRec) -> bool
    ensures { result ≡ are_versions_rising node.now }
{
    are_numbers_rising(node.handed.as_slice())
        && are_applies_rising(node.applies.as_slice())
        && are_applied_rising(node)
}

fn is_node_good(node: &NodeRec) -> bool
    ensures { result ≡ is_good_node node.now }
{
    is_a_name(node.node.as_str())
        && do_versions_rise(node)
        && are_applies_good(node.applies.as_slice())
        && is_view_good(&node.view)
}

fn are_nodes_good(nodes: &[NodeRec]) -> bool
    ensures { result ≡ list_all is_good_node nodes.now }
{
    nodes.iter().all(|node| is_node_good(node))
}

fn node_names(alloc: Global, nodes: &[NodeRec]) -> Result<Vec<Text>, OutOfMemory>
    ensures { IfOk result (λ made. made.items ≡ map (λ r. r.node) nodes.now) }
{
    let mut names = Vec::new(alloc);
    for node in nodes {
        names.push(node.node.copy()?)?;
    }
    Ok(names)
}

#[tactic(auto, using(crate::proofs::Keys::names_by_order))]
fn are_nodes_distinct(alloc: Global, nodes: &[NodeRec]) -> Result<bool, OutOfMemory>
    ensures { IfOk result (λ apart. apart ≡ are_distinct (map (λ r. r.node) nodes.now)) }
{
    are_keys_apart(alloc, node_names(alloc, nodes)?)
}

// ---- batches

fn are_queues_named(batches: &[Batch]) -> bool
    ensures { result ≡ list_all (λ b. is_name b.queue) batches.now }
{
    batches.iter().all(|batch| is_a_name(batch.queue.as_str()))
}

fn entry_keys(alloc: Global, entries: &[Entry]) -> Result<Vec<(u32, u32)>, OutOfMemory>
    ensures { IfOk result (λ made. made.items ≡ map entry_key entries.now) }
{
    let mut keys = Vec::new(alloc);
    for entry in entries {
        keys.push((entry.client, entry.step))?;
    }
    Ok(keys)
}

fn are_entries_apart(alloc: Global, entries: &[Entry]) -> Result<bool, OutOfMemory>
    ensures { IfOk result (λ apart. apart ≡ are_apart entries.now) }
{
    are_keys_apart(alloc, entry_keys(alloc, entries)?)
}

fn are_tasks_apart(alloc: Global, batches: &[Batch]) -> Result<bool, OutOfMemory>
    ensures { IfOk result (λ apart. apart ≡ list_all (λ b. are_apart b.entries) batches.now) }
{
    for batch in batches {
        if !are_entries_apart(alloc, batch.entries.as_slice())? {
            return Ok(false);
        }
    }
    Ok(true)
}

// ---- the order of lists

fn stands_before(client: u32, step: u32, other: u32, later: u32) -> bool
    ensures { result ≡ is_before client step other later }
{
    client < other || (client == other && step < later)
}

fn are_replies_rising(replies: &[Reply]) -> bool
    ensures { result ≡ is_rising is_reply_before replies.now }
{
    replies.is_sorted_by(|a, b| stands_before(a.client, a.step, b.client, b.step))
}

fn are_acks_rising(acks: &[AckReply]) -> bool
    ensures { result ≡ is_rising is_ack_before acks.now }
{
    acks.is_sorted_by(|a, b| stands_before(a.client, a.step, b.client, b.step))
}

fn are_reads_rising(reads: &[Read]) -> bool
    ensures { result ≡ is_rising is_read_before reads.now }
{
    reads.is_sorted_by(|a, b| stands_before(a.client, a.step, b.client, b.step))
}

fn is_part_before(a: &Watch, b: &Watch) -> bool
    ensures { result ≡ is_watch_before a.now b.now }
{
    stands_before(a.client, a.step, b.client, b.step)
        || (a.client == b.client && a.step == b.step && a.part < b.part)
}

fn are_watches_rising(watches: &[Watch]) -> bool
    ensures { result ≡ is_rising is_watch_before watches.now }
{
    watches.is_sorted_by(|a, b| is_part_before(a, b))
}

fn is_in_order(session: &Session) -> bool
    ensures { IsTrue result ↔ AreInOrder session.now }
{
    are_replies_rising(session.replies.as_slice())
        && are_acks_rising(session.acks.as_slice())
        && are_watches_rising(session.watches.as_slice())
        && are_reads_rising(session.reads.as_slice())
}

// ---- reads

fn is_look_good(read: &Read) -> bool
    ensures { result ≡ is_good_found read.now.found }
{
    match &read.found {
        Found::Names(names) => are_listed_indices(names.as_slice()),
        _ => true,
    }
}

fn are_looks_good(reads: &[Read]) -> bool
    ensures { result ≡ list_all (λ r. is_good_found r.found) reads.now }
{
    reads.iter().all(|read| is_look_good(read))
}
