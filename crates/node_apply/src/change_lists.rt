ghost use Rattle.std.specs.Prelude.{◌≡◌, IfOk, OnOk};
ghost use Rattle.std.specs.Option.{option_copied};
ghost use Rattle.plain_data.specs.Agreements.{AgreeOutside};
ghost use Rattle.session_law.specs.Changes.{change_between, changed_settings, changed_since, is_changed_index, is_same_index, is_same_value, lacking, unknown_to};
ghost use Rattle.node_apply.specs.ListedNames.{listed, names_at};

use crate::changed_events::ChangedEvent;
use crate::putting::{all_three, both};
use meta_state::{IndexMetadata, IndexTable, NodeInfo};
use plain_data::{Items, Map, NameSet, OutOfMemory, Text};
use session_law::Change;
use std::alloc::Global;

/// What changed between the states of an event, as listeners are told. It costs look-ups at what may have changed, and
/// no walk over what there is.
#[tactic(auto, unfolding(session_law::specs::Changes::change_between))]
pub(crate) fn change_of(alloc: Global, event: &ChangedEvent<'_>) -> Result<Change, OutOfMemory>
    ensures { IfOk result (λ made. made ≡ change_between event.now.old event.now.new) }
{
    let (old, new, touched) = (event.old_state(), event.new_state(), event.touched());
    let (before, after) = (&old.metadata, &new.metadata);
    let of_indices = all_three(
        lacking(alloc, &before.indices, &after.indices, &touched.indices),
        lacking(alloc, &after.indices, &before.indices, &touched.indices),
        changed_since(alloc, &before.indices, &after.indices, &touched.indices),
    );
    let of_others = all_three(
        unknown_to(alloc, &old.nodes, &new.nodes, &touched.nodes),
        unknown_to(alloc, &new.nodes, &old.nodes, &touched.nodes),
        changed_settings(alloc, &before.settings, &after.settings, &touched.settings),
    );
    let ((created, deleted, changed), (joined, left, settings)) = both(of_indices, of_others)?;
    Ok(Change {
        created,
        deleted,
        changed,
        joined,
        left,
        settings,
    })
}

// The names of the indices whose name and identifier the others lack.
#[tactic(auto, using(crate::proofs::Listing::lacking_among))]
fn lacking(
    alloc: Global,
    others: &IndexTable,
    indices: &IndexTable,
    names: &NameSet,
) -> Result<Items<Text>, OutOfMemory>
    requires { AgreeOutside names.now others.now indices.now }
    ensures { IfOk result (λ made. made ≡ lacking others.now indices.now) }
{
    // The names of all stand in order.
    let _ = (indices.len(), names.len());
    names_at::<_, IsLacking>(alloc, others.by_name(), indices.by_name(), names)
}

// The names of the indices that have other contents under the same name and identifier.
#[tactic(auto, using(crate::proofs::Listing::changed_among))]
fn changed_since(
    alloc: Global,
    others: &IndexTable,
    indices: &IndexTable,
    names: &NameSet,
) -> Result<Items<Text>, OutOfMemory>
    requires { AgreeOutside names.now others.now indices.now }
    ensures { IfOk result (λ made. made ≡ changed_since others.now indices.now) }
{
    let _ = (indices.len(), names.len());
    names_at::<_, IsChanged>(alloc, others.by_name(), indices.by_name(), names)
}

// The names of the nodes that the others don't have.
#[tactic(auto, using(crate::proofs::Listing::unknown_among))]
fn unknown_to(
    alloc: Global,
    others: &Map<NodeInfo>,
    nodes: &Map<NodeInfo>,
    names: &NameSet,
) -> Result<Items<Text>, OutOfMemory>
    requires { AgreeOutside names.now others.now nodes.now }
    ensures { IfOk result (λ made. made ≡ unknown_to others.now nodes.now) }
{
    let _ = (nodes.len(), names.len());
    names_at::<_, IsUnknown>(alloc, others, nodes, names)
}

// The keys of the settings that were added, removed or changed.
#[tactic(auto, using(crate::proofs::Listing::settings_among))]
fn changed_settings(
    alloc: Global,
    old: &Map<Text>,
    new: &Map<Text>,
    keys: &NameSet,
) -> Result<Items<Text>, OutOfMemory>
    requires { AgreeOutside keys.now old.now new.now }
    ensures { IfOk result (λ made. made ≡ changed_settings old.now new.now) }
{
    let _ = (new.len(), keys.len());
    names_at::<_, IsOtherValue>(alloc, old, new, keys)
}

// ---- the walk over names

// Which names belong to a list of what changed: those at which what the others and these have passes a test.
trait Listing<V> {
    ghost use Rattle.std.specs.Prelude.{◌≡◌, Bool, Option};
    ghost use Rattle.std.specs.Option.{option_copied};

    ghost passes: { Option V → Option V → Bool };

    fn passes(other: Option<&V>, own: Option<&V>) -> bool
        ensures { result ≡ passes (option_copied other.entry) (option_copied own.entry) };
}

fn names_at<V, L: Listing<V>>(
    alloc: Global,
    others: &Map<V>,
    own: &Map<V>,
    names: &NameSet,
) -> Result<Items<Text>, OutOfMemory>
    ensures { IfOk result (λ made. made ≡ names_at L.passes others.now own.now names.now) }
{
    let mut made = Items::new(alloc);
    for name in names.iter() {
        list(&mut made, name, L::passes(others.get(name), own.get(name)))?;
    }
    Ok(made)
}

// Puts a name at the end of a list, where it is to be listed.
fn list(made: &mut Items<Text>, name: &Text, is_listed: bool) -> Result<(), OutOfMemory>
    ensures { OnOk result (made.new ≡ listed is_listed name.now made.old) }
{
    if !is_listed {
        return Ok(());
    }
    made.push(name.copy()?)
}

// ---- one name

// An index whose name and identifier the others lack.
struct IsLacking;

impl Listing<IndexMetadata> for IsLacking {
    ghost use Rattle.node_apply.specs.ListedNames.{is_lacking};

    ghost passes = { is_lacking };

    fn passes(other: Option<&IndexMetadata>, own: Option<&IndexMetadata>) -> bool {
        match own {
            None => false,
            Some(index) => !is_same_index(index, other),
        }
    }
}

// An index that has other contents under the same name and identifier.
struct IsChanged;

impl Listing<IndexMetadata> for IsChanged {
    ghost use Rattle.node_apply.specs.ListedNames.{is_changed};

    ghost passes = { is_changed };

    fn passes(other: Option<&IndexMetadata>, own: Option<&IndexMetadata>) -> bool {
        match own {
            None => false,
            Some(index) => is_changed_index(index, other),
        }
    }
}

// A node that the others don't have.
struct IsUnknown;

impl Listing<NodeInfo> for IsUnknown {
    ghost use Rattle.node_apply.specs.ListedNames.{is_unknown};

    ghost passes = { is_unknown };

    fn passes(other: Option<&NodeInfo>, own: Option<&NodeInfo>) -> bool {
        own.is_some() && other.is_none()
    }
}

// A setting that was added, removed or changed.
struct IsOtherValue;

impl Listing<Text> for IsOtherValue {
    ghost use Rattle.node_apply.specs.ListedNames.{is_other_value};

    ghost passes = { is_other_value };

    fn passes(other: Option<&Text>, own: Option<&Text>) -> bool {
        !is_same_value(other, own)
    }
}

fn is_same_index(index: &IndexMetadata, other: Option<&IndexMetadata>) -> bool
    ensures { result ≡ is_same_index index.now (option_copied other.entry) }
{
    match other {
        None => false,
        Some(other) => index.id == other.id,
    }
}

fn is_changed_index(index: &IndexMetadata, other: Option<&IndexMetadata>) -> bool
    ensures { result ≡ is_changed_index index.now (option_copied other.entry) }
{
    match other {
        None => false,
        Some(other) => index.id == other.id && index != other,
    }
}

fn is_same_value(old: Option<&Text>, new: Option<&Text>) -> bool
    ensures { result ≡ is_same_value (option_copied old.entry) (option_copied new.entry) }
{
    match (old, new) {
        (None, None) => true,
        (Some(old), Some(new)) => old == new,
        _ => false,
    }
}
