ghost use Rattle.std.specs.Prelude.{◌≡◌, Some, IfOk, IfErr};
ghost use Rattle.meta_state.specs.Touches.{AgreeOutside};
ghost use Rattle.state_diff.specs.Changes.{changed};
ghost use Rattle.state_diff.specs.MetadataDiffs.{settings_between, settings_patched};
ghost use Rattle.state_diff.specs.IndexDiffs.{indices_between, indices_patched};
ghost use Rattle.state_diff.specs.StateDiffs.{nodes_between, nodes_patched, state_between, state_patched, applied, HasCause, apply_refusal_number};

use crate::diffables::{Copied, Diffable};
use crate::index_diffs::between_indices_among;
use crate::map_diffs::{MapDiff, between_maps_among};
use crate::patching::patch_pairs;
use meta_state::{ClusterState, IndexMetadata, IndexTable, Metadata, NodeInfo, Touched};
use plain_data::{Map, OutOfMemory, Text};
use std::alloc::Global;
use std::marker::Model;
use thiserror::Error;

/// The parts of a diff of states. A part of one value is none where both states have the same.
#[derive(Drop)]
pub struct DiffParts {
    /// The identifier of the state that it leads from.
    pub from_id: u64,

    /// The identifier of the state that it leads to.
    pub to_id: u64,

    /// The version of that state.
    pub to_version: u64,

    pub cluster: Option<Text>,
    pub term: Option<u64>,
    pub master: Option<Text>,
    pub nodes: MapDiff<NodeInfo>,
    pub metadata_version: Option<u64>,
    pub created: Option<u64>,
    pub settings: MapDiff<Text>,
    pub indices: MapDiff<IndexMetadata>,
}

/// What leads from one state to another (Elasticsearch's `Diff<ClusterState>`). Which states they are is told by their
/// identifiers alone, so that a state that another master made with the same version isn't taken for the first.
#[derive(Drop)]
pub struct StateDiff {
    parts: DiffParts,
}

impl Model for StateDiff {
    ghost use Rattle.state_diff.specs.declared.state_diffs.DiffParts.{DiffParts};

    ghost Value = { DiffParts };

    ghost view = { λ d. d.parts };
}

impl StateDiff {
    /// What leads from `a` to `b`, which have different identifiers. It compares all of both states.
    pub fn between(
        alloc: Global,
        a: &ClusterState,
        b: &ClusterState,
    ) -> Result<StateDiff, OutOfMemory>
        requires { a.now.id ≡ b.now.id → ⊥ }
        ensures made { IfOk result (λ made. made ≡ state_between a.now b.now) }
        ensures leads { IfOk result (λ made. applied made a.now ≡ Some b.now) }
    {
        let nodes = Map::between(alloc, &a.nodes, &b.nodes)?;
        let settings = Map::between(alloc, &a.metadata.settings, &b.metadata.settings)?;
        let indices = IndexTable::between(alloc, &a.metadata.indices, &b.metadata.indices)?;
        of_maps(alloc, a, b, nodes, settings, indices)
    }

    /// The same where it is known outside of which names the two states agree: only those are compared, so that it
    /// costs what may have changed, and not what there is.
    pub fn between_among(
        alloc: Global,
        a: &ClusterState,
        b: &ClusterState,
        touched: &Touched,
    ) -> Result<StateDiff, OutOfMemory>
        requires differ { a.now.id ≡ b.now.id → ⊥ }
        requires agree { AgreeOutside touched.now a.now b.now }
        ensures made { IfOk result (λ made. made ≡ state_between a.now b.now) }
        ensures leads { IfOk result (λ made. applied made a.now ≡ Some b.now) }
    {
        let (old, new) = (&a.metadata, &b.metadata);
        let nodes = between_maps_among(alloc, &a.nodes, &b.nodes, touched.nodes.as_map())?;
        let settings = between_maps_among(
            alloc,
            &old.settings,
            &new.settings,
            touched.settings.as_map(),
        )?;
        let indices = between_indices_among(
            alloc,
            &old.indices,
            &new.indices,
            touched.indices.as_map(),
        )?;
        of_maps(alloc, a, b, nodes, settings, indices)
    }

    /// The diff of these parts. It takes no memory.
    pub fn from_parts(parts: DiffParts) -> StateDiff
        ensures { result ≡ parts }
    {
        StateDiff { parts }
    }

    pub fn parts(&self) -> &DiffParts
        ensures { result.now ≡ self.now }
    {
        &self.parts
    }

    pub fn from_id(&self) -> u64
        ensures { result ≡ self.now.from_id }
    {
        self.parts.from_id
    }

    pub fn to_id(&self) -> u64
        ensures { result ≡ self.now.to_id }
    {
        self.parts.to_id
    }

    pub fn to_version(&self) -> u64
        ensures { result ≡ self.now.to_version }
    {
        self.parts.to_version
    }

    /// The state that it leads to, from the state that it leads from; what it leads to already is answered as it is.
    /// Any other state is refused by its identifier, whatever its version, and handed back; so it is for want of
    /// memory. It costs as much as the diff is long.
    pub fn apply(&self, alloc: Global, state: ClusterState) -> Result<ClusterState, ApplyFault>
        ensures done { IfOk result (λ made. applied self.now state ≡ Some made) }
        ensures cause { IfErr result (λ fault. HasCause self.now state fault.why) }
        ensures kept { IfErr result (λ fault. fault.state ≡ state) }
    {
        let parts = self.parts();
        if state.id == parts.to_id {
            return Ok(state);
        }
        if state.id != parts.from_id {
            let why = ApplyRefusal::Incompatible {
                has: state.id,
                wants: parts.from_id,
            };
            return Err(ApplyFault { why, state });
        }
        match patch_state(alloc, parts, &state) {
            Err(_) => Err(ApplyFault {
                why: ApplyRefusal::OutOfMemory,
                state,
            }),
            Ok(made) => Ok(made),
        }
    }
}

/// Why a diff wasn't applied to a state. It has a number from 1 to 2.
#[derive(Clone, Copy, Debug, PartialEq, Eq, Error)]
pub enum ApplyRefusal {
    /// The state is neither the one that the diff leads from nor the one that it leads to.
    #[error("the diff leads from state {wants}, not {has}")]
    Incompatible { has: u64, wants: u64 },

    /// There was not enough memory.
    #[error("out of memory")]
    OutOfMemory,
}

impl ApplyRefusal {
    /// Its number, from 1 to 2 in the order above.
    pub fn number(&self) -> u8
        ensures { result ≡ apply_refusal_number self.now }
    {
        match self {
            ApplyRefusal::Incompatible { .. } => 1,
            ApplyRefusal::OutOfMemory => 2,
        }
    }
}

/// A state to which a diff wasn't applied, handed back unchanged.
#[derive(Debug, Drop)]
pub struct ApplyFault {
    pub why: ApplyRefusal,
    pub state: ClusterState,
}

/// The diff of two states, of whose maps the diffs are given.
#[tactic(auto, using(crate::proofs::Records::state_leads))]
fn of_maps(
    alloc: Global,
    a: &ClusterState,
    b: &ClusterState,
    nodes: MapDiff<NodeInfo>,
    settings: MapDiff<Text>,
    indices: MapDiff<IndexMetadata>,
) -> Result<StateDiff, OutOfMemory>
    requires differ { a.now.id ≡ b.now.id → ⊥ }
    requires nodes { nodes ≡ nodes_between a.now.nodes b.now.nodes }
    requires settings { settings ≡ settings_between a.now.metadata.settings b.now.metadata.settings }
    requires indices { indices ≡ indices_between a.now.metadata.indices b.now.metadata.indices }
    requires nodes_lead { nodes_patched nodes a.now.nodes ≡ b.now.nodes }
    requires settings_lead { settings_patched settings a.now.metadata.settings ≡ b.now.metadata.settings }
    requires indices_lead { indices_patched indices a.now.metadata.indices ≡ b.now.metadata.indices }
    ensures made { IfOk result (λ made. made ≡ state_between a.now b.now) }
    ensures leads { IfOk result (λ made. applied made a.now ≡ Some b.now) }
{
    let parts = DiffParts {
        from_id: a.id,
        to_id: b.id,
        to_version: b.version,
        cluster: Text::between(alloc, &a.cluster, &b.cluster)?,
        term: u64::between(alloc, &a.term, &b.term)?,
        master: Text::between(alloc, &a.master, &b.master)?,
        nodes,
        metadata_version: u64::between(alloc, &a.metadata.version, &b.metadata.version)?,
        created: u64::between(alloc, &a.metadata.created, &b.metadata.created)?,
        settings,
        indices,
    };
    Ok(StateDiff { parts })
}

/// The state that a diff leads to.
fn patch_state(
    alloc: Global,
    diff: &DiffParts,
    state: &ClusterState,
) -> Result<ClusterState, OutOfMemory>
    ensures { IfOk result (λ made. made ≡ state_patched diff.now state.now) }
{
    let metadata = Metadata {
        version: diff.metadata_version.unwrap_or(state.metadata.version),
        created: diff.created.unwrap_or(state.metadata.created),
        settings: patch_pairs(alloc, &diff.settings, &state.metadata.settings)?,
        indices: patch_pairs(alloc, &diff.indices, &state.metadata.indices)?,
    };
    Ok(ClusterState {
        cluster: changed_text(alloc, &diff.cluster, &state.cluster)?,
        id: diff.to_id,
        term: diff.term.unwrap_or(state.term),
        version: diff.to_version,
        master: changed_text(alloc, &diff.master, &state.master)?,
        nodes: patch_pairs(alloc, &diff.nodes, &state.nodes)?,
        metadata,
    })
}

fn changed_text(alloc: Global, change: &Option<Text>, text: &Text) -> Result<Text, OutOfMemory>
    ensures { IfOk result (λ made. made ≡ changed change.now text.now) }
{
    match change {
        None => text.copied(alloc),
        Some(new) => new.copied(alloc),
    }
}
