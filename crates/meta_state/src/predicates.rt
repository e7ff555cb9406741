ghost use Rattle.std.specs.Prelude.{◌≡◌, IfOk, map};
ghost use Rattle.std.specs.List.{list_all, list_any};
ghost use Rattle.plain_data.specs.Pairs.{lookup};
ghost use Rattle.meta_state.specs.Predicates.{is_met, is_value};

use crate::cluster_state::ClusterState;
use plain_data::{Boxed, Items, OutOfMemory, Text};
use std::alloc::Global;

/// What a watch waits for: a test of a cluster state.
#[derive(Debug, Drop)]
pub enum Pred {
    /// An index of this name exists.
    Index(Text),

    /// Some index has this alias.
    Alias(Text),

    /// A node of this name is in the state.
    Node(Text),

    /// The state's version is at least this.
    Version(u64),

    /// The cluster setting of this key has this value.
    Setting { key: Text, value: Text },

    /// The inner predicate isn't met.
    Not(Boxed<Pred>),

    /// Each is met; of none, all are.
    All(Items<Pred>),

    /// One is met; of none, none is.
    Any(Items<Pred>),
}

impl Pred {
    /// Whether a state meets it, however deep it nests. It takes no memory.
    #[cycle(testing)]
    #[tactic(auto, unfolding(crate::specs::Predicates::is_met))]
    pub fn test(&self, state: &ClusterState) -> bool
        ensures { result ≡ is_met state.now self.now }
    {
        match self {
            Pred::Index(name) => state.metadata.indices.contains_key(name),
            Pred::Alias(alias) => state.metadata.has_alias(alias),
            Pred::Node(name) => state.nodes.contains_key(name),
            Pred::Version(version) => *version <= state.version,
            Pred::Setting { key, value } => has_value(state, key, value),
            Pred::Not(inner) => !inner.get().test(state),
            Pred::All(parts) => are_all_met(parts.as_slice(), state),
            Pred::Any(parts) => is_any_met(parts.as_slice(), state),
        }
    }

    /// A copy of it.
    #[cycle(copying)]
    pub fn copy(&self, alloc: Global) -> Result<Pred, OutOfMemory>
        ensures { IfOk result (λ made. made ≡ self.now) }
    {
        match self {
            Pred::Index(name) => Ok(Pred::Index(name.copy()?)),
            Pred::Alias(alias) => Ok(Pred::Alias(alias.copy()?)),
            Pred::Node(name) => Ok(Pred::Node(name.copy()?)),
            Pred::Version(version) => Ok(Pred::Version(*version)),
            Pred::Setting { key, value } => {
                let key = key.copy()?;
                Ok(Pred::Setting {
                    key,
                    value: value.copy()?,
                })
            }
            Pred::Not(inner) => Ok(Pred::Not(Boxed::new(alloc, inner.get().copy(alloc)?)?)),
            Pred::All(parts) => Ok(Pred::All(copy_all(alloc, parts.as_slice())?)),
            Pred::Any(parts) => Ok(Pred::Any(copy_all(alloc, parts.as_slice())?)),
        }
    }
}

#[cycle(copying)]
fn copy_all(alloc: Global, parts: &[Pred]) -> Result<Items<Pred>, OutOfMemory>
    ensures { IfOk result (λ made. made ≡ parts.now) }
{
    let mut copies = Items::new(alloc);
    for part in parts {
        copies.push(part.copy(alloc)?)?;
    }
    Ok(copies)
}

#[cycle(testing)]
fn are_all_met(parts: &[Pred], state: &ClusterState) -> bool
    ensures { result ≡ list_all (λ b. b) (map (is_met state.now) parts.now) }
{
    for part in parts {
        if !part.test(state) {
            return false;
        }
    }
    true
}

#[cycle(testing)]
fn is_any_met(parts: &[Pred], state: &ClusterState) -> bool
    ensures { result ≡ list_any (λ b. b) (map (is_met state.now) parts.now) }
{
    for part in parts {
        if part.test(state) {
            return true;
        }
    }
    false
}

// Whether a cluster setting has this value.
fn has_value(state: &ClusterState, key: &Text, value: &Text) -> bool
    ensures { result ≡ is_value value.now (lookup key.now state.now.metadata.settings) }
{
    match state.metadata.settings.get(key) {
        None => false,
        Some(found) => found == value,
    }
}
