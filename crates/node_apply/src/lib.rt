//! What a node makes of the states that it is handed: its appliers, whose views are changed step by step, the record of
//! what it applied, and the link over which it is handed commits.
#![tactic(auto)]

mod alias_views;
mod applied_states;
mod appliers;
mod change_lists;
mod changed_events;
mod commits;
mod index_views;
mod node_appliers;
mod node_links;
mod outcomes;
mod preparing;
mod putting;
mod settings_views;
mod sinces;
mod touched_names;
mod updates;

pub use alias_views::AliasView;
pub use appliers::Applier;
pub use changed_events::ChangedEvent;
pub use commits::{Commit, CommitEnd, CommitStart, commit_pair};
pub use index_views::IndexView;
pub use node_appliers::NodeApplier;
pub use node_links::NodeLink;
pub use outcomes::ApplyOutcome;
pub use settings_views::SettingsView;
