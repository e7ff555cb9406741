//! Tests of the public calls of the crates that bring a new state to its nodes, in a crate of their own as those of the
//! lower crates are.
#![tactic(auto)]

mod publishing_nodes;
mod small_links;
mod small_states;

pub use publishing_nodes::state_of;
pub use small_links::{can_publish, counts_told, kinds_told, link_line, link_to, told};
pub use small_states::state_with;

#[cfg(test)]
mod diff_calls;
#[cfg(test)]
mod link_calls;
