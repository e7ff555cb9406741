//! Tests of the public calls of the crates of nodes, acknowledgements and watches, in a crate of their own as those of the
//! lower crates are.
#![tactic(auto)]

mod small_acks;
mod small_boards;
mod small_nodes;
mod small_states;
mod small_watches;

pub use small_acks::{first_nodes, pair_committed};
pub use small_boards::SmallBoard;
pub use small_nodes::SmallNode;
pub use small_states::{first_state, renumbered, report_of, states_with, with_index};
pub use small_watches::pair_armed;

#[cfg(test)]
mod ack_calls;
#[cfg(test)]
mod node_calls;
#[cfg(test)]
mod registry_calls;
#[cfg(test)]
mod watch_calls;
