//! The words of acknowledgements: how far each is, and what decides it.
#![tactic(auto)]

mod answers;
mod countdowns;
mod node_masks;
mod plain_acks;
mod words;

pub use answers::{AckExpiry, AckPoll};
pub use node_masks::NodeMask;
pub use plain_acks::PlainAcks;
