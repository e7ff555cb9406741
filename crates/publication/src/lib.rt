//! What a node holds, and how a new state comes to it: messages, the replica that takes them, the link that carries
//! them, and the publication of a state over links.
#![tactic(auto)]

mod all_links;
mod commits;
mod deliveries;
mod handings;
mod link_faults;
mod links;
mod memory_links;
mod messages;
mod offers;
mod publications;
mod receipts;
mod replicas;
mod sendings;

pub use deliveries::{Answer, Delivery, deliver};
pub use link_faults::LinkFault;
pub use links::Link;
pub use memory_links::MemLink;
pub use messages::{Message, MessageKind};
pub use publications::{Publication, publish};
pub use receipts::Receipt;
pub use replicas::Replica;
